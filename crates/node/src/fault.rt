ghost use Rattle.std.specs.Prelude.{◌≡◌};
ghost use Rattle.node.specs.FaultTitle.{node_title};

use config_json::ConfigFault;
use demand::DemandFault;
use faults::Fault;
use kernel_model::KernelFault;

/// Why a node refuses a call, or that a write of the kernel failed in it.
#[derive(Clone, Copy, Debug, PartialEq, Eq)]
pub enum NodeFault {
    /// E90: a hand-over is open.
    Busy,
    /// E91: the id is not 1 to 64 ASCII letters, digits, `_`, `-`, `.` and `+`, or it is `.` or `..`.
    BadId,
    /// E92: a container has the id.
    IdInUse,
    /// E93: there are as many containers as there may be.
    TooManyContainers,
    /// E94: no container has the id.
    NoContainer,
    /// E95: the container is not `created`.
    NotCreated,
    /// E96: the container's config names nothing to run.
    NotRunnable,
    /// E97: the signal is none of those that end a process.
    BadSignal,
    /// E98: the container is neither `created` nor `running`.
    NotLive,
    /// E99: the container is not `stopped`.
    NotStopped,
    /// E100: no hand-over is open.
    NoHandover,
    /// E101: no plan and no shortage was worked out yet.
    NoAnswer,
    /// E104: a container that is adopted has the CPU, and the CPU is not present, or not reserved and requested by a
    /// live container where that one or the adopted one is pinned: the least such CPU.
    NotFree(u16),
    /// The container's config can't be read.
    Config(ConfigFault),
    /// The machine can't give what the container asks for.
    Demand(DemandFault),
    /// The kernel has no pid or no serial left, or a write of it failed.
    Kernel(KernelFault),
}

impl NodeFault {
    /// The number and the name that a refusal's line has.
    pub fn title(self) -> &'static str
        ensures { result.now ≡ node_title self }
    {
        match self {
            NodeFault::Busy => "E90 Busy",
            NodeFault::BadId => "E91 BadId",
            NodeFault::IdInUse => "E92 IdInUse",
            NodeFault::TooManyContainers => "E93 TooManyContainers",
            NodeFault::NoContainer => "E94 NoContainer",
            NodeFault::NotCreated => "E95 NotCreated",
            NodeFault::NotRunnable => "E96 NotRunnable",
            NodeFault::BadSignal => "E97 BadSignal",
            NodeFault::NotLive => "E98 NotLive",
            NodeFault::NotStopped => "E99 NotStopped",
            NodeFault::NoHandover => "E100 NoHandover",
            NodeFault::NoAnswer => "E101 NoAnswer",
            NodeFault::NotFree(_) => "E104 NotFree",
            NodeFault::Config(fault) => fault.title(),
            NodeFault::Demand(fault) => fault.title(),
            NodeFault::Kernel(fault) => fault.title(),
        }
    }
}

impl Fault for NodeFault {}
