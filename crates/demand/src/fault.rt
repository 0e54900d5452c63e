ghost use Rattle.std.specs.Prelude.{◌≡◌};
ghost use Rattle.demand.specs.FaultTitle.{demand_title};

use cpu_list::ListError;

/// Why a container's config asks for what the machine can't give.
#[derive(Clone, Copy, Debug, PartialEq, Eq)]
pub enum DemandFault {
    /// E62: `cpus` is no list.
    BadCpus(ListError),
    /// E63: `cpus` names a CPU that the machine has not: the least such CPU.
    NoSuchCpu(u16),
    /// E64: `mems` is no list.
    BadMems(ListError),
    /// E65: `mems` names a node that the machine has not: the least such node.
    NoSuchNode(u16),
    /// E66: the quota asks for more CPUs than a machine may have.
    QuotaTooLarge,
    /// E67: the container asks for CPUs of its own, and may have none.
    NothingAllowed,
}

impl DemandFault {
    /// The number and the name that a refusal's line has.
    pub fn title(self) -> &'static str
        ensures { result.now ≡ demand_title self }
    {
        match self {
            DemandFault::BadCpus(_) => "E62 BadCpus",
            DemandFault::NoSuchCpu(_) => "E63 NoSuchCpu",
            DemandFault::BadMems(_) => "E64 BadMems",
            DemandFault::NoSuchNode(_) => "E65 NoSuchNode",
            DemandFault::QuotaTooLarge => "E66 QuotaTooLarge",
            DemandFault::NothingAllowed => "E67 NothingAllowed",
        }
    }
}
