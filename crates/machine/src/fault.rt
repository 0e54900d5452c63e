ghost use Rattle.std.specs.Prelude.{◌≡◌};
ghost use Rattle.machine.specs.FaultTitle.{machine_title};

use crate::field::Field;
use faults::Fault;

/// Why a text describes no machine; [`Machine::read`](crate::Machine::read) has the order in which the
/// causes are looked for.
#[derive(Clone, Copy, Debug, PartialEq, Eq)]
pub enum MachineFault {
    /// E25: the text has more than [`MAX_BYTES`](crate::MAX_BYTES) bytes, is not JSON, or is no object.
    NotJson,
    /// E26: a member that has to be there is absent, is of another kind, or is no list of CPUs.
    BadField(Field),
    /// E27: there is no node, or more than [`NODE_LIMIT`](crate::NODE_LIMIT).
    NodeCount,
    /// E28: the least CPU of a node that an earlier node has too.
    CpuTwice(u16),
    /// E29: there are distances in the text, and a SLIT.
    BothDistances,
    /// E30: there are neither.
    NoDistances,
    /// E31: there are not as many rows, columns or localities as nodes.
    WrongSize,
    /// E32: the entry in this row and column is 0 to 9, above 255, or on the diagonal and not 10.
    BadDistance(usize, usize),
    /// E33: no CPU is reserved, or one that is not present.
    BadReserved,
    /// E34: a CPU is offline that is not present, or that is reserved.
    BadOffline,
    /// E35: the core with this place in the list has no CPU, one that is not present or that an earlier core has, CPUs
    /// of two nodes, another number of CPUs than core 0, or CPUs of which some are reserved and some are not.
    BadCore(usize),
    /// E36: the least present CPU that no core has.
    NoCore(u16),
}

impl MachineFault {
    /// The number and the name that a refusal's line has.
    pub fn title(self) -> &'static str
        ensures { result.now ≡ machine_title self }
    {
        match self {
            MachineFault::NotJson => "E25 NotJson",
            MachineFault::BadField(_) => "E26 BadField",
            MachineFault::NodeCount => "E27 NodeCount",
            MachineFault::CpuTwice(_) => "E28 CpuTwice",
            MachineFault::BothDistances => "E29 BothDistances",
            MachineFault::NoDistances => "E30 NoDistances",
            MachineFault::WrongSize => "E31 WrongSize",
            MachineFault::BadDistance(_, _) => "E32 BadDistance",
            MachineFault::BadReserved => "E33 BadReserved",
            MachineFault::BadOffline => "E34 BadOffline",
            MachineFault::BadCore(_) => "E35 BadCore",
            MachineFault::NoCore(_) => "E36 NoCore",
        }
    }
}

impl Fault for MachineFault {}
