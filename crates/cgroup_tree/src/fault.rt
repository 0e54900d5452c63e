//! Why a tree is not taken.
use std::alloc::AllocError;
use std::io;
use std::io::ErrorKind;

/// Why a tree is not taken.
#[derive(Clone, Copy, Debug, PartialEq, Eq)]
pub enum RootFault {
    /// E1: an allocation failed.
    Memory,
    /// E50: another program has it.
    Taken,
    /// E50: the system can't lock it, so other programs can't be kept from it.
    Unlocked(ErrorKind),
    /// E113: the root is no folder, or a file of it can't be read.
    Unread(ErrorKind),
    /// E115: its groups can't have cpusets of their own: `cgroup.controllers` is there and does not name `cpuset`.
    NoCpuset,
    /// E116: what says its CPUs in effect is there and names others than those that are online, or a node in effect is
    /// none of the machine's; so is what is no list.
    OtherMachine,
    /// E117: it has to be a partition root, and `cpuset.cpus.partition` is not there or has another line than `root`.
    NoPartition,
}

impl From<io::Error> for RootFault {
    ghost use Rattle.std.specs.IoError.{error_kind};
    ghost use Rattle.cgroup_tree.specs.Roots.{IsFaultOf};

    ghost from_gives = { λ error fault. IsFaultOf (error_kind error) fault };

    fn from(error: io::Error) -> RootFault {
        match error.kind() {
            ErrorKind::OutOfMemory => RootFault::Memory,
            kind => RootFault::Unread(kind),
        }
    }
}

impl From<AllocError> for RootFault {
    ghost use Rattle.std.specs.Prelude.{◌≡◌};
    ghost use Rattle.cgroup_tree.specs.declared.fault.RootFault.TheVariants.{Memory};

    ghost from_gives = { λ _ fault. fault ≡ Memory };

    fn from(_error: AllocError) -> RootFault {
        RootFault::Memory
    }
}
