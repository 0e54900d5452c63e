//! Why a script has no tree to run in.
use answers::Printed;
use byte_output::put;
use cgroup_tree::RootFault;
use faults::OrMemory;
use kernel_model::KernelFault;
use program_io::{ReadFault, Refusal};
use std::io;
use std::io::Write;

/// Why a script is not begun in a cgroup tree: what is wrong with its root.
#[derive(Clone, Copy)]
pub enum Unrooted {
    /// E113: the root is no folder, or a file of it can't be read.
    Unread(ReadFault),
    /// E1: an allocation failed.
    Memory,
    /// E115: its groups can't have cpusets of their own.
    NoCpuset,
    /// E116: its CPUs or nodes are not the machine's.
    OtherMachine,
    /// E117: it has to be a partition root, and is none.
    NoPartition,
    /// E50: another program has the root.
    Taken,
    /// E50: the root can't be locked, so other programs can't be kept from it.
    Unlocked,
    /// E50: the group of all containers can't be made.
    Kernel,
}

impl From<RootFault> for Unrooted {
    ghost use Rattle.cli.specs.Roots.{IsUnrooted};

    ghost from_gives = { IsUnrooted };

    fn from(fault: RootFault) -> Unrooted {
        match fault {
            RootFault::Memory => Unrooted::Memory,
            RootFault::Taken => Unrooted::Taken,
            RootFault::Unlocked(_) => Unrooted::Unlocked,
            RootFault::Unread(kind) => Unrooted::Unread(ReadFault::told(kind)),
            RootFault::NoCpuset => Unrooted::NoCpuset,
            RootFault::OtherMachine => Unrooted::OtherMachine,
            RootFault::NoPartition => Unrooted::NoPartition,
        }
    }
}

impl From<OrMemory<KernelFault>> for Unrooted {
    ghost use Rattle.std.specs.Prelude.{◌≡◌};
    ghost use Rattle.cli.specs.Roots.{unrooted_of};

    ghost from_gives = { λ error why. why ≡ unrooted_of error };

    fn from(error: OrMemory<KernelFault>) -> Unrooted {
        match error {
            OrMemory::Memory => Unrooted::Memory,
            OrMemory::Fault(_) => Unrooted::Kernel,
        }
    }
}

impl Printed for Unrooted {
    ghost use Rattle.cli.specs.Roots.{root_line};

    ghost text = { root_line };

    fn print<W: Write>(&self, w: &mut W) -> io::Result<()> {
        match self {
            Unrooted::Unread(fault) => Refusal::ReadFault(*fault).write(w),
            Unrooted::Memory => Refusal::Memory.write(w),
            Unrooted::NoCpuset => put(b"refused E115 NoCpuset\n", w),
            Unrooted::OtherMachine => put(b"refused E116 OtherMachine\n", w),
            Unrooted::NoPartition => put(b"refused E117 NoPartition\n", w),
            Unrooted::Taken | Unrooted::Unlocked | Unrooted::Kernel => {
                put(b"refused E50 KernelFault\n", w)
            }
        }
    }
}
