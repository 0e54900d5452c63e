ghost use Rattle.std.specs.Prelude.{◌≡◌};
ghost use Rattle.kernel_model.specs.FaultTitle.{kernel_title};
ghost use Rattle.kernel_model.specs.Faults.{of_tree, of_tree_error, of_proc, of_proc_error};

use cpuset_tree::TreeFault;
use faults::{Fault, OrMemory};
use proctable::ProcFault;

/// Why a kernel refuses a call, or that a write failed.
#[derive(Clone, Copy, Debug, PartialEq, Eq)]
pub enum KernelFault {
    /// E40: no group has this key and serial, as after its removal.
    NoGroup,
    /// E41: the parent has a child of that name.
    Exists,
    /// E42: a group with children can't be removed.
    HasChildren,
    /// E43: a group with processes can't be removed.
    HasProcesses,
    /// E44: the root can't be removed or written.
    IsRoot,
    /// E45: the last pid was given.
    NoPids,
    /// E46: no such process is alive.
    NoProcess,
    /// E47: the next serial would be one that is never given.
    NoSerials,
    /// E50: the write failed.
    Failed,
    /// E51: a reserved CPU can't go offline.
    Reserved,
    /// E52: no such CPU is present.
    NoCpu,
}

impl KernelFault {
    /// The number and the name that a refusal's line has.
    pub fn title(self) -> &'static str
        ensures { result.now ≡ kernel_title self }
    {
        match self {
            KernelFault::NoGroup => "E40 NoGroup",
            KernelFault::Exists => "E41 Exists",
            KernelFault::HasChildren => "E42 HasChildren",
            KernelFault::HasProcesses => "E43 HasProcesses",
            KernelFault::IsRoot => "E44 IsRoot",
            KernelFault::NoPids => "E45 NoPids",
            KernelFault::NoProcess => "E46 NoProcess",
            KernelFault::NoSerials => "E47 NoSerials",
            KernelFault::Failed => "E50 KernelFault",
            KernelFault::Reserved => "E51 Reserved",
            KernelFault::NoCpu => "E52 NoCpu",
        }
    }
}

impl Fault for KernelFault {}

impl From<TreeFault> for KernelFault {
    ghost from_gives = { λ fault r. r ≡ of_tree fault };

    fn from(fault: TreeFault) -> KernelFault {
        match fault {
            TreeFault::NoGroup => KernelFault::NoGroup,
            TreeFault::Exists => KernelFault::Exists,
            TreeFault::HasChildren => KernelFault::HasChildren,
            TreeFault::IsRoot => KernelFault::IsRoot,
            TreeFault::NoSerials => KernelFault::NoSerials,
        }
    }
}

impl From<ProcFault> for KernelFault {
    ghost from_gives = { λ fault r. r ≡ of_proc fault };

    fn from(fault: ProcFault) -> KernelFault {
        match fault {
            ProcFault::NoPids => KernelFault::NoPids,
            ProcFault::NoProcess => KernelFault::NoProcess,
        }
    }
}

/// A tree's error as a kernel's.
pub fn of_tree(error: OrMemory<TreeFault>) -> OrMemory<KernelFault>
    ensures { result ≡ of_tree_error error }
{
    match error {
        OrMemory::Memory => OrMemory::Memory,
        OrMemory::Fault(fault) => OrMemory::Fault(fault.into()),
    }
}

/// A table's error as a kernel's.
pub fn of_proc(error: OrMemory<ProcFault>) -> OrMemory<KernelFault>
    ensures { result ≡ of_proc_error error }
{
    match error {
        OrMemory::Memory => OrMemory::Memory,
        OrMemory::Fault(fault) => OrMemory::Fault(fault.into()),
    }
}
