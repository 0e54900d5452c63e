use std::alloc::{AllocError, AllocFailed};

/// What a call is refused for; `?` makes an [`OrMemory`] of it.
pub trait Fault {}

/// Why a call was refused: for a fault, or since an allocation for what it was to make failed.
#[derive(Clone, Copy, Debug, PartialEq, Eq, Drop)]
pub enum OrMemory<F> {
    /// E1: an allocation failed.
    Memory,
    /// The first fault in the order of the call's checks, or a write that failed.
    Fault(F),
}

impl<F: Fault> From<F> for OrMemory<F> {
    ghost use Rattle.std.specs.Prelude.{◌≡◌};
    ghost use Rattle.faults.specs.declared.or_memory.OrMemory.TheVariants.{Fault};

    ghost from_gives = { λ fault e. e ≡ Fault fault };

    fn from(fault: F) -> OrMemory<F> {
        OrMemory::Fault(fault)
    }
}

impl<F> From<AllocError> for OrMemory<F> {
    ghost use Rattle.std.specs.Prelude.{◌≡◌};
    ghost use Rattle.faults.specs.declared.or_memory.OrMemory.TheVariants.{Memory};

    ghost from_gives = { λ _ e. e ≡ Memory };

    fn from(_: AllocError) -> OrMemory<F> {
        OrMemory::Memory
    }
}

impl<F, T: Drop> From<AllocFailed<T>> for OrMemory<F> {
    ghost use Rattle.std.specs.Prelude.{◌≡◌};
    ghost use Rattle.faults.specs.declared.or_memory.OrMemory.TheVariants.{Memory};

    ghost from_gives = { λ _ e. e ≡ Memory };

    fn from(_: AllocFailed<T>) -> OrMemory<F> {
        OrMemory::Memory
    }
}
