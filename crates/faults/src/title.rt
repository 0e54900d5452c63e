//! How an allocation failure is called in the line of a refusal.
ghost use Rattle.std.specs.Prelude.{◌≡◌};
ghost use Rattle.faults.specs.FaultTitle.{memory_title};

/// The number and the name that the line of a refusal for an allocation failure has.
pub fn memory_title() -> &'static str
    ensures { result.now ≡ memory_title }
{
    "E1 Memory"
}
