ghost use Rattle.std.specs.Prelude.{◌≡◌, ◌↔◌, IsTrue};

/// What a set may be tagged with.
pub trait Tag: Copy {
    /// Whether it is this one.
    fn is(self, other: Self) -> bool
        ensures { IsTrue result ↔ (self ≡ other) };
}

impl Tag for u32 {
    fn is(self, other: u32) -> bool {
        self == other
    }
}

impl Tag for u64 {
    fn is(self, other: u64) -> bool {
        self == other
    }
}
