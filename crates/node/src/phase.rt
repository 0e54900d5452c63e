ghost use Rattle.std.specs.Prelude.{◌≡◌};

/// How far the last hand-over from one plan to the next has come.
#[derive(Clone, Copy, Debug, PartialEq, Eq)]
pub enum Phase {
    /// It ended, or there was none.
    Settled,
    /// It is open.
    Underway,
    /// A write of it failed.
    Unsettled,
}

impl Phase {
    ghost use Rattle.node.specs.NodeState.{is_underway};

    /// Whether a hand-over is open.
    pub(crate) fn is_underway(self) -> bool
        ensures { result ≡ is_underway self }
    {
        matches!(self, Phase::Underway)
    }
}
