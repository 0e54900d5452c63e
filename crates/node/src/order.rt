/// In which order a hand-over makes its writes.
#[derive(Clone, Copy, Debug, PartialEq, Eq)]
pub enum Order {
    /// All containers let go of what is not theirs any more, and then each takes what is (break before make).
    InTurn,
    /// Each takes its CPUs as soon as no rival holds any of them, and gives way only in a ring (make before break).
    Directly,
}
