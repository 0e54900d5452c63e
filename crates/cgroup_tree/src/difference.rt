//! How a file of a root differs from what it has to have.
use cpu_set::IdSet;

/// By what a file of a root differs from what it has to have.
#[derive(Clone, Copy)]
pub enum Difference<'a> {
    /// It lacks these numbers.
    Lacks(&'a IdSet),
    /// It has these besides.
    HasBesides(&'a IdSet),
    /// It is no list of numbers below [`CPU_LIMIT`](cpu_set::CPU_LIMIT).
    NoList,
    /// It has this text.
    Holds(&'a [u8]),
    /// There is no such file.
    Absent,
}
