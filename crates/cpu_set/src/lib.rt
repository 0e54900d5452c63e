//! A set of CPU or NUMA node numbers, as a cpuset has them, and its algebra.
//!
//! A contract sees an [`IdSet`] as a finite set of numbers, and each call as the set operation of its name.
//! No call allocates.
//!
//! For numbers with no such limit, or sets that are mostly empty, use `BTreeSet` of the standard library.
//!
//! # Proved
//!
//! - Each call of `IdSet` is the set operation of its name, on finite sets of numbers below `CPU_LIMIT`.
//! - A set is kept as words of 64 bits that are combined in lanes. No contract mentions that.
//! - Each call of `Spanned`, a set that many others are compared with, is the set operation of its name.
//! - Each call of `WordSet`, some of the 64 numbers from a multiple of 64 on, says by its members what it makes.
#![tactic(auto)]

mod id_set;
pub mod laws;
mod ranges;
mod spanned;
mod word;
mod word_set;

pub use id_set::IdSet;
pub use ranges::Ranges;
pub use spanned::Spanned;
pub use word_set::WordSet;

/// CPU numbers are below this limit, and so are all numbers in a set.
pub const CPU_LIMIT: u16 = 4_096;
