//! What the crates above share: the words with which definitions say which of several faults decides, the
//! first in a written order, and the error of a call that may meet an allocation failure.
//!
//! The readers' definitions are lists of checks made of these words, and the laws below say in plain
//! terms what the word for a loop of checks means.
//!
//! A reader that refuses for one cause alone needs none of these words.
#![tactic(auto)]

mod or_memory;
mod title;

ghost use Rattle.faults.specs.FirstLaws.{NoneWhereNone, LeastDecides, AlikeDecideAlike};

pub use or_memory::{Fault, OrMemory};
pub use title::memory_title;

/// The laws of the first fault below a bound, for faults of any type `F`. If no number below the bound has one, there
/// is none. Else the least number that has one decides. Checks that agree below the bound have the same first fault
/// there.
pub fn least_decides<F>()
    ensures none { NoneWhereNone F }
    ensures least { LeastDecides F }
    ensures alike { AlikeDecideAlike F }
{}
