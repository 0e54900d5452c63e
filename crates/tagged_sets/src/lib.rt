//! Sets of CPUs with tags, in memory that is linear in their ranges.
//!
//! A set of a few ranges takes a few bytes, however many CPUs there may be. One of many ranges, as where CPUs are
//! numbered in turn over the nodes, is kept as a set too, since it is copied faster than it is made of its ranges. A
//! contract sees [`TaggedSets`] as the list of the tags and the sets.
//!
//! For a handful of sets, pairs of a tag and an `IdSet` in a list are simpler.
//!
//! # Proved
//!
//! - `TaggedSets` is a list of sets with tags, to which sets are added (`push`), also by their ranges (`push_ranges`).
//!   Those of another list are added as they are (`push_from`) or less some CPUs (`push_without`). If an allocation
//!   fails nothing changes.
//! - It gives the tag, the set and the ranges of each, all CPUs in one of them (`all`), and a copy. A set that `wide`
//!   hands out is the one at its place. `is_same` says exactly whether two such lists are the same.
//! - How sets are kept no contract mentions.
#![tactic(auto)]

mod cuts;
mod tag;
mod tagged_sets;

pub use tag::Tag;
pub use tagged_sets::TaggedSets;
