//! A second way to a plan of least cost, for problems on which the proved method takes long: weights that multiply, as
//! those of (row + 1) × (CPU + 1).
//!
//! This is the network simplex method (Dantzig, 1951) on the transportation problem of rows and classes of twins, with
//! strongly feasible trees (Cunningham, 1976) and a block search for the entering arc. Nothing is proved of the method:
//! what it comes to is checked, and a plan that does not pass is not handed out. So a mistake in it costs time, and no
//! answer.
//!
//! The root gives each class the CPUs that no row holds, at weight 0. It takes what a row lacks, at a weight that no
//! plan pays. A row's value and a class's price are how far their potentials are below the root's.
//!
//! To have a problem solved call `solution`: it begins with `transport`, which is sooner done with most problems,
//! and comes here if that takes long.
//!
//! # Proved
//!
//! - All of this is for rows within the limits. The only refusal is an allocation failure.
#![tactic(auto)]

mod arcs;
mod draft;
mod entering;
mod pivots;
mod proposal;
mod room;
mod tree;

pub use proposal::{Proposal, propose};
