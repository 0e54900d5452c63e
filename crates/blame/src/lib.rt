//! Shortages that name only those to blame: if any one member is left out, the other members have a plan.
//!
//! [`shrink`] makes such a shortage of another one. In the field's words it is an irreducible infeasible subset, here a
//! minimal Hall violator. If any shortage will do, take that of `transport`; to have a problem solved call `solution`.
//!
//! # Proved
//!
//! - `shrink` is for rows within the limits of a check. Its only refusal is an allocation failure.
#![tactic(auto)]

mod counting;
mod lowering;
mod marking;
mod owners;
mod part;
mod shrinking;

pub use shrinking::shrink;
