//! Tests that run several crates together, and the conditions that they see to.
//!
//! No part of the product. What one crate does alone is tested beside it.
#![tactic(auto)]

#[cfg(test)]
mod calls;
mod conditions;
#[cfg(test)]
mod hand_over;
#[cfg(test)]
mod plain_lists;
mod requirements;
#[cfg(test)]
mod wide_offers;

pub use conditions::{finish, handover, step, step_out};
pub use requirements::{are_placed, may_begin};
