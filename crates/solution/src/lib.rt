//! Problems solved: [`decide`] makes the certificate of what the rows of a problem come to, and [`solve_text`] reads a
//! problem from its text and does so.
//!
//! To check a certificate use `certificate`, which knows no solver.
//!
//! # Proved
//!
//! - `decide` is for rows within the limits that can be written. Its only refusal is an allocation failure.
#![tactic(auto)]

mod blaming;
mod deciding;
mod quick;
mod solution;
mod solving;

pub use deciding::decide;
pub use solution::Solution;
pub use solving::solve_text;
