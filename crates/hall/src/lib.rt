//! Hall's theorem for rows that ask for several CPUs each: laws over the definitions alone. Nothing here runs.
//!
//! To find a plan or a shortage use `transport`, and to make a shortage irreducible `blame`.
//!
//! # Proved
//!
//! - Rows have a plan, or some of them ask together for more CPUs than they may have.
#![tactic(auto)]

pub mod laws;
