//! The live processes of a modelled kernel: each has a pid, a group, and the first process that it belongs to.
//!
//! For the processes of a real host read `/proc`: this table is a model's.
//!
//! # Proved
//!
//! - A process that has ended keeps its place in the table until it is packed. It is an invariant of the table that at
//!   most half of the places are of ended processes, so what is kept follows what lives.
#![tactic(auto)]

mod fault;
pub mod laws;
mod processes;
mod slots;

pub use fault::ProcFault;
pub use processes::{ProcTable, Process};

/// The greatest pid; once it was given, no process can be made.
pub const LAST_PID: u32 = 4_194_303;
