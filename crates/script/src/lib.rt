//! Scripts: lines of commands, and the run of one over whatever answers commands.
//!
//! This crate knows no containers: `runtime` has the answers of numarun's commands.
//!
//! # Proved
//!
//! - A run's contract says what was written for what was read, whatever pieces the bytes come in (`EndsBy`). Each line
//!   is answered by the target's text for the command that it spells, or by E110 or E112. A line with no word has no
//!   answer. The target goes from answer to answer.
//! - If a read fails, or as many reads as are made have not come to the end, this holds of all lines that ended.
//! - 'Too many reads' comes only if the script had at least as many bytes as there were reads, and no more than these
//!   can bring. 'A read failed', 'the script ended' and 'a write failed' come only within the bound on reads.
//! - If a write fails, the answers to all lines before one went out whole, and a prefix of the answer to that one. The
//!   target is as after that line. It is the unfinished line only if the script ended there.
#![tactic(auto)]

mod command;
mod fault;
pub mod laws;
mod line_buffer;
mod number;
mod request;
mod running;
mod target;
mod word;

pub use command::{Command, Request};
pub use fault::ScriptFault;
pub use line_buffer::MOST_LINE_BYTES;
pub use request::read_request;
pub use running::{MOST_READS, run_script, run_script_within};
pub use target::Target;
