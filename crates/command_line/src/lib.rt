//! The words that numarun is called with, and what they ask for.
//!
//! [`parse`] takes them apart by a [`Grammar`], which is [`CommandLine`] in the program: clap's rules and one beside
//! them. What the words ask for is done by `cli`. A script's lines are words of their own, which `script` reads.
//!
//! # Proved
//!
//! - The laws `check_spellings` and so on are plain spellings of each command, each with what it asks for and without a
//!   mistake.
#![tactic(auto)]

mod command_line;
mod shown;
mod spellings;
mod words;

pub use command_line::CommandLine;
pub use spellings::{
    check_spellings, list_spellings, run_spellings, slit_spellings, solve_spellings,
};
pub use words::{Grammar, Words, parse};
