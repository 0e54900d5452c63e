//! Bytes and numbers to a writer, where an error has to tell how far they came.
//!
//! If an error need not tell how far it came, use `write_all` of `std::io::Write`.
//!
//! # Proved
//!
//! - After a fault a prefix of what was to be written went out, and not all.
#![tactic(auto)]

mod buffer;
mod output;

pub use buffer::Buffer;
pub use output::{put, put_all, put_argument, put_number, put_word};
