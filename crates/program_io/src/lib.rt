//! What the program reads and writes: inputs that are read whole, why one is refused, and pages of output.
//!
//! A program that may just end at its first fault needs no more than `std::io`.
//!
//! # Proved
//!
//! - A fault of a reader below is told as the refusal made of it (`From`).
//! - A `Page` passes on what it was given, in order and whole.
//! - The kind told of a failed read need not be the kind by which the reader failed, by any clause: only the reader
//!   knows it. For an opening a clause says it (`Opens::fails`).
//! - `read_whole` of a reader is `read_all` as a relation (`IsReadingOf`). An allocation failure is no answer to no
//!   bytes.
#![tactic(auto)]

mod fault;
mod input;
pub mod laws;
mod output;
mod page;
mod reading;
mod refusal;

pub use fault::ReadFault;
pub use input::{Input, Opened, Source};
pub use output::{put_error_at, put_error_line, put_number_line};
pub use page::Page;
pub use reading::{MOST_BYTES, MOST_READS, read_all};
pub use refusal::Refusal;
