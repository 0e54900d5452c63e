//! Certificates as text, line by line: [`read_text`] reads one, [`check`] checks it, and [`check_text`] does both.
//! Problems as text: [`read_problem`].
//!
//! The grammar is in [`read_text`]'s words; certificates and [`check`] are the crate `certificate`'s, and passed on
//! here.
//!
//! To check a certificate that is a value already, `certificate` is enough.
#![tactic(auto)]

mod bad_line;
mod checking;
mod decimal;
mod draft;
mod held;
mod id;
pub mod laws;
mod line;
mod line_words;
mod list_word;
mod offer;
mod problems;
mod reading;
mod split_once;
mod stage;
mod word_pairs;
mod writing;

pub use certificate::{Certificate, Members, Verdict, Weights, check};
pub use checking::{VerdictFault, check_text};
pub use id::{ID_LIMIT, is_id};
pub use problems::read_problem;
pub use reading::{BadText, read_text};
pub use writing::write_text;
