//! The commands that read one input and print one answer: `check`, `list`, `slit` and `solve`; and what each command
//! prints by: the two streams, and the note beside a refusal.
//!
//! For the certificates, problems and tables themselves call `certificate_text`, `solution` and `slit`. To do what a
//! command line asks for call `cli`.
//!
//! # Proved
//!
//! - If the status is not the answer's, it is 1, and what was taken of the answer is a prefix of it. Standard error's
//!   page has then taken the line that says so, whole if it has room for it, as an empty page has.
//! - What an input's opening and reading may answer is a relation of the trait that it comes by (`Opens`, `Source`,
//!   `Input`). The contracts take that relation as it is. So a body can't tell a fault that the opening or the reading
//!   did not answer.
#![tactic(auto)]

mod answer;
mod check;
mod console;
mod distances;
mod list;
mod note;
mod opens;
mod printed;
mod solve;

pub use answer::{Answer, answer_in};
pub use check::{check_named, do_check};
pub use console::{Console, MISUSED, REFUSED, UNWRITTEN, print_then_note};
pub use distances::{do_slit, slit_named};
pub use list::do_list;
pub use note::{Note, STANDARD_INPUT};
pub use opens::{Disk, NamedFile, Opens};
pub use printed::Printed;
pub use solve::{do_solve, solve_named};
