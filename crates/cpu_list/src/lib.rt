//! Sets of CPU or node numbers as text, as cpuset(7) writes them under List Format: `0-2,7`.
//!
//! For sets that are never text use `cpu_set` alone.
#![tactic(auto)]

mod fault;
mod item;
pub mod laws;
mod printing;
mod reading;
mod rising;
mod writing;

pub use fault::{ListError, ListErrorKind};
pub use printing::print;
pub use reading::read;
pub use rising::read_rising;
pub use writing::{add_list, add_ranges, write_list};
