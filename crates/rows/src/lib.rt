//! What containers ask for as rows of a transportation problem: their demands, with the CPUs that they may get
//! now, by distance.
//!
//! Which CPUs a row offers, and what each of them weighs, is decided here and nowhere else.
//!
//! If a problem comes as text, `read_problem` of `certificate_text` makes its rows.
#![tactic(auto)]

mod cache;
mod chains;
pub mod laws;
mod offers;
mod parts;
mod row;

pub use cache::{CachedOffers, CachedParts};
pub use row::scaled_row_of;
