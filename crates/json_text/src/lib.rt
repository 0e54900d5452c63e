//! JSON text as a value, and the members of its objects: what the readers of JSON files share.
//!
//! The text is read by `serde_json`. Contracts name the value by that crate's own reading of the bytes.
//!
//! For JSON of any shape use `serde_json` itself.
#![tactic(auto)]

mod flaw;
mod lookup;
mod parsing;

pub use flaw::{Flaw, FlawKind, flaw_in};
pub use lookup::{inner, member};
pub use parsing::parse;
