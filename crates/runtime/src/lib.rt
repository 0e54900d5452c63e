//! A container runtime that answers the commands of a script: containers on one machine, made of bundles.
//!
//! To call a node without commands as text use `node`.
//!
//! # Proved
//!
//! - A `Runner` is a target of scripts. Each command is answered by the text of what the node's own call answers, and
//!   changes what that call changes. `Answered` has an arm for each command.
//! - `create` looks its bundle up before anything else. It calls the node with the bytes that were found of that
//!   bundle. They are those of its config, if configs are told. Else they are what a look at the bundle of this name
//!   may find (`AnsweredBy`, by a relation of the trait `Bundles`). It makes no call if there is no such bundle, or an
//!   allocation for its config failed. Refused by the kernel it makes at most as many writing calls as one that is
//!   done.
//! - `adopt` and `update` look their bundles up as `create` does. `adopt` then reads its list of CPUs, and makes no
//!   call if that is no list or names none (`NamesCpus`).
//! - A refusal is one line, `refusal_line`. A plan or a shortage is `outcome_text`. A certificate is the text that
//!   `certificate_text` writes.
#![tactic(auto)]

mod adopting;
mod answers;
mod booting;
mod bundle_list;
mod bundles;
mod commands;
mod events;
pub mod laws;
mod mirrored;
mod outcomes;
mod plans;
mod queries;
mod refusal;
mod refused_config;
mod runner;
mod updating;

pub use booting::{FIRST_PID, NotBooted, boot, boot_mirrored};
pub use bundle_list::BundleList;
pub use bundles::Bundles;
pub use mirrored::{files_of, is_mirrored};
pub use refusal::Refusal;
pub use runner::Runner;
