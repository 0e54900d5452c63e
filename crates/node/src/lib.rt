//! Containers on one NUMA host: their lifecycle (OCI Runtime Specification 1.0.2, runtime.md), and optimal plans
//! that give them exclusive CPUs, over a kernel that pins them.
//!
//! For a plan without containers that run use `solution`, and for commands as text use `runtime`.
//!
//! # Proved
//!
//! - The state of a node is a plain value, and each call is one relation by cases on what it answers.
//! - A failure of the kernel is answered exactly if its count of failures rose by one (`counted`).
//! - `fork`, `exit`, `offline` and `online_cpu` are the kernel's cases. `pool` and `phase` are told as they are.
#![tactic(auto)]

mod container;
mod containers;
mod course;
mod create;
mod events;
mod fault;
mod free_cpus;
mod launch;
pub mod laws;
mod lifecycle;
mod list;
mod named;
mod node;
mod ongoing;
mod opening;
mod order;
mod outcome;
mod phase;
mod places;
mod planning;
mod problem;
mod sets;
mod state;
mod stepping;
mod update;

pub use apply_plan::Progress;
pub use container::Status;
pub use fault::NodeFault;
pub use list::Listing;
pub use named::Named;
pub use node::{GROUP_NAME, Node, NotOpened};
pub use order::Order;
pub use outcome::Outcome;
pub use phase::Phase;
pub use sets::Sets;

/// How many containers there may be, stopped ones included.
pub const CONTAINER_LIMIT: usize = 1_024;
