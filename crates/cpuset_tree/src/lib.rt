//! The groups of a modelled kernel, each with the CPUs and memory nodes that it requests and those that it
//! has in effect, as the kernel's cgroup-v2 page tells of `cpuset.cpus`, `cpuset.cpus.effective`,
//! `cpuset.mems` and `cpuset.mems.effective`.
//!
//! For a kernel with processes, and with CPUs that go offline, use `kernel_model`, which keeps such a tree.
//!
//! # Proved
//!
//! - Effective sets are those of the recursion up the path, after any list of calls. The tree keeps them, so that a
//!   read lends one at any depth; a write works out anew only those that it may change.
#![tactic(auto)]

mod fault;
mod groups;
pub mod laws;
mod marks;
mod one_cpu;
mod refresh;
mod tree;

pub use fault::TreeFault;
pub use groups::Group;
pub use tree::Tree;

/// Each serial is below this one, which is never given.
pub const SERIAL_LIMIT: u64 = u64::MAX;
