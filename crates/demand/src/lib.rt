//! What one container asks for: how many exclusive CPUs, which of them it may get, and where its home is,
//! the NUMA nodes of its memory.
//!
//! The numbers come from `linux.resources.cpu` of its config (OCI Runtime Specification 1.0.2,
//! config-linux.md, "CPU") and from the machine. No call allocates.
//!
//! For what several containers ask for together, less the CPUs that they can't have now, use `rows`.
#![tactic(auto)]

mod allowed;
mod demand;
mod fault;
pub mod laws;
mod lists;
mod quota;

pub use demand::{Demand, Kind};
pub use fault::DemandFault;
pub use quota::DEFAULT_PERIOD;
