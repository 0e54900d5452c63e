//! One NUMA machine as its owner describes it: which CPUs each of its nodes has, how far the nodes are from one
//! another, which CPUs are reserved, which are online when it boots, and which are hyperthreads (SMT siblings) of one
//! core.
//!
//! Cores all have one number of CPUs, each within a node, and a core is named by its lowest CPU. If a machine file
//! lists none, each CPU is a core of its own.
//!
//! Distances are the relative ones of ACPI's System Locality Information Table: 10 from a node to itself,
//! 10 to 255 to another, where 255 says that it can't be reached. The two ways may differ.
//!
//! For distances alone use `slit`, and for sets of CPUs alone `cpu_set` and `cpu_list`.
#![tactic(auto)]

mod boot;
mod cores;
mod fault;
mod field;
mod index;
pub mod laws;
mod lookup;
mod machine;
mod node_sets;
mod reading;
mod table;
mod weights;
mod whole_cores;

pub use fault::MachineFault;
pub use field::Field;
pub use machine::Machine;
pub use slit::{LOCAL, UNREACHABLE};

/// The most nodes that a machine may have: as many as a firmware table may have localities.
pub const NODE_LIMIT: usize = slit::MAX_LOCALITIES;

/// The most bytes that a machine file may have.
pub const MAX_BYTES: usize = 1_048_576;
