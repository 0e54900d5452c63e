//! The few members of an OCI `config.json` that CPU pinning reads (those of the cpuset and the CPU quota).
//!
//! The rules are those of the OCI Runtime Specification 1.0.2, config.md and config-linux.md: `ociVersion`,
//! `root` and `root.path` are required, all of `linux.resources.cpu` is optional, and unknown properties
//! are ignored. The JSON itself is read by `serde_json`, the version by `semver`.
//!
//! For the other members of a config use a library with all of them, such as the crate oci-spec: this one skips
//! what it does not read.
#![tactic(auto)]

mod config;
mod cpu_section;
mod fault;
mod field;
pub mod laws;
mod lookup;
mod version;

pub use config::{Config, MAX_BYTES};
pub use cpu_section::CpuSection;
pub use fault::ConfigFault;
pub use field::Field;
