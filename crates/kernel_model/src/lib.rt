//! The modelled kernel (cgroup v2 cpusets): groups, processes and CPUs in memory, and the trait [`Kernel`] that says
//! what each call of a kernel returns and changes.
//!
//! If the writes are to reach a real cgroup tree use `cgroup_tree`, a kernel over this one.
//!
//! # Proved
//!
//! - Each call of the trait `Kernel` is one case of a written meaning. It says what the call answers, in which order it
//!   refuses, and what it changes.
//! - `ModelKernel` meets the trait, and no write of it fails (`never_fails`).
//! - Each writing call is told in a list, with what it answered, and no other call is (`TellsEachWrite`). The model
//!   keeps that list as ghost data; nothing of it runs.
//! - The list binds code that is generic over `Kernel`, such as `apply_plan` and `node`. Such code gets a list with one
//!   call more from that writing call alone. Of the body of a single kernel it says nothing.
//! - The laws prove what each call leaves whatever it answers. They prove when nothing stands against it, and what does
//!   if it is refused. Over any list of calls no pid and no serial is given twice, and every process is in a group that
//!   is there.
#![tactic(auto)]

mod call;
mod fault;
mod kernel;
pub mod laws;
mod model_kernel;
mod trace;

pub use call::{Call, Reply};
pub use cpuset_tree::Group;
pub use fault::KernelFault;
pub use kernel::{Kernel, requested};
pub use model_kernel::ModelKernel;
pub use proctable::LAST_PID;
pub use trace::{CallMade, Trace};
