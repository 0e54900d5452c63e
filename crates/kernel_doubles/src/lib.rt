//! Test doubles of a kernel (fault injection): one of which a chosen write fails, and lists of calls that are made of
//! any. Only the crates `tools` and `scenarios` use them, so the program's first build proves none of this.
//!
//! For a kernel that does what it is asked use `kernel_model`, and for one whose writes reach a cgroup tree
//! `cgroup_tree`.
//!
//! # Proved
//!
//! - `FusedKernel` meets the trait `Kernel`. It makes its nth write fail, told by the count of writes, and else answers
//!   as the kernel within. The write that failed is told as the others are.
//! - What a list of calls answers and leaves is what their cases do, taken in order. It is proved once for any kernel.
#![tactic(auto)]

mod calls;
mod fused_kernel;
pub mod laws;

pub use calls::{make_call, make_calls};
pub use fused_kernel::{Fuse, FusedKernel};
