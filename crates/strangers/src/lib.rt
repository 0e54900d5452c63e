//! A runtime beside strangers: folders of a run before that are no container's. No plan gives a CPU that one of them
//! holds to anybody.
//!
//! The CPUs of strangers count as not there for each line that plans or moves (`rebalance`, `begin`, `step`): they are
//! offline in the node as long as it is answered, and no longer. So all that a node says of CPUs that are offline holds
//! of them: no plan, pool, certificate or hand-over has them. At any other line the node's machine is the kernel's.
//!
//! For a host with nobody but the containers of the run use `runtime` alone.
//!
//! # Proved
//!
//! - A line that plans gives to nobody a CPU that a stranger holds, but for the reserved ones, which belong to no
//!   container. No set of its plan has one, nor has its pool (`plans` of `laws::plans_keep_off`). Nor does a live
//!   container request one behind a `rebalance` that answers a plan (`requests`).
//! - A stranger stays one, with all CPUs that it held, until a line lets go of its folder or asks for a container of
//!   its name (`stay`). If that line is refused it is one still (`Guards`).
//! - A rebalance leaves what the headline says, of the machine without these CPUs (`rebalances`). Behind it they are
//!   online, and what the containers request stays.
//! - A script beside strangers is a script over the runtime within. Each line stands for itself. One that plans or
//!   moves has a line `offline CPU` before it and `online CPU` behind it, of each CPU that is withheld. A `forget` of a
//!   stranger stands for none. The runtime answers these by just the texts that the script prints, and by `ok` for each
//!   CPU that goes or comes. So all laws of `runtime` on lines hold. The kernel is asked for just what the lines of the
//!   script stand for, line by line, in order (`laws::scripts_within`).
#![tactic(auto)]

mod away;
mod guarded;
pub mod laws;
mod mirrored;
mod names;

pub use guarded::Guarded;
pub use mirrored::run_mirrored;
