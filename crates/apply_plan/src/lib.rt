//! The hand-over (transition) from one plan to the next, write by write, so that no CPU is ever requested for two
//! containers that are to have it alone.
//!
//! A [`Handover`] keeps an [`Entry`] for each container with the CPUs that it is to have, and [`Handover::step`] makes
//! the one write that is due: containers first let go of what is not theirs any more, then take what is.
//! [`Handover::finish`] makes all of them.
//!
//! A [`DirectHandover`] comes to the same end in another order (make before break): a container takes its target at
//! once where no rival holds any of it, and gives way only where containers wait for each other in a ring.
//!
//! If nobody minds that containers share CPUs while they move, the new sets can be written in any order, and none
//! of this is needed. To keep containers and to plan for them too, use `node`, which calls this crate.
#![tactic(auto)]

mod cores;
mod direct;
mod direct_handover;
mod entry;
mod giving;
mod handover;
pub mod laws;
mod overview;
mod ring_marks;
mod rings;
mod scan;
mod taking;
mod walks;

pub use cores::Cores;
pub use direct_handover::DirectHandover;
pub use entry::Entry;
pub use giving::{Giving, allowed_at, blocks, gets, gives};
pub use handover::{Handover, Progress};
pub use overview::Overview;
pub use ring_marks::is_in_ring;
pub use rings::find_rings;
