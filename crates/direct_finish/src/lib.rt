//! All writes of a direct hand-over at once: what single steps would come to, with a few looks at all entries in place
//! of one for each write.
//!
//! [`finish_directly`] gives each container its target as soon as no rival can hold any of it. It knows that by what
//! those hold together that are yet to let go, which it keeps up to date from write to write.
//!
//! Where containers wait for each other in rings, one look at all of them notes who stands in one, and who can step
//! aside. Ring after ring is broken by that look, as long as it still tells which write is due. Only where it tells
//! nothing is a single step of [`DirectHandover`](apply_plan::DirectHandover) taken.
//!
//! To see or to stop a hand-over between its writes, take single steps.
//!
//! # Proved
//!
//! - Each write is one by which a container takes its target, of which no rival holds any, or the one that a single
//!   step makes. So what is safe stays safe after each, and none is squeezed onto the reserved CPUs but who is stuck in
//!   a ring.
//! - At the end each live container has its target. At most two writes for each entry are made.
//! - How many looks it takes is not proved: whom to try next is left to an [`Agenda`], which nothing rests on.
#![tactic(auto)]

mod agenda;
mod befores;
mod bounds;
mod calm;
mod finish;
pub mod laws;
mod look;
mod places;
mod queue;
mod rings;
mod settle;
mod sight;
mod since;
mod standing;
mod take;
mod wanted;

pub use agenda::Agenda;
pub use finish::finish_directly;
