use crate::queue::Queue;
use crate::standing::Standing;
use std::alloc::{AllocError, Global};

/// Room to note whom to try next, and what one look tells of rings, so that a hand-over allocates nothing.
#[derive(Debug, Drop)]
pub struct Agenda {
    /// Whom to try next.
    pub(crate) queue: Queue,
    /// Room for who waits for whom.
    pub(crate) nexts: Vec<usize>,
    /// Room for who stands in a ring.
    pub(crate) marks: Vec<usize>,
    /// Room for how each one stood.
    pub(crate) standings: Vec<Standing>,
}

impl Agenda {
    /// Room for hand-overs of so many entries.
    ///
    /// # Errors
    /// An allocation failure.
    pub fn new(alloc: Global, entries: usize) -> Result<Agenda, AllocError> {
        Ok(Agenda {
            queue: Queue::new(alloc, entries)?,
            nexts: vec![in alloc; 0usize; entries]?,
            marks: vec![in alloc; 0usize; entries]?,
            standings: vec![in alloc; Standing::Moved; entries]?,
        })
    }
}
