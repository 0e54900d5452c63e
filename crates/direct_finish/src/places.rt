use std::alloc::{AllocError, Global};

/// Places of entries, in the order in which they came. There is room for so many; more are dropped.
#[derive(Debug, Drop)]
pub struct Places {
    items: Vec<usize>,
    count: usize,
}

impl Places {
    /// No places, and room for so many.
    ///
    /// # Errors
    /// An allocation failure.
    pub fn with_room(alloc: Global, room: usize) -> Result<Places, AllocError> {
        Ok(Places {
            items: vec![in alloc; 0usize; room]?,
            count: 0,
        })
    }

    /// Drops all.
    pub fn clear(&mut self) {
        self.count = 0;
    }

    /// Adds a place behind the others, if there is room.
    pub fn add(&mut self, place: usize) {
        let at = self.count;
        if at < self.items.len() {
            self.items[at] = place;
            self.count = at + 1;
        }
    }

    /// Takes the last place.
    pub fn take_last(&mut self) -> Option<usize> {
        if self.count == 0 {
            return None;
        }
        self.count -= 1;
        self.items.get(self.count).copied()
    }

    /// The place that came in this turn.
    pub fn get(&self, turn: usize) -> Option<usize> {
        if turn < self.count {
            self.items.get(turn).copied()
        } else {
            None
        }
    }
}
