//! Scripts.

use crate::chance::Chance;
use std::alloc::{AllocError, Global};

/// A script, and the containers that are alive at its end.
#[derive(Drop)]
pub struct Script {
    alloc: Global,
    pub text: String,
    // The number of each live container's id, and that of its bundle.
    live: Vec<(u32, u32)>,
    next: u32,
}

impl Script {
    pub fn new(alloc: Global) -> Script {
        Script {
            alloc,
            text: String::new(alloc),
            live: Vec::new(alloc),
            next: 0,
        }
    }

    /// Adds a line.
    pub fn say(&mut self, line: &str) -> Result<(), AllocError> {
        self.text.push_str(line)?;
        self.text.push_str("\n")
    }

    /// Adds a line of a word and a number.
    pub fn ask(&mut self, word: &str, number: u32) -> Result<(), AllocError> {
        let line = format!(in self.alloc; "{word} {number}")?;
        self.say(line.as_str())
    }

    /// Creates a container of this bundle.
    pub fn create(&mut self, bundle: u32) -> Result<(), AllocError> {
        let id = self.next;
        self.next = id.wrapping_add(1);
        let line = format!(in self.alloc; "create c{id} b{bundle}")?;
        self.say(line.as_str())?;
        self.live.push((id, bundle))?;
        Ok(())
    }

    /// Creates containers of these bundles.
    pub fn create_all(&mut self, from: u32, to: u32) -> Result<(), AllocError> {
        for bundle in from..to {
            self.create(bundle)?;
        }
        Ok(())
    }

    /// The place of a live container by chance, and its id and bundle.
    fn some(&self, chance: &mut Chance) -> (usize, u32, u32) {
        let place = chance.below(u32::try_from(self.live.len()).unwrap_or(0)) as usize;
        match self.live.get(place) {
            Some((id, bundle)) => (place, *id, *bundle),
            None => (place, 0, 0),
        }
    }

    /// One container ends and goes, and another one comes of the same bundle.
    pub fn replace(&mut self, chance: &mut Chance) -> Result<(), AllocError> {
        let (place, id, bundle) = self.some(chance);
        let line = format!(in self.alloc; "kill c{id} 9\ndelete c{id}")?;
        self.say(line.as_str())?;
        if place < self.live.len() {
            self.live.remove(place);
        }
        self.create(bundle)
    }

    /// A CPU goes offline, the sets of some container are asked for, and the CPU comes online again.
    pub fn lose(&mut self, chance: &mut Chance, cpus: u32) -> Result<(), AllocError> {
        let cpu = chance.below(cpus.saturating_sub(1)).saturating_add(1);
        let (_, id, _) = self.some(chance);
        let line = format!(in self.alloc; "offline {cpu}\nsets c{id}\nonline {cpu}\nsets c{id}")?;
        self.say(line.as_str())
    }
}
