//! Whom to try next. It decides how soon a hand-over is over, and nothing else: each is looked at before it is written.
ghost use Rattle.apply_plan.specs.Targets.{ArePlaced};

use crate::places::Places;
use crate::standing::{Standing, is_beside};
use apply_plan::Entry;
use cpu_set::{CPU_LIMIT, IdSet};
use kernel_model::{Kernel, requested};
use std::alloc::{AllocError, Global};

/// What stands at a CPU for which nobody asked.
const NOBODY: usize = 0;

/// Whom to try next.
#[derive(Debug, Drop)]
pub struct Queue {
    /// Those that are yet to let go, in order, and how many of them were tried.
    movers: Places,
    tried_movers: usize,
    /// Those that only grow, in order, and how many of them were tried.
    growers: Places,
    tried_growers: usize,
    /// For each CPU a number for the pinned one that asked for it last: targets of pinned ones are apart. Its place is
    /// how far that is above `base`. What is below was asked before all was forgotten.
    asked_by: Vec<usize>,
    base: usize,
    /// Whether anybody asked since.
    is_asked: bool,
    /// How many entries there are.
    count: usize,
    /// Whether those that only grow asked too, as they do while rings are broken.
    all_asked: bool,
    /// Those who asked for what was let go of since.
    freed: Places,
    /// How many of those that are yet to let go are left.
    left: usize,
    /// Whether a shared one let go: what the others held together is not known exactly then.
    blurred: bool,
    /// Online CPUs that nobody holds, once they are asked for.
    spare: Option<IdSet>,
    /// The place of one that was squeezed in a ring, and not tried since.
    squeezed: Option<usize>,
    /// What those that must give way could need as places, once it was put together.
    wanted: Option<IdSet>,
}

/// The online CPUs outside the reserved ones that no live container holds.
fn spare_cpus<K: Kernel>(kernel: &K, reserved: &IdSet, entries: &[Entry]) -> IdSet
    requires { ArePlaced (K.state kernel.now) entries.now }
{
    let mut spare = kernel.online().minus(reserved);
    for entry in entries {
        if kernel.first_alive(entry.pid) {
            spare = spare.minus(requested(kernel, entry.group));
        }
    }
    spare
}

impl Queue {
    /// Room for hand-overs of so many entries.
    ///
    /// # Errors
    /// An allocation failure.
    pub fn new(alloc: Global, entries: usize) -> Result<Queue, AllocError> {
        Ok(Queue {
            movers: Places::with_room(alloc, entries)?,
            tried_movers: 0,
            growers: Places::with_room(alloc, entries)?,
            tried_growers: 0,
            asked_by: vec![in alloc; NOBODY; CPU_LIMIT as usize]?,
            base: NOBODY + 1,
            is_asked: false,
            count: 0,
            all_asked: false,
            freed: Places::with_room(alloc, entries)?,
            left: 0,
            blurred: false,
            spare: None,
            squeezed: None,
            wanted: None,
        })
    }

    /// Whether some are left that are yet to let go.
    pub(crate) fn has_movers(&self) -> bool {
        self.left > 0
    }

    /// Nobody is to be tried.
    ///
    /// Who asked before may have given way since, and would take its target back though others need its CPUs as places.
    pub(crate) fn clear(&mut self, count: usize) {
        self.base = self.base.saturating_add(self.count);
        self.count = count;
        self.is_asked = false;
        self.all_asked = false;
        self.movers.clear();
        self.tried_movers = 0;
        self.growers.clear();
        self.tried_growers = 0;
        self.freed.clear();
        self.left = 0;
        self.blurred = false;
        self.spare = None;
        self.squeezed = None;
    }

    /// One that is yet to let go is to be tried in its turn.
    pub(crate) fn add_mover(&mut self, place: usize) {
        self.movers.add(place);
        self.left = self.left.saturating_add(1);
    }

    /// One that only grows is to be tried in its turn.
    pub(crate) fn add_grower(&mut self, place: usize) {
        self.growers.add(place);
    }

    /// Notes that the entry at this place asks for the CPUs.
    fn ask(&mut self, place: usize, cpus: &IdSet) {
        self.is_asked = true;
        self.note_asker(self.base.saturating_add(place), cpus);
    }

    /// Nobody asks for the CPUs any more.
    fn forget(&mut self, cpus: &IdSet) {
        self.note_asker(NOBODY, cpus);
    }

    /// Puts a number at each of the CPUs.
    fn note_asker(&mut self, number: usize, cpus: &IdSet) {
        let mut next = cpus.first();
        while let Some(cpu) = next {
            if let Some(asker) = self.asked_by.get_mut(cpu as usize) {
                *asker = number;
            }
            next = cpus.next_after(cpu);
        }
    }

    /// The place of the one that asked for a CPU.
    fn asker(&self, cpu: u16) -> Option<usize> {
        let number = self.asked_by.get(cpu as usize).copied()?;
        number.checked_sub(self.base)
    }

    /// Those who asked for what one had and has no more are to be tried at once.
    fn let_go(&mut self, held: &IdSet, cpus: &IdSet) {
        if self.is_asked {
            self.free(&held.minus(cpus));
        }
    }

    /// Those who asked for the CPUs are to be tried at once.
    fn free(&mut self, cpus: &IdSet) {
        let mut next = cpus.first();
        while let Some(cpu) = next {
            if let Some(place) = self.asker(cpu) {
                self.freed.add(place);
            }
            next = cpus.next_after(cpu);
        }
    }

    /// An entry that held these CPUs took its target.
    pub(crate) fn note_taken(&mut self, entry: &Entry, held: &IdSet) {
        if self.all_asked {
            self.let_go(held, &entry.target);
        } else if let Some(spare) = self.spare {
            self.spare = Some(spare.minus(&entry.target));
        } else if self.left > 0 {
            self.left -= 1;
            self.blurred = self.blurred || !entry.pinned;
            self.let_go(held, &entry.target);
        }
    }

    /// Whether one that only grows may be tried. While others may wait in rings, a shared one is not, nor one whose
    /// target has all spare CPUs, which may be somebody's places.
    fn may_grow(&self, entry: &Entry) -> bool {
        match self.spare {
            Some(spare) => entry.pinned && !spare.is_subset(&entry.target),
            None => true,
        }
    }

    /// The place of the next one that is yet to let go.
    fn next_mover(&mut self) -> Option<usize> {
        let place = self.movers.get(self.tried_movers)?;
        self.tried_movers = self.tried_movers.saturating_add(1);
        Some(place)
    }

    /// The place of the last one that was tried of those that are yet to let go.
    fn last_mover(&self) -> Option<usize> {
        self.movers.get(self.tried_movers.checked_sub(1)?)
    }

    /// One was tried. If it is yet to let go and did not get its target, it is to be tried again when a CPU of that is
    /// let go of, where it is pinned.
    pub(crate) fn note_tried(&mut self, took: bool, place: usize, entries: &[Entry]) {
        if took || place >= entries.len() || self.last_mover() != Some(place) {
            return;
        }
        let entry = &entries[place];
        if entry.pinned {
            self.ask(place, &entry.target);
        }
    }

    /// The place of the next one that only grows, and may.
    fn next_grower(&mut self, entries: &[Entry]) -> Option<usize> {
        for _turn in 0..entries.len() {
            let place = self.growers.get(self.tried_growers)?;
            self.tried_growers = self.tried_growers.saturating_add(1);
            if place < entries.len() && self.may_grow(&entries[place]) {
                return Some(place);
            }
        }
        None
    }

    /// The place of the next one to be tried: of those who asked for what was let go of, else of those that are yet to
    /// let go, else of those that only grow.
    pub(crate) fn next_place<K: Kernel>(
        &mut self,
        kernel: &K,
        reserved: &IdSet,
        entries: &[Entry],
    ) -> Option<usize>
        requires { ArePlaced (K.state kernel.now) entries.now }
    {
        if let Some(place) = self.freed.take_last() {
            return Some(place);
        }
        if let Some(place) = self.next_mover() {
            return Some(place);
        }
        if self.left > 0 && self.blurred {
            return None;
        }
        if self.left > 0 && self.spare.is_none() {
            self.spare = Some(spare_cpus(kernel, reserved, entries));
        }
        self.next_grower(entries)
    }

    /// Rings are broken from now on: whoever waits for CPUs is to be tried when they are let go of, also one that only
    /// grows. One whose target nobody holds is not: it would take what others need as places.
    pub(crate) fn begin_rings(&mut self, entries: &[Entry], standings: &[Standing]) {
        self.all_asked = true;
        self.wanted = None;
        self.freed.clear();
        for turn in 0..entries.len() {
            let Some(place) = self.growers.get(turn) else {
                return;
            };
            if place < entries.len() && place < standings.len() && is_beside(standings[place]) {
                self.ask(place, &entries[place].target);
            }
        }
    }

    /// An entry that held these CPUs gave way in a ring, and got others.
    ///
    /// One that was squeezed is not tried as soon as its target is free, because others may need that as a place.
    pub(crate) fn note_given(
        &mut self,
        place: usize,
        entry: &Entry,
        held: &IdSet,
        cpus: &IdSet,
        squeezed: bool,
    ) {
        if squeezed {
            self.forget(&entry.target);
            self.squeezed = Some(place);
        }
        self.let_go(held, cpus);
    }

    /// The place of the next one of those who asked for what was let go of.
    pub(crate) fn next_freed(&mut self) -> Option<usize> {
        self.freed.take_last()
    }

    /// The place of the one that was squeezed, once.
    pub(crate) fn take_squeezed(&mut self) -> Option<usize> {
        let place = self.squeezed;
        self.squeezed = None;
        place
    }

    /// Whether it is known that nobody could need any of the CPUs as a place.
    pub(crate) fn wants_none(&self, cpus: &IdSet) -> bool {
        match &self.wanted {
            Some(wanted) => wanted.is_disjoint(cpus),
            None => false,
        }
    }

    /// Whether what others could need was put together.
    pub(crate) fn knows_wanted(&self) -> bool {
        self.wanted.is_some()
    }

    /// Those that must give way could need these CPUs as places.
    pub(crate) fn note_wanted(&mut self, cpus: IdSet) {
        self.wanted = Some(cpus);
    }
}
