ghost use Rattle.std.specs.Prelude.{◌≡◌, ℕ, ◌<◌, ◌≤◌, [], true, OnOk, length, slice_index_or};
ghost use Rattle.std.specs.FinSet as set;
ghost use Rattle.cpu_set.specs.Ids.{Ids};
ghost use Rattle.twins.specs.PartsView.{PartsView, AreBounds, IsAdded};

use cpu_set::IdSet;
use std::alloc::{AllocError, Global};
use std::marker::Model;
use std::mem;

/// At how many CPUs the last one of a set is sought before it is read off the words.
const FEW_CPUS: u32 = 8;

/// A set of CPUs by its place, with its first CPU and its last one.
#[derive(Clone, Copy)]
pub(crate) struct Part {
    pub place: usize,
    pub first: u16,
    pub last: u16,
}

/// Sets of CPUs that rows split, in order: those that wait for a row, and those that the row has left whole or made.
///
/// A set that stays whole isn't copied, since a part has only its place.
#[derive(Drop)]
pub(crate) struct Parts {
    // Each set that was a part at some time.
    sets: Vec<IdSet>,
    waiting: Vec<Part>,
    done: Vec<Part>,
}

impl Model for Parts {
    ghost use Rattle.twins.specs.PartsView.{PartsView, ArePlaced, parts_view, parts_code};

    ghost Value = { PartsView };

    ghost coded = { parts_code };

    ghost view = { λ a. parts_view a.sets.items a.waiting.items a.done.items };

    ghost invariant = { λ a. ArePlaced a.sets.items a.waiting.items a.done.items };
}

impl Parts {
    /// No parts. Allocates nothing.
    pub(crate) fn new(alloc: Global) -> Parts
        ensures waiting { result.waiting ≡ [] }
        ensures done { result.done ≡ [] }
    {
        Parts {
            sets: Vec::new(alloc),
            waiting: Vec::new(alloc),
            done: Vec::new(alloc),
        }
    }

    /// How many parts wait for the row.
    pub(crate) fn len(&self) -> usize
        ensures { result ≡ length self.now.waiting }
    {
        self.waiting.len()
    }

    /// The CPUs of a part that waits.
    pub(crate) fn cpus(&self, at: usize) -> &IdSet
        requires { at < length self.now.waiting }
        ensures { (d : Ids) → result.now ≡ slice_index_or self.now.waiting at d }
    {
        let part = self.waiting[at];
        &self.sets[part.place]
    }

    /// The first and the last CPU of a part that waits.
    pub(crate) fn bounds(&self, at: usize) -> (u16, u16)
        requires { at < length self.now.waiting }
        ensures { (d : Ids) → AreBounds (slice_index_or self.now.waiting at d) result.0 result.1 }
    {
        let part = self.waiting[at];
        (part.first, part.last)
    }

    /// Leaves a part whole.
    ///
    /// # Errors
    /// An allocation failure.
    pub(crate) fn keep(&mut self, at: usize) -> Result<(), AllocError>
        requires { at < length self.old.waiting }
        ensures { OnOk result ((d : Ids) → IsAdded (slice_index_or self.old.waiting at d) self.old self.new) }
    {
        let part = self.waiting[at];
        self.done.push(part)?;
        Ok(())
    }

    /// Adds a set that was split off, with a first CPU and a last one between which its CPUs lie.
    ///
    /// # Errors
    /// An allocation failure.
    pub(crate) fn add(&mut self, cpus: &IdSet, first: u16, last: u16) -> Result<(), AllocError>
        requires { AreBounds cpus.now first last }
        ensures { OnOk result (IsAdded cpus.now self.old self.new) }
    {
        let place = self.sets.len();
        self.sets.push(*cpus)?;
        self.done.push(Part { place, first, last })?;
        Ok(())
    }

    /// Lets all parts wait for the next row.
    pub(crate) fn turn(&mut self)
        ensures waiting { self.new.waiting ≡ self.old.done }
        ensures done { self.new.done ≡ [] }
    {
        mem::swap(&mut self.waiting, &mut self.done);
        self.done.clear();
    }
}

/// The last of some CPUs, of which none is above this one.
pub(crate) fn last_up_to(cpus: &IdSet, upto: u16) -> u16
    requires { (cpu : ℕ) → set.contains cpus.now cpu ≡ true → cpu ≤ upto }
    ensures { (cpu : ℕ) → set.contains cpus.now cpu ≡ true → cpu ≤ result }
{
    let mut last = upto;
    for _ in 0..FEW_CPUS {
        if last == 0 || cpus.contains(last) {
            return last;
        }
        last -= 1;
    }
    cpus.last().unwrap_or(0)
}

/// The first and the last of some CPUs.
pub(crate) fn bounds_of(cpus: &IdSet) -> (u16, u16)
    ensures { AreBounds cpus.now result.0 result.1 }
{
    (cpus.first().unwrap_or(0), cpus.last().unwrap_or(0))
}
