//! What those hold together that are yet to let go of CPUs.
ghost use Rattle.std.specs.Prelude.{◌≡◌, ◌&&◌, true, cond, IsTrue};
ghost use Rattle.std.specs.FinSet as set;
ghost use Rattle.cpuset_tree.specs.Groups.{has_group};
ghost use Rattle.apply_plan.specs.Targets.{IsHandover};
ghost use Rattle.apply_plan.specs.DirectWords.{are_free};
ghost use Rattle.apply_plan.specs.Turns.{IsIn};
ghost use Rattle.direct_finish.specs.Bounded.{AreBounded, or_all, own_of};

use apply_plan::Entry;
use cpu_set::IdSet;
use kernel_model::{Kernel, requested};

/// What those hold at most, outside the reserved CPUs, that are yet to let go of some: all of them, and those that are
/// pinned, where others are there too.
#[derive(Clone, Copy, Debug)]
pub struct Bounds {
    pub held: IdSet,
    pub pinned: Option<IdSet>,
}

impl Bounds {
    /// What those hold at most that are pinned.
    fn own(&self) -> &IdSet
        ensures { result.now ≡ own_of self.now }
    {
        match &self.pinned {
            Some(own) => own,
            None => &self.held,
        }
    }

    /// Whether no rival can hold any of a container's target.
    ///
    /// For a pinned one all others are rivals, and what it holds itself no other one does. For a shared one those are
    /// that are pinned.
    pub fn leave_free<K: Kernel>(
        &self,
        kernel: &K,
        reserved: &IdSet,
        entries: &[Entry],
        entry: &Entry,
    ) -> bool
        requires group { has_group (K.state kernel.now).tree entry.now.group ≡ true }
        requires valid { IsHandover (record { entries = entries.now; reserved = reserved.now }) }
        requires at { IsIn entries.now entry.now }
        requires bounded { AreBounded (K.state kernel.now) reserved.now entries.now self.now }
        ensures { IsTrue result → are_free (K.state kernel.now) reserved.now entries.now entry.now entry.now.target ≡ true }
    {
        if !entry.pinned {
            return self.own().is_disjoint(&entry.target);
        }
        if self.held.is_disjoint(&entry.target) {
            return true;
        }
        let others = self.held.minus(requested(kernel, entry.group));
        others.is_disjoint(&entry.target)
    }

    /// The same outside the reserved CPUs.
    pub fn outside(&self, reserved: &IdSet) -> Bounds
        ensures held { result.held ≡ set.difference self.now.held reserved.now }
        ensures own { own_of result ≡ set.difference (own_of self.now) reserved.now }
    {
        Bounds {
            held: self.held.minus(reserved),
            pinned: self.pinned.as_ref().map(|own| own.minus(reserved)),
        }
    }

    /// Adds what one more holds.
    pub fn add(&mut self, entry: &Entry, held: &IdSet)
        ensures held { self.new.held ≡ set.union self.old.held held.now }
        ensures own { own_of self.new ≡ set.union (own_of self.old) (cond entry.now.pinned held.now set.empty) }
    {
        self.pinned = self.own_with(entry, held);
        self.held = self.held.union(held);
    }

    /// What those hold at most that are pinned, with what one more holds. As long as all are, it is what all hold.
    fn own_with(&self, entry: &Entry, held: &IdSet) -> Option<IdSet>
        ensures { or_all result (set.union self.now.held held.now) ≡ set.union (own_of self.now) (cond entry.now.pinned held.now set.empty) }
    {
        if entry.pinned {
            self.pinned.as_ref().map(|own| own.union(held))
        } else {
            Some(*self.own())
        }
    }

    /// Drops what a container held that has its target now, where that is worth it. Of a shared one nothing is dropped,
    /// for others may hold it too.
    pub fn drop_held(&mut self, worth: bool, entry: &Entry, held: &IdSet)
        ensures held { self.new.held ≡ set.difference self.old.held (cond (worth && entry.now.pinned) held.now set.empty) }
        ensures own { own_of self.new ≡ set.difference (own_of self.old) (cond (worth && entry.now.pinned) held.now
            set.empty) }
    {
        if worth && entry.pinned {
            self.held = self.held.minus(held);
            self.pinned = self.pinned.as_ref().map(|own| own.minus(held));
        }
    }

    /// Puts what a pinned container holds now in place of what it held.
    pub fn exchange(&mut self, held: &IdSet, cpus: &IdSet)
        ensures held { self.new.held ≡ set.union (set.difference self.old.held held.now) cpus.now }
        ensures own { own_of self.new ≡ set.union (set.difference (own_of self.old) held.now) cpus.now }
    {
        self.held = self.held.minus(held).union(cpus);
        self.pinned = self.pinned.as_ref().map(|own| own.minus(held).union(cpus));
    }
}
