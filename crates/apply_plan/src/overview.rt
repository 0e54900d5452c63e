//! What the live containers of a hand-over hold and ask for together, so that of each of them it is told in a few
//! sets what others have and want.
ghost use Rattle.std.specs.Prelude.{◌≡◌, ◌&&◌, true, cond};
ghost use Rattle.std.specs.FinSet as set;
ghost use Rattle.cpuset_tree.specs.Groups.{has_group};
ghost use Rattle.proctable.specs.Processes.{is_alive};
ghost use Rattle.apply_plan.specs.Targets.{ArePlaced};
ghost use Rattle.apply_plan.specs.DueWrite.{held, must_move};
ghost use Rattle.apply_plan.specs.DirectWords.{has_own, lets_go};
ghost use Rattle.apply_plan.specs.Overviews.{IsOverview};

use crate::Entry;
use cpu_set::IdSet;
use kernel_model::{Kernel, requested};

/// What the live containers of a hand-over hold and ask for together.
#[derive(Clone, Copy)]
pub struct Overview {
    /// What they hold.
    pub held: IdSet,
    /// What the pinned ones hold.
    pub pinned: IdSet,
    /// The targets of the pinned ones that let go: those ask of pinned ones.
    pub letting: IdSet,
    /// The targets of the pinned ones that must move: those ask of shared ones.
    pub moving: IdSet,
}

/// Adds a set to another one, where a test passed.
fn add_if(all: &mut IdSet, test: bool, more: &IdSet)
    ensures { all.new ≡ set.union all.old (cond test more.now set.empty) }
{
    if test {
        *all = all.union(more);
    }
}

/// Whether a live container that holds these CPUs holds some that are neither reserved nor in its target.
fn holds_more(reserved: &IdSet, target: &IdSet, held: &IdSet, alive: bool) -> bool
    ensures { result ≡ (alive && has_own reserved.now (set.difference held.now target.now)) }
{
    alive && !held.minus(target).is_subset(reserved)
}

impl Overview {
    /// Adds what one container holds and asks for.
    fn add<K: Kernel>(&mut self, kernel: &K, reserved: &IdSet, entry: &Entry)
        requires { has_group (K.state kernel.now).tree entry.now.group ≡ true }
        ensures held { self.new.held ≡ set.union self.old.held
            (cond (is_alive (K.state kernel.now).table entry.now.pid) (held (K.state kernel.now) entry.now) set.empty) }
        ensures pinned { self.new.pinned ≡ set.union self.old.pinned
            (cond (entry.now.pinned && is_alive (K.state kernel.now).table entry.now.pid) (held (K.state kernel.now) entry.now)
            set.empty) }
        ensures letting { self.new.letting ≡ set.union self.old.letting
            (cond (entry.now.pinned && lets_go (K.state kernel.now) reserved.now entry.now) entry.now.target set.empty) }
        ensures moving { self.new.moving ≡ set.union self.old.moving
            (cond (entry.now.pinned && must_move (K.state kernel.now) entry.now) entry.now.target set.empty) }
    {
        let alive = kernel.first_alive(entry.pid);
        let held = requested(kernel, entry.group);
        let lets = holds_more(reserved, &entry.target, held, alive);
        let moves = alive && *held != entry.target;
        add_if(&mut self.held, alive, held);
        add_if(&mut self.pinned, entry.pinned && alive, held);
        add_if(&mut self.letting, entry.pinned && lets, &entry.target);
        add_if(&mut self.moving, entry.pinned && moves, &entry.target);
    }

    /// Looks all containers over.
    pub fn of<K: Kernel>(kernel: &K, reserved: &IdSet, entries: &[Entry]) -> Overview
        requires { ArePlaced (K.state kernel.now) entries.now }
        ensures { IsOverview (K.state kernel.now) reserved.now entries.now result }
    {
        let none = IdSet::empty();
        let mut seen = Overview {
            held: none,
            pinned: none,
            letting: none,
            moving: none,
        };
        for entry in entries {
            seen.add(kernel, reserved, entry);
        }
        seen
    }

    /// What others hold of what a container does not hold.
    pub fn others(&self, entry: &Entry) -> IdSet
        ensures { result ≡ cond entry.now.pinned self.now.held self.now.pinned }
    {
        if entry.pinned { self.held } else { self.pinned }
    }

    /// What is asked of a container, outside the reserved CPUs.
    pub fn asks(&self, entry: &Entry) -> IdSet
        ensures { result ≡ set.difference (cond entry.now.pinned self.now.letting self.now.moving) entry.now.target }
    {
        let asked = if entry.pinned {
            self.letting
        } else {
            self.moving
        };
        asked.minus(&entry.target)
    }
}
