//! A look at all entries: who must move, and what those hold together that are yet to let go.
ghost use Rattle.std.specs.Prelude.{◌≡◌, ◌&&◌, true, not, is_none, find};
ghost use Rattle.std.specs.FinSet as set;
ghost use Rattle.cpuset_tree.specs.Groups.{has_group};
ghost use Rattle.apply_plan.specs.Targets.{ArePlaced};
ghost use Rattle.apply_plan.specs.DueWrite.{must_move};
ghost use Rattle.apply_plan.specs.DirectWords.{has_own};
ghost use Rattle.direct_finish.specs.Bounded.{IsBounded, AreBounded, IsWithin};

use crate::bounds::Bounds;
use crate::queue::Queue;
use crate::take::must_move;
use apply_plan::Entry;
use cpu_set::IdSet;
use kernel_model::{Kernel, requested};

/// Whether a container that holds these CPUs holds some that are neither reserved nor in its target.
pub fn holds_more(reserved: &IdSet, target: &IdSet, held: &IdSet) -> bool
    ensures { result ≡ has_own reserved.now (set.difference held.now target.now) }
{
    !held.is_subset(reserved) && !held.minus(target).is_subset(reserved)
}

/// Looks at one entry. What it holds is within the bounds then, where it is yet to let go of some, and the queue has
/// it, where it must move. Whether none did so far is told.
fn look_at<K: Kernel>(
    kernel: &K,
    reserved: &IdSet,
    place: usize,
    entry: &Entry,
    arrived: &mut bool,
    bounds: &mut Bounds,
    queue: &mut Queue,
)
    requires { has_group (K.state kernel.now).tree entry.now.group ≡ true }
    ensures within { IsWithin bounds.old bounds.new }
    ensures here { IsBounded (K.state kernel.now) reserved.now bounds.new entry.now }
    ensures arrived { arrived.new ≡ (arrived.old && not (must_move (K.state kernel.now) entry.now)) }
{
    if !must_move(kernel, entry) {
        return;
    }
    *arrived = false;
    let held = requested(kernel, entry.group);
    if !holds_more(reserved, &entry.target, held) {
        queue.add_grower(place);
        return;
    }
    queue.add_mover(place);
    bounds.add(entry, held);
}

/// Looks at all entries. The queue has those then that must move, and it is told whether there are none.
pub fn look<K: Kernel>(
    kernel: &K,
    reserved: &IdSet,
    entries: &[Entry],
    queue: &mut Queue,
) -> (Bounds, bool)
    requires { ArePlaced (K.state kernel.now) entries.now }
    ensures bounded { AreBounded (K.state kernel.now) reserved.now entries.now result.0 }
    ensures arrived { result.1 ≡ is_none (find (must_move (K.state kernel.now)) entries.now) }
{
    let none = IdSet::empty();
    let mut bounds = Bounds {
        held: none,
        pinned: None,
    };
    let mut arrived = true;
    queue.clear(entries.len());
    for (place, entry) in entries.iter().enumerate() {
        look_at(
            kernel,
            reserved,
            place,
            entry,
            &mut arrived,
            &mut bounds,
            queue,
        );
    }
    (bounds.outside(reserved), arrived)
}
