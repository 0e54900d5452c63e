//! Who takes its target at once in a direct hand-over: one of whose target no rival holds any.
ghost use Rattle.std.specs.Prelude.{◌≡◌, ◌&&◌, true, find, is_some};
ghost use Rattle.std.specs.FinSet as set;
ghost use Rattle.cpuset_tree.specs.Groups.{has_group};
ghost use Rattle.apply_plan.specs.Targets.{ArePlaced};
ghost use Rattle.apply_plan.specs.DueWrite.{must_move};
ghost use Rattle.apply_plan.specs.DirectWords.{are_free, may_take, lets_go, spare};
ghost use Rattle.apply_plan.specs.DirectWrite.{gets};
ghost use Rattle.apply_plan.specs.Overviews.{IsOverview};
ghost use Rattle.apply_plan.specs.Turns.{goes_by, takes_by};

use crate::Entry;
use crate::overview::Overview;
use crate::scan::Write;
use cpu_set::IdSet;
use kernel_model::{Kernel, requested};

/// Who takes its target, in the order in which they are looked for.
#[derive(Clone, Copy, Debug, PartialEq, Eq)]
pub enum Taking {
    /// A pinned one that holds no CPU outside the reserved ones yet.
    New,
    /// One that lets go of some.
    LettingGo,
    /// A pinned one.
    Growing,
    /// Anyone.
    Any,
}

/// Whether a live container does not hold its target.
fn must_move<K: Kernel>(kernel: &K, entry: &Entry) -> bool
    requires { has_group (K.state kernel.now).tree entry.now.group ≡ true }
    ensures { result ≡ must_move (K.state kernel.now) entry.now }
{
    kernel.first_alive(entry.pid) && *requested(kernel, entry.group) != entry.target
}

/// Whether a live container holds CPUs that are neither reserved nor in its target.
fn lets_go<K: Kernel>(kernel: &K, reserved: &IdSet, entry: &Entry) -> bool
    requires { has_group (K.state kernel.now).tree entry.now.group ≡ true }
    ensures { result ≡ lets_go (K.state kernel.now) reserved.now entry.now }
{
    kernel.first_alive(entry.pid)
        && !requested(kernel, entry.group)
            .minus(&entry.target)
            .is_subset(reserved)
}

/// Whether no rival of a container holds any of its target, as the look over all entries tells it.
fn is_free<K: Kernel>(
    kernel: &K,
    reserved: &IdSet,
    entries: &[Entry],
    seen: &Overview,
    entry: &Entry,
) -> bool
    requires group { has_group (K.state kernel.now).tree entry.now.group ≡ true }
    requires seen { IsOverview (K.state kernel.now) reserved.now entries.now seen.now }
    ensures { result ≡ are_free (K.state kernel.now) reserved.now entries.now entry.now entry.now.target }
{
    let lacking = entry.target.minus(requested(kernel, entry.group));
    lacking.meet(&seen.others(entry)).is_subset(reserved)
}

/// Whether a live container does not hold its target, of which no rival holds any.
fn may_take<K: Kernel>(
    kernel: &K,
    reserved: &IdSet,
    entries: &[Entry],
    seen: &Overview,
    entry: &Entry,
) -> bool
    requires group { has_group (K.state kernel.now).tree entry.now.group ≡ true }
    requires seen { IsOverview (K.state kernel.now) reserved.now entries.now seen.now }
    ensures { result ≡ may_take (K.state kernel.now) reserved.now entries.now entry.now }
{
    must_move(kernel, entry) && is_free(kernel, reserved, entries, seen, entry)
}

/// Whether a container takes its target at once. One that only grows does not while rings stand and its target has all
/// spare CPUs.
fn goes<K: Kernel>(
    kernel: &K,
    reserved: &IdSet,
    entries: &[Entry],
    seen: &Overview,
    left: &IdSet,
    rings: bool,
    entry: &Entry,
) -> bool
    requires group { has_group (K.state kernel.now).tree entry.now.group ≡ true }
    requires seen { IsOverview (K.state kernel.now) reserved.now entries.now seen.now }
    requires left { left.now ≡ spare (K.state kernel.now) reserved.now entries.now }
    ensures { result ≡ goes_by (K.state kernel.now) reserved.now entries.now rings entry.now }
{
    may_take(kernel, reserved, entries, seen, entry)
        && !(!lets_go(kernel, reserved, entry) && left.is_subset(&entry.target) && rings)
}

/// Whether it is a container's turn to take its target.
fn takes<K: Kernel>(
    kernel: &K,
    reserved: &IdSet,
    entries: &[Entry],
    seen: &Overview,
    left: &IdSet,
    rings: bool,
    taking: Taking,
    entry: &Entry,
) -> bool
    requires group { has_group (K.state kernel.now).tree entry.now.group ≡ true }
    requires seen { IsOverview (K.state kernel.now) reserved.now entries.now seen.now }
    requires left { left.now ≡ spare (K.state kernel.now) reserved.now entries.now }
    ensures { result ≡ takes_by (K.state kernel.now) reserved.now entries.now rings taking entry.now }
{
    match taking {
        Taking::New => {
            entry.pinned
                && requested(kernel, entry.group).is_subset(reserved)
                && goes(kernel, reserved, entries, seen, left, rings, entry)
        }
        Taking::LettingGo => {
            lets_go(kernel, reserved, entry)
                && goes(kernel, reserved, entries, seen, left, rings, entry)
        }
        Taking::Growing => entry.pinned
            && goes(kernel, reserved, entries, seen, left, rings, entry),
        Taking::Any => may_take(kernel, reserved, entries, seen, entry),
    }
}

/// The write by which the first whose turn it is takes its target.
pub fn first_taking<K: Kernel>(
    kernel: &K,
    reserved: &IdSet,
    entries: &[Entry],
    seen: &Overview,
    left: &IdSet,
    rings: bool,
    taking: Taking,
) -> Option<Write>
    requires placed { ArePlaced (K.state kernel.now) entries.now }
    requires seen { IsOverview (K.state kernel.now) reserved.now entries.now seen.now }
    requires left { left.now ≡ spare (K.state kernel.now) reserved.now entries.now }
    ensures { result ≡ gets (takes_by (K.state kernel.now) reserved.now entries.now rings taking) (λ e. e.target) entries.now }
{
    for entry in entries {
        if takes(kernel, reserved, entries, seen, left, rings, taking, entry) {
            return Some(Write {
                group: entry.group,
                cpus: entry.target,
            });
        }
    }
    None
}

/// Whether some pinned container's target has all of these CPUs.
pub fn any_has_all(entries: &[Entry], cpus: &IdSet) -> bool
    ensures { result ≡ is_some (find (λ e. e.pinned && set.is_subset cpus.now e.target) entries.now) }
{
    for entry in entries {
        if entry.pinned && cpus.is_subset(&entry.target) {
            return true;
        }
    }
    false
}
