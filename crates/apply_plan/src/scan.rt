//! The entries looked through for the write that is due.
ghost use Rattle.std.specs.Prelude.{◌≡◌, ◌&&◌, not, true, Some, IsTrue, IfSome, is_none, find, option_copied};
ghost use Rattle.std.specs.Option.{option_or};
ghost use Rattle.cpu_set.specs.Ids.{Ids};
ghost use Rattle.cpuset_tree.specs.Groups.{has_group};
ghost use Rattle.proctable.specs.Processes.{is_alive};
ghost use Rattle.apply_plan.specs.Kept.{kept};
ghost use Rattle.apply_plan.specs.Targets.{IsPlaced, ArePlaced, HaveSomeTarget};
ghost use Rattle.apply_plan.specs.DueWrite.{must_move, due_write};
ghost use Rattle.apply_plan.specs.Walks.{release_from, its_release, its_move, IsMadeIfAny, done_of};

use crate::Entry;
use cpu_set::IdSet;
use kernel_model::{Group, Kernel, KernelFault, requested};

/// A write of the CPUs that a group requests.
#[derive(Clone, Copy, Debug, PartialEq, Eq)]
pub struct Write {
    pub group: Group,
    pub cpus: IdSet,
}

/// What a container that requests these CPUs keeps on the way to its target: those that are in the target or reserved,
/// and the reserved ones where there are none.
fn kept_of(reserved: &IdSet, target: &IdSet, cpus: &IdSet) -> IdSet
    ensures { result ≡ kept reserved.now target.now cpus.now }
{
    let within = cpus.meet(&target.union(reserved));
    if within.is_empty() { *reserved } else { within }
}

/// Whether a container that requests these CPUs is seen to keep all of them on the way to its target with no set made:
/// they are the reserved ones, or they are some, and each is in the target.
fn keeps_at_sight(reserved: &IdSet, target: &IdSet, held: &IdSet) -> bool
    ensures { IsTrue result → kept reserved.now target.now held.now ≡ held.now }
{
    held == reserved || held.is_subset(target) && !held.is_empty()
}

/// Whether a container that requests these CPUs keeps all of them: they are some, and each is in the target or
/// reserved.
fn keeps_all(reserved: &IdSet, target: &IdSet, held: &IdSet) -> bool
    ensures { IsTrue result → kept reserved.now target.now held.now ≡ held.now }
{
    !held.is_empty() && held.minus(target).is_subset(reserved)
}

/// The write by which a container that requests these CPUs lets go of what it is not to have, where that is any.
fn release_from(reserved: &IdSet, entry: &Entry, held: &IdSet) -> Option<Write>
    ensures { result ≡ release_from reserved.now entry.now held.now }
{
    let kept = kept_of(reserved, &entry.target, held);
    if kept == *held {
        return None;
    }
    Some(Write {
        group: entry.group,
        cpus: kept,
    })
}

/// The same, for a look at containers of which most keep all: that takes one set less to see.
fn release_if_some(reserved: &IdSet, entry: &Entry, held: &IdSet) -> Option<Write>
    ensures { result ≡ release_from reserved.now entry.now held.now }
{
    if keeps_all(reserved, &entry.target, held) {
        return None;
    }
    release_from(reserved, entry, held)
}

/// Whether the container has ended, where that is asked.
///
/// Those that have ended often stand one behind another: behind one the next is asked first, and else only a container
/// of which something may be due.
fn has_ended<K: Kernel>(kernel: &K, entry: &Entry, asked: bool) -> bool
    ensures { result ≡ (asked && not (is_alive (K.state kernel.now).table entry.now.pid)) }
{
    asked && !kernel.first_alive(entry.pid)
}

/// Whether a container that requests these CPUs is seen to keep them: they are its target.
fn holds_target(target: &IdSet, held: &IdSet) -> bool
    ensures { IsTrue result → (reserved : Ids) → kept reserved target.now held.now ≡ held.now }
{
    held == target && !held.is_empty()
}

/// The write by which a live container lets go of what it is not to have, where it holds any of that.
pub fn release_of<K: Kernel>(kernel: &K, reserved: &IdSet, entry: &Entry) -> Option<Write>
    requires { has_group (K.state kernel.now).tree entry.now.group ≡ true }
    ensures { result ≡ its_release (K.state kernel.now) reserved.now entry.now }
{
    if !kernel.first_alive(entry.pid) {
        return None;
    }
    let held = requested(kernel, entry.group);
    if holds_target(&entry.target, held) {
        return None;
    }
    release_from(reserved, entry, held)
}

/// Whether a live container does not hold its target. Whether the one before it has ended is told, and then whether
/// this one was seen to have.
fn must_move<K: Kernel>(kernel: &K, entry: &Entry, ended: &mut bool) -> bool
    requires { has_group (K.state kernel.now).tree entry.now.group ≡ true }
    ensures { result ≡ must_move (K.state kernel.now) entry.now }
{
    let asked = *ended;
    *ended = has_ended(kernel, entry, asked);
    if *ended {
        return false;
    }
    if *requested(kernel, entry.group) == entry.target {
        return false;
    }
    *ended = has_ended(kernel, entry, !asked);
    !*ended
}

/// The write by which a live container takes its target, where it does not hold that.
pub fn move_of<K: Kernel>(kernel: &K, entry: &Entry) -> Option<Write>
    requires { has_group (K.state kernel.now).tree entry.now.group ≡ true }
    ensures { result ≡ its_move (K.state kernel.now) entry.now }
{
    if kernel.first_alive(entry.pid) && *requested(kernel, entry.group) != entry.target {
        Some(Write {
            group: entry.group,
            cpus: entry.target,
        })
    } else {
        None
    }
}

/// The entry that was found first: the one before, or else this one.
fn first_of<'a>(found: Option<&'a Entry>, entry: &'a Entry) -> &'a Entry
    ensures { Some result.now ≡ option_or (option_copied found.entry) (Some entry.now) }
{
    match found {
        Some(earlier) => earlier,
        None => entry,
    }
}

/// The write that is due, and the place of its entry: of the first live container that holds what it is to let go, else
/// of the first that does not hold its target. Nothing is due of a container that holds its target, as most do, or that
/// has ended.
pub fn due<K: Kernel>(kernel: &K, reserved: &IdSet, entries: &[Entry]) -> (Option<Write>, usize)
    requires placed { ArePlaced (K.state kernel.now) entries.now }
    requires some { HaveSomeTarget entries.now }
    ensures { result.0 ≡ due_write (K.state kernel.now) reserved.now entries.now }
{
    let mut moving = None;
    let mut first = 0;
    let mut ended = false;
    for (place, entry) in entries.iter().enumerate() {
        let known = ended;
        ended = has_ended(kernel, entry, known);
        if ended {
            continue;
        }
        let held = requested(kernel, entry.group);
        if *held == entry.target {
            continue;
        }
        if moving.is_some() && keeps_at_sight(reserved, &entry.target, held) {
            continue;
        }
        ended = has_ended(kernel, entry, !known);
        if ended {
            continue;
        }
        if let Some(write) = release_if_some(reserved, entry, held) {
            return (Some(write), place);
        }
        if moving.is_none() {
            first = place;
        }
        moving = Some(first_of(moving, entry));
    }
    let write = moving.map(|entry| Write {
        group: entry.group,
        cpus: entry.target,
    });
    (write, first)
}

/// Whether each live container of these entries holds its target.
fn have_arrived<K: Kernel>(kernel: &K, entries: &[Entry]) -> bool
    requires { ArePlaced (K.state kernel.now) entries.now }
    ensures { result ≡ is_none (find (must_move (K.state kernel.now)) entries.now) }
{
    let mut ended = false;
    for entry in entries {
        if must_move(kernel, entry, &mut ended) {
            return false;
        }
    }
    true
}

/// Whether each live container holds its target. It is looked for from a place on, and then before it: behind the place
/// of a write that was made is mostly the next one that moves.
pub fn all_arrived<K: Kernel>(kernel: &K, entries: &[Entry], from: usize) -> bool
    requires { ArePlaced (K.state kernel.now) entries.now }
    ensures { result ≡ is_none (find (must_move (K.state kernel.now)) entries.now) }
{
    let (before, behind) = entries.split_at(from.min(entries.len()));
    have_arrived(kernel, behind) && have_arrived(kernel, before)
}

/// Makes a write, where there is one.
pub fn make_if_any<K: Kernel>(kernel: &mut K, write: Option<Write>) -> Result<(), KernelFault>
    requires { IfSome write (λ w. IsPlaced (K.state kernel.old) w.group) }
    ensures { IsMadeIfAny write (K.state kernel.old) result (K.state kernel.new) }
{
    match write {
        Some(write) => kernel.write_cpus(write.group, write.cpus),
        None => Ok(()),
    }
}

/// Makes the write that is due, where one is, and tells the place of its entry.
pub fn make_due<K: Kernel>(
    kernel: &mut K,
    reserved: &IdSet,
    entries: &[Entry],
) -> Result<usize, KernelFault>
    requires placed { ArePlaced (K.state kernel.old) entries.now }
    requires some { HaveSomeTarget entries.now }
    ensures made { IsMadeIfAny (due_write (K.state kernel.old) reserved.now entries.now) (K.state kernel.old)
        (done_of result)
        (K.state kernel.new) }
    ensures placed { ArePlaced (K.state kernel.new) entries.now }
{
    let (write, place) = due(&*kernel, reserved, entries);
    make_if_any(kernel, write)?;
    Ok(place)
}
