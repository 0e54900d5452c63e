//! What is in effect while one CPU goes offline or comes online: most of the groups gain or lose that CPU, or nothing.
ghost use Rattle.std.specs.Prelude.{◌≡◌, ◌==◌, ◌&&◌, false, true, IfSome};
ghost use Rattle.std.specs.FinSet as set;
ghost use Rattle.slab.specs.Slab.{get};
ghost use Rattle.cpu_set.specs.Ids.{Ids};
ghost use Rattle.cpu_set.specs.Members.{IsCpu};
ghost use Rattle.cpuset_tree.specs.declared.groups.Cgroup.{Cgroup};
ghost use Rattle.cpuset_tree.specs.declared.groups.Resource.TheVariants.{Cpus};
ghost use Rattle.cpuset_tree.specs.Effective.{granted};
ghost use Rattle.cpuset_tree.specs.Kept.{passed, OthersGranted, ChangesAt, OnlyKeptDiffers, AllKept, IsOrder};
ghost use Rattle.cpuset_tree.specs.Near.{AgreeBut, AllGranted, IsNear, IsNearAt, WasGranted, with_cpu, having};

use crate::groups::{Cgroup, Resource, Share, have_at};
use crate::refresh::{pass_group, refresh};
use cpu_set::IdSet;
use slab::Slab;
use std::collections::VecDeque;

/// A CPU in which the sets differ, if they do.
fn first_difference(was: &IdSet, online: &IdSet) -> u16
    ensures { IsCpu result }
{
    let gone = was.minus(online);
    let come = online.minus(was);
    gone.union(&come).first().unwrap_or(0)
}

/// The CPU but for which the sets are the same, if there is such a one.
fn only_difference(was: &IdSet, online: &IdSet) -> Option<u16>
    ensures cpu { IfSome result (λ cpu. IsCpu cpu) }
    ensures agree { IfSome result (λ cpu. AgreeBut cpu was.now online.now) }
{
    let cpu = first_difference(was, online);
    let (mut before, mut after) = (*was, *online);
    before.remove(cpu);
    after.remove(cpu);
    if before == after { Some(cpu) } else { None }
}

/// A CPU of a set that is not this one.
fn other_than(cpus: &IdSet, cpu: u16) -> Option<u16>
    ensures there { IfSome result (λ other. set.contains cpus.now other ≡ true) }
    ensures apart { IfSome result (λ other. (other == cpu) ≡ false) }
{
    match cpus.first() {
        Some(first) if first != cpu => Some(first),
        Some(_) => cpus.next_after(cpu),
        None => None,
    }
}

/// Whether a CPU is in both sets.
fn are_both(one: &IdSet, other: &IdSet, cpu: u16) -> bool
    ensures { result ≡ (set.contains one.now cpu && set.contains other.now cpu) }
{
    one.contains(cpu) && other.contains(cpu)
}

/// Whether a group is to have a CPU in effect, where what it has can differ in that CPU alone; and none where it may be
/// that more differs, or that the tests of two CPUs don't tell.
///
/// Another CPU of its parent's tells whether the group has what it shares with its parent, or all of its parent's.
fn due_of(share: &Share, above: &IdSet, cpu: u16) -> Option<bool>
    requires { IsNear cpu share.now.effective (granted share.now.requested above.now) }
    ensures { IfSome result (λ has. granted share.now.requested above.now ≡ with_cpu cpu has share.now.effective) }
{
    let other = other_than(above, cpu)?;
    let had = share.effective.contains(other);
    let asked = share.requested.contains(other);
    let shared = are_both(&share.requested, above, cpu);
    if had {
        if asked {
            return Some(shared);
        }
        if shared {
            return None;
        }
        return Some(above.contains(cpu));
    }
    if asked || shared || share.effective.contains(cpu) {
        return None;
    }
    Some(false)
}

/// The same of the group under a key, where a write of the group of this serial can change it.
fn due_at(groups: &Slab<Cgroup>, key: usize, written: u64, cpu: u16) -> Option<bool>
    requires { IsNearAt cpu groups.now key }
    ensures { IfSome result (λ has. (top : Ids) (n : Cgroup) → get groups.now key ≡ Some n
        → passed Cpus groups.now top written n ≡ having cpu has n) }
{
    let kept = groups.get(key)?;
    if !kept.may_change(written) {
        return None;
    }
    let above = groups.get(kept.parent?.key)?;
    due_of(&kept.shares.cpus, &above.shares.cpus.effective, cpu)
}

/// Brings one group up to date, whose parent is, once this CPU has gone offline or come online.
fn pass_by_cpu(groups: &mut Slab<Cgroup>, key: usize, top: &IdSet, written: u64, cpu: u16)
    requires cpu { IsCpu cpu }
    requires near { IsNearAt cpu groups.old key }
    ensures { ChangesAt groups.old groups.new key (passed Cpus groups.old top.now written) }
{
    match due_at(groups, key, written, cpu) {
        Some(has) => have_at(groups, key, cpu, has),
        None => pass_group(groups, key, Resource::Cpus, top, written),
    }
}

/// Brings all groups up to date, the oldest first, once this CPU has gone offline or come online; the root, which is
/// the group of this serial, has all of `top` in effect.
fn refresh_by_cpu(
    groups: &mut Slab<Cgroup>,
    order: &VecDeque<usize>,
    top: &IdSet,
    written: u64,
    cpu: u16,
)
    requires in_order { IsOrder groups.old order.now.items }
    requires granted { OthersGranted Cpus groups.old top.now written }
    requires was { WasGranted cpu groups.old top.now }
    requires cpu { IsCpu cpu }
    ensures kept { AllKept Cpus groups.new top.now order.now.items }
    ensures same { OnlyKeptDiffers Cpus groups.old groups.new }
{
    for place in (0..order.len()).rev() {
        pass_by_cpu(groups, order[place], top, written, cpu);
    }
}

/// Brings all groups up to date, the oldest first, once other CPUs are online than there were; the root, which is the
/// group of this serial, has all of `top` in effect. Where one CPU went or came, most groups need no more than tests of
/// single CPUs.
pub fn refresh_online(
    groups: &mut Slab<Cgroup>,
    order: &VecDeque<usize>,
    was: &IdSet,
    top: &IdSet,
    written: u64,
)
    requires in_order { IsOrder groups.old order.now.items }
    requires granted { OthersGranted Cpus groups.old top.now written }
    requires was { AllGranted groups.old was.now }
    ensures kept { AllKept Cpus groups.new top.now order.now.items }
    ensures same { OnlyKeptDiffers Cpus groups.old groups.new }
{
    match only_difference(was, top) {
        Some(cpu) => refresh_by_cpu(groups, order, top, written, cpu),
        None => refresh(groups, order, Resource::Cpus, top, written),
    }
}
