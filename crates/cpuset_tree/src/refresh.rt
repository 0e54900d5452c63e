//! What is kept of the groups as their effective sets, brought up to date.
ghost use Rattle.std.specs.Prelude.{◌≡◌, ◌≤◌, Some, length, drop};
ghost use Rattle.slab.specs.Slab.{get};
ghost use Rattle.cpuset_tree.specs.declared.groups.Cgroup.{Cgroup};
ghost use Rattle.cpuset_tree.specs.Kept.{effective_kept, stands, passed, is_older as older, OthersGranted};
ghost use Rattle.cpuset_tree.specs.Kept.{ElsewhereGranted, AreParentsUpTo, ChangesAt, OnlyKeptDiffers, AllKept};
ghost use Rattle.cpuset_tree.specs.Kept.{IsOrder, IsInOrder};

use crate::groups::{Cgroup, Group, Resource, granted_of};
use cpu_set::IdSet;
use slab::Slab;
use std::collections::VecDeque;

fn effective_of(groups: &Slab<Cgroup>, group: Group, resource: Resource) -> IdSet
    ensures { result ≡ effective_kept resource (get groups.now group.key) }
{
    match groups.get(group.key) {
        None => IdSet::empty(),
        Some(kept) => kept.share(resource).effective,
    }
}

/// What a group is to have in effect, whose parent is up to date.
#[inline(always)]
fn standing_of(groups: &Slab<Cgroup>, kept: &Cgroup, resource: Resource, top: &IdSet) -> IdSet
    ensures { result ≡ stands resource groups.now top.now kept.now }
{
    match kept.parent {
        None => *top,
        Some(parent) => {
            let requested = &kept.share(resource).requested;
            match groups.get(parent.key) {
                None => granted_of(requested, &IdSet::empty()),
                Some(above) => granted_of(requested, &above.share(resource).effective),
            }
        }
    }
}

/// Brings one group up to date, whose parent is, where a write of the group of this serial can change it.
pub fn pass_group(
    groups: &mut Slab<Cgroup>,
    key: usize,
    resource: Resource,
    top: &IdSet,
    written: u64,
)
    ensures { ChangesAt groups.old groups.new key (passed resource groups.old top.now written) }
{
    let Some(kept) = groups.get(key) else {
        return;
    };
    if !kept.may_change(written) {
        return;
    }
    let effective = standing_of(groups, kept, resource, top);
    if let Some(kept) = groups.get_mut(key) {
        kept.give(resource, effective);
    }
}

/// Whether there is a group under a key that is older than the one of this serial.
fn is_older(groups: &Slab<Cgroup>, key: usize, written: u64) -> bool
    ensures { result ≡ older written (get groups.now key) }
{
    match groups.get(key) {
        None => false,
        Some(kept) => kept.group.serial < written,
    }
}

/// The place from which on the groups are older than the one of this serial, found by halving.
fn place_of_older(groups: &Slab<Cgroup>, order: &VecDeque<usize>, written: u64) -> usize
    requires { IsOrder groups.now order.now.items }
    ensures within { result ≤ length order.now.items }
    ensures older { IsInOrder groups.now written (drop result order.now.items) }
{
    let (mut low, mut high) = (0, order.len());
    while low < high {
        let middle = low + (high - low) / 2;
        if is_older(groups, order[middle], written) {
            high = middle;
        } else {
            low = middle + 1;
        }
    }
    high
}

/// Brings the groups up to date that a write of the group of this serial can change, the oldest first; the root has
/// all of `top` in effect.
pub fn refresh(
    groups: &mut Slab<Cgroup>,
    order: &VecDeque<usize>,
    resource: Resource,
    top: &IdSet,
    written: u64,
)
    requires in_order { IsOrder groups.old order.now.items }
    requires granted { OthersGranted resource groups.old top.now written }
    ensures kept { AllKept resource groups.new top.now order.now.items }
    ensures same { OnlyKeptDiffers resource groups.old groups.new }
{
    let older = place_of_older(groups, order, written);
    for place in (0..older).rev() {
        pass_group(groups, order[place], resource, top, written);
    }
}

/// Brings the groups up to date that a write of this one can change: it alone, where no group has a parent as new.
pub fn refresh_written(
    groups: &mut Slab<Cgroup>,
    order: &VecDeque<usize>,
    newest_parent: u64,
    resource: Resource,
    top: &IdSet,
    group: Group,
)
    requires in_order { IsOrder groups.old order.now.items }
    requires here { (n : Cgroup) → get groups.old group.key ≡ Some n → n.group ≡ group }
    requires granted { ElsewhereGranted resource groups.old top.now group.key }
    requires parents { AreParentsUpTo groups.old newest_parent }
    ensures kept { AllKept resource groups.new top.now order.now.items }
    ensures same { OnlyKeptDiffers resource groups.old groups.new }
{
    if group.serial > newest_parent {
        pass_group(groups, group.key, resource, top, group.serial);
    } else {
        refresh(groups, order, resource, top, group.serial);
    }
}
