ghost use Rattle.std.specs.Prelude.{◌≡◌, ◌<◌, IfOk, OnErr, MatchResult, Some, None, true, false, string_bytes};
ghost use Rattle.std.specs.Option.{option_copied};
ghost use Rattle.cpuset_tree.specs.Groups.{root_of, has_group, is_root, child_of, has_children, requested_cpus};
ghost use Rattle.cpuset_tree.specs.Groups.{requested_mems};
ghost use Rattle.cpuset_tree.specs.Effective.{effective_cpus, effective_mems};
ghost use Rattle.cpuset_tree.specs.TreeChanges.{IsFirstTree, without_group, with_cpus, with_mems, with_online};
ghost use Rattle.faults.specs.Calls.{Decides, behind};
ghost use Rattle.cpuset_tree.specs.TreeAnswers.{Makes, AddsGroup, make_refusal, remove_refusal, write_refusal, read_of};
ghost use Rattle.cpuset_tree.specs.Places.{place_of, place_behind};
ghost use Rattle.cpuset_tree.specs.TreeWellFormed.{IsWellFormed};
ghost use Rattle.cpuset_tree.specs.TreeLaws.{RunsUpThePath};

use crate::groups::{Cgroup, Resource, Shares, child_among, request_at};
use crate::marks::{forget_mark, has_mark, mark_of, note_mark};
use crate::one_cpu::refresh_online;
use crate::refresh::refresh_written;
use crate::{Group, SERIAL_LIMIT, TreeFault};
use cpu_set::IdSet;
use faults::OrMemory;
use slab::Slab;
use std::alloc::{AllocError, Global};
use std::collections::VecDeque;
use std::marker::Model;

/// The groups of a kernel, each with the CPUs and memory nodes that it requests and those that it has in effect.
///
/// At the root the online CPUs are in effect, and all nodes. In another group those of its parent's that it
/// requests are, or all of its parent's where it requests none of them.
///
/// What is in effect is kept up to date by the writes, so that each read takes O(1) steps. Of g groups `find`, `make`
/// and `remove` take O(g), where the first two mostly look at one number of each group if no child has the name;
/// `write_cpus` and `write_mems` O(1) where the group is newer than each group with children, else O(g); `set_online`
/// O(g), and where one CPU goes or comes, for most groups by a few tests of single CPUs.
#[derive(Drop)]
pub struct Tree {
    alloc: Global,
    groups: Slab<Cgroup>,
    // The keys of the groups, the newest first.
    order: VecDeque<usize>,
    // The mark of the group under each key.
    marks: Vec<u32>,
    root: Group,
    // No group has a newer parent than the one of this serial.
    newest_parent: u64,
    online: IdSet,
    nodes: IdSet,
    next_serial: u64,
}

impl Model for Tree {
    ghost use Rattle.cpuset_tree.specs.TreeState.{TreeState, tree_code};

    ghost Value = { TreeState };

    ghost coded = { tree_code };

    ghost use Rattle.cpuset_tree.specs.Kept.{entries_kept, IsSound, AreParentsUpTo, AreMarked};

    ghost view = { λ t. record {
      groups = entries_kept t.groups t.order.items;
      online = t.online;
      nodes = t.nodes;
      next_serial = t.next_serial;
    } };

    ghost invariant = { λ t. IsSound t.groups t.order.items t.online t.nodes t.root t.next_serial
        × AreParentsUpTo t.groups t.newest_parent × AreMarked t.groups t.marks.items };
}

impl Tree {
    ghost use Rattle.cpuset_tree.specs.Kept.{IsKeptOf, top_of, unrequested, with_request};

    /// A tree of its root alone, which has the first serial and all of these CPUs and nodes in effect.
    ///
    /// # Errors
    /// An allocation failure.
    pub fn new(
        alloc: Global,
        online: IdSet,
        nodes: IdSet,
        first_serial: u64,
    ) -> Result<Tree, AllocError>
        requires { first_serial < SERIAL_LIMIT }
        ensures { IfOk result (IsFirstTree online nodes first_serial) }
    {
        let mut groups = Slab::new(alloc);
        let mut order = VecDeque::new(alloc);
        let shares = Box::new(alloc, Shares::unrequested(online, nodes))?;
        groups.reserve(1)?;
        let key = groups.vacant_key();
        order.push_front(key)?;
        let root = Group {
            key,
            serial: first_serial,
        };
        groups.insert_reserved(Cgroup {
            group: root,
            parent: None,
            name: String::new(alloc),
            shares,
        });
        Ok(Tree {
            alloc,
            groups,
            order,
            marks: Vec::new(alloc),
            root,
            newest_parent: 0,
            online,
            nodes,
            next_serial: first_serial + 1,
        })
    }

    /// The group that has no parent.
    pub fn root(&self) -> Group
        ensures root { root_of self.now ≡ Some result }
        ensures well_formed { IsWellFormed self.now }
        ensures path { RunsUpThePath self.now }
    {
        self.root
    }

    /// The CPUs that are online.
    pub fn online(&self) -> IdSet
        ensures { result ≡ self.now.online }
    {
        self.online
    }

    /// All memory nodes.
    pub fn nodes(&self) -> IdSet
        ensures { result ≡ self.now.nodes }
    {
        self.nodes
    }

    /// Whether the group is in the tree.
    pub fn contains(&self, group: Group) -> bool
        ensures { result ≡ has_group self.now group }
    {
        self.cgroup(group).is_some()
    }

    fn cgroup(&self, group: Group) -> Option<&Cgroup>
        ensures { IsKeptOf self.now group (option_copied result) }
    {
        match self.groups.get(group.key) {
            Some(kept) if kept.group == group => Some(kept),
            _ => None,
        }
    }

    fn child(&self, parent: Group, name: &str) -> Option<Group>
        ensures { result ≡ child_of self.now parent name.now }
    {
        if !has_mark(self.marks.as_slice(), mark_of(parent, name)) {
            return None;
        }
        let (newer, older) = self.order.as_slices();
        match child_among(&self.groups, newer, parent, name) {
            Some(group) => Some(group),
            None => child_among(&self.groups, older, parent, name),
        }
    }

    fn has_children(&self, group: Group) -> bool
        ensures { result ≡ has_children self.now group }
    {
        for place in 0..self.order.len() {
            if let Some(kept) = self.groups.get(self.order[place]) {
                if kept.is_child_of(group) {
                    return true;
                }
            }
        }
        false
    }

    /// Makes a group below the parent, which requests nothing and so has all of its parent's in effect.
    ///
    /// # Errors
    /// In this order: [`TreeFault::NoGroup`], [`TreeFault::Exists`], [`TreeFault::NoSerials`].
    pub fn make(&mut self, parent: Group, name: &str) -> Result<Group, OrMemory<TreeFault>>
        ensures { Makes self.old parent name.now result self.new }
    {
        self.makable(parent, name)?;
        let Some(above) = self.cgroup(parent) else {
            unreachable!()
        };
        let shares = Shares::unrequested(above.shares.cpus.effective, above.shares.mems.effective);
        let name = String::from_str(self.alloc, name)?;
        Ok(self.add(parent, name, shares)?)
    }

    /// Whether a group can be made, or why not.
    ///
    /// # Errors
    /// In this order: [`TreeFault::NoGroup`], [`TreeFault::Exists`], [`TreeFault::NoSerials`].
    pub fn makable(&self, parent: Group, name: &str) -> Result<(), TreeFault>
        ensures { MatchResult result (λ _. make_refusal self.now parent name.now ≡ None)
            (λ fault. make_refusal self.now parent name.now ≡ Some fault) }
    {
        if !self.contains(parent) {
            return Err(TreeFault::NoGroup);
        }
        if self.child(parent, name).is_some() {
            return Err(TreeFault::Exists);
        }
        if self.next_serial == SERIAL_LIMIT {
            return Err(TreeFault::NoSerials);
        }
        Ok(())
    }

    /// The parent and the name of a group that is there and is not the root.
    pub fn place(&self, group: Group) -> Option<(Group, &str)>
        ensures { place_behind result ≡ place_of self.now group }
    {
        let kept = self.cgroup(group)?;
        let parent = kept.parent?;
        Some((parent, kept.name.as_str()))
    }

    /// Adds a group that has in effect what its parent has.
    fn add(&mut self, parent: Group, name: String, shares: Shares) -> Result<Group, AllocError>
        requires serial { self.old.next_serial < SERIAL_LIMIT }
        requires parent { has_group self.old parent ≡ true }
        requires cpus { shares.cpus ≡ unrequested (effective_cpus self.old parent) }
        requires mems { shares.mems ≡ unrequested (effective_mems self.old parent) }
        ensures ok { IfOk result (λ g. AddsGroup self.old parent (string_bytes name) g self.new) }
        ensures err { OnErr result (self.new ≡ self.old) }
    {
        let shares = Box::new(self.alloc, shares)?;
        self.groups.reserve(1)?;
        let group = Group {
            key: self.groups.vacant_key(),
            serial: self.next_serial,
        };
        note_mark(&mut self.marks, group.key, mark_of(parent, name.as_str()))?;
        self.order.push_front(group.key)?;
        self.groups.insert_reserved(Cgroup {
            group,
            parent: Some(parent),
            name,
            shares,
        });
        self.newest_parent = self.newest_parent.max(parent.serial);
        self.next_serial += 1;
        Ok(group)
    }

    /// Removes a group, whose handle is stale from then on.
    ///
    /// # Errors
    /// In this order: [`TreeFault::NoGroup`], [`TreeFault::IsRoot`], [`TreeFault::HasChildren`].
    pub fn remove(&mut self, group: Group) -> Result<(), TreeFault>
        ensures { Decides (remove_refusal self.old group) (λ _ new. new
            ≡ without_group self.old group) self.old result self.new }
    {
        self.removable(group)?;
        self.take(group);
        Ok(())
    }

    /// Whether a group can be removed, or why not.
    ///
    /// # Errors
    /// In this order: [`TreeFault::NoGroup`], [`TreeFault::IsRoot`], [`TreeFault::HasChildren`].
    pub fn removable(&self, group: Group) -> Result<(), TreeFault>
        ensures { MatchResult result (λ _. remove_refusal self.now group ≡ None) (λ fault. remove_refusal self.now group
            ≡ Some fault) }
    {
        let kept = self.cgroup(group).ok_or(TreeFault::NoGroup)?;
        if kept.parent.is_none() {
            return Err(TreeFault::IsRoot);
        }
        if self.has_children(group) {
            return Err(TreeFault::HasChildren);
        }
        Ok(())
    }

    /// Takes out a group that has no children and is not the root.
    fn take(&mut self, group: Group)
        requires there { has_group self.old group ≡ true }
        requires child { is_root self.old group ≡ false }
        requires childless { has_children self.old group ≡ false }
        ensures { self.new ≡ without_group self.old group }
    {
        let _ = self.groups.try_remove(group.key);
        forget_mark(&mut self.marks, group.key);
        self.order.retain(|key| *key != group.key);
    }

    /// Writes the CPUs that a group requests, and brings it and what is below it up to date.
    ///
    /// # Errors
    /// In this order: [`TreeFault::NoGroup`], [`TreeFault::IsRoot`].
    pub fn write_cpus(&mut self, group: Group, cpus: IdSet) -> Result<(), TreeFault>
        ensures { Decides (write_refusal self.old group) (λ _ new. new
            ≡ with_cpus self.old group cpus) self.old result self.new }
    {
        self.writable(group)?;
        self.request(group, Resource::Cpus, cpus);
        Ok(())
    }

    /// Writes the memory nodes that a group requests, and brings it and what is below it up to date.
    ///
    /// # Errors
    /// In this order: [`TreeFault::NoGroup`], [`TreeFault::IsRoot`].
    pub fn write_mems(&mut self, group: Group, mems: IdSet) -> Result<(), TreeFault>
        ensures { Decides (write_refusal self.old group) (λ _ new. new
            ≡ with_mems self.old group mems) self.old result self.new }
    {
        self.writable(group)?;
        self.request(group, Resource::Mems, mems);
        Ok(())
    }

    fn writable(&self, group: Group) -> Result<(), TreeFault>
        ensures { MatchResult result (λ _. write_refusal self.now group ≡ None) (λ fault. write_refusal self.now group
            ≡ Some fault) }
    {
        match self.cgroup(group) {
            None => Err(TreeFault::NoGroup),
            Some(kept) if kept.parent.is_none() => Err(TreeFault::IsRoot),
            Some(_) => Ok(()),
        }
    }

    /// What the root has in effect of a resource.
    fn whole(&self, resource: Resource) -> IdSet
        ensures { result ≡ top_of resource self.now.online self.now.nodes }
    {
        match resource {
            Resource::Cpus => self.online,
            Resource::Mems => self.nodes,
        }
    }

    /// Writes what a group requests of a resource, and brings the groups up to date that this can change.
    fn request(&mut self, group: Group, resource: Resource, ids: IdSet)
        requires { has_group self.old group ≡ true }
        ensures { self.new ≡ with_request resource self.old group ids }
    {
        let top = self.whole(resource);
        request_at(&mut self.groups, group.key, resource, ids);
        refresh_written(
            &mut self.groups,
            &self.order,
            self.newest_parent,
            resource,
            &top,
            group,
        );
    }

    /// Says which CPUs are online from now on, and brings all groups up to date; what they request stays.
    pub fn set_online(&mut self, online: IdSet)
        ensures { self.new ≡ with_online self.old online }
    {
        let was = self.online;
        self.online = online;
        let oldest = self.root.serial;
        refresh_online(&mut self.groups, &self.order, &was, &self.online, oldest);
    }

    /// The CPUs that a group requests.
    ///
    /// # Errors
    /// [`TreeFault::NoGroup`].
    pub fn cpus(&self, group: Group) -> Result<&IdSet, TreeFault>
        ensures { behind result ≡ read_of self.now group (requested_cpus self.now group) }
    {
        let kept = self.cgroup(group).ok_or(TreeFault::NoGroup)?;
        Ok(&kept.shares.cpus.requested)
    }

    /// The CPUs that a group has in effect.
    ///
    /// # Errors
    /// [`TreeFault::NoGroup`].
    pub fn effective_cpus(&self, group: Group) -> Result<&IdSet, TreeFault>
        ensures { behind result ≡ read_of self.now group (effective_cpus self.now group) }
    {
        let kept = self.cgroup(group).ok_or(TreeFault::NoGroup)?;
        Ok(&kept.shares.cpus.effective)
    }

    /// The memory nodes that a group requests.
    ///
    /// # Errors
    /// [`TreeFault::NoGroup`].
    pub fn mems(&self, group: Group) -> Result<&IdSet, TreeFault>
        ensures { behind result ≡ read_of self.now group (requested_mems self.now group) }
    {
        let kept = self.cgroup(group).ok_or(TreeFault::NoGroup)?;
        Ok(&kept.shares.mems.requested)
    }

    /// The memory nodes that a group has in effect.
    ///
    /// # Errors
    /// [`TreeFault::NoGroup`].
    pub fn effective_mems(&self, group: Group) -> Result<&IdSet, TreeFault>
        ensures { behind result ≡ read_of self.now group (effective_mems self.now group) }
    {
        let kept = self.cgroup(group).ok_or(TreeFault::NoGroup)?;
        Ok(&kept.shares.mems.effective)
    }

    /// The group's child of this name, if it has one.
    ///
    /// # Errors
    /// [`TreeFault::NoGroup`].
    pub fn find(&self, parent: Group, name: &str) -> Result<Option<Group>, TreeFault>
        ensures { result ≡ read_of self.now parent (child_of self.now parent name.now) }
    {
        match self.cgroup(parent) {
            None => Err(TreeFault::NoGroup),
            Some(_) => Ok(self.child(parent, name)),
        }
    }
}
