ghost use Rattle.std.specs.Prelude.{◌≡◌, nat_eq, string_bytes};
ghost use Rattle.std.specs.Cmp.Lexicographic.{pointwise};
ghost use Rattle.cpuset_tree.specs.Groups.{child_among, is_parent};
ghost use Rattle.cpuset_tree.specs.Effective.{granted};
ghost use Rattle.cpu_set.specs.Members.{IsCpu};
ghost use Rattle.cpuset_tree.specs.Near.{having};
ghost use Rattle.cpuset_tree.specs.Kept.{ChangesAt, entries_kept, share_of, unrequested};
ghost use Rattle.cpuset_tree.specs.Kept.{with_requested, with_effective, may_change};

use cpu_set::IdSet;
use slab::Slab;

/// A group of a tree: stale once it is removed, since no serial is given twice.
#[derive(Clone, Copy, Debug, PartialEq, Eq)]
pub struct Group {
    /// Where the tree keeps the group; given again after a removal.
    pub key: usize,
    /// Which group of this key it is.
    pub serial: u64,
}

/// What a group has a share of.
#[derive(Clone, Copy)]
pub enum Resource {
    /// The CPUs that are online.
    Cpus,
    /// The memory nodes.
    Mems,
}

/// What a group requests of a resource, and what it has in effect.
#[derive(Clone, Copy)]
pub struct Share {
    pub requested: IdSet,
    pub effective: IdSet,
}

impl Shares {
    /// The shares of a group that requests nothing.
    pub fn unrequested(cpus: IdSet, mems: IdSet) -> Shares
        ensures { result ≡ record { cpus = unrequested cpus; mems = unrequested mems } }
    {
        Shares {
            cpus: Share::unrequested(cpus),
            mems: Share::unrequested(mems),
        }
    }
}

impl Share {
    /// The share of a group that requests nothing.
    fn unrequested(effective: IdSet) -> Share
        ensures { result ≡ unrequested effective }
    {
        Share {
            requested: IdSet::empty(),
            effective,
        }
    }
}

/// A group's share of each resource.
#[derive(Clone, Copy)]
pub struct Shares {
    pub cpus: Share,
    pub mems: Share,
}

/// What a tree keeps of one group. Its sets are kept apart, so that a search for a name does not walk past them.
#[derive(Drop)]
pub struct Cgroup {
    pub group: Group,
    pub parent: Option<Group>,
    pub name: String,
    pub shares: Box<Shares>,
}

impl Cgroup {
    /// Whether the group is one of the parent's children.
    pub fn is_child_of(&self, parent: Group) -> bool
        ensures { result ≡ is_parent self.now.parent parent }
    {
        self.parent == Some(parent)
    }

    /// Whether the group has this name.
    ///
    /// The names below one parent are often as long and begin alike, so the last bytes are compared before the rest.
    pub fn is_named(&self, name: &str) -> bool
        ensures { result ≡ pointwise nat_eq (string_bytes self.now.name) name.now }
    {
        let (own, other) = (self.name.as_bytes(), name.as_bytes());
        own.len() == other.len() && own.last() == other.last() && self.name.as_str() == name
    }

    /// The group's share of a resource.
    pub fn share(&self, resource: Resource) -> &Share
        ensures { result.now ≡ share_of resource self.now }
    {
        match resource {
            Resource::Cpus => &self.shares.cpus,
            Resource::Mems => &self.shares.mems,
        }
    }

    /// Writes what the group requests of a resource.
    pub fn request(&mut self, resource: Resource, ids: IdSet)
        ensures { self.new ≡ with_requested resource ids self.old }
    {
        match resource {
            Resource::Cpus => self.shares.cpus.requested = ids,
            Resource::Mems => self.shares.mems.requested = ids,
        }
    }

    /// Writes what the group has in effect of a resource.
    #[inline(always)]
    pub fn give(&mut self, resource: Resource, ids: IdSet)
        ensures { self.new ≡ with_effective resource ids self.old }
    {
        match resource {
            Resource::Cpus => self.shares.cpus.effective = ids,
            Resource::Mems => self.shares.mems.effective = ids,
        }
    }

    /// Puts a CPU among those in effect, or takes it out.
    pub fn have(&mut self, cpu: u16, has: bool)
        requires { IsCpu cpu }
        ensures { self.new ≡ having cpu has self.old }
    {
        if has {
            self.shares.cpus.effective.insert(cpu);
        } else {
            self.shares.cpus.effective.remove(cpu);
        }
    }

    /// Whether a write of the group of this serial can change what this group has in effect.
    ///
    /// That can be where it is that group, or its parent is no older, since what is below a group is newer.
    pub fn may_change(&self, written: u64) -> bool
        ensures { result ≡ may_change written self.now }
    {
        match self.parent {
            Some(parent) if parent.serial >= written => true,
            _ => self.group.serial == written,
        }
    }
}

/// The parent's child of this name, if it is among the groups of these keys.
pub fn child_among(
    groups: &Slab<Cgroup>,
    keys: &[usize],
    parent: Group,
    name: &str,
) -> Option<Group>
    ensures { result ≡ child_among (entries_kept groups.now keys.now) parent name.now }
{
    for key in keys {
        if let Some(kept) = groups.get(*key) {
            if kept.is_named(name) && kept.is_child_of(parent) {
                return Some(kept.group);
            }
        }
    }
    None
}

/// What a group that requests these has in effect of what its parent has: all of it, where it requests none of it.
#[inline(always)]
pub fn granted_of(requested: &IdSet, above: &IdSet) -> IdSet
    ensures { result ≡ granted requested.now above.now }
{
    let granted = requested.meet(above);
    if granted.is_empty() { *above } else { granted }
}

/// Puts a CPU among those that the group under a key has in effect, or takes it out.
pub fn have_at(groups: &mut Slab<Cgroup>, key: usize, cpu: u16, has: bool)
    requires { IsCpu cpu }
    ensures { ChangesAt groups.old groups.new key (having cpu has) }
{
    if let Some(kept) = groups.get_mut(key) {
        kept.have(cpu, has);
    }
}

/// Writes what the group under a key requests of a resource.
pub fn request_at(groups: &mut Slab<Cgroup>, key: usize, resource: Resource, ids: IdSet)
    ensures { ChangesAt groups.old groups.new key (with_requested resource ids) }
{
    if let Some(kept) = groups.get_mut(key) {
        kept.request(resource, ids);
    }
}
