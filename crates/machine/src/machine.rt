ghost use Rattle.std.specs.Prelude.{◌≡◌, ◌≢◌, ℕ, ◌<◌, ◌↔◌, ◌&&◌, ◌==◌, true};
ghost use Rattle.std.specs.Prelude.{nat_lt};
ghost use Rattle.std.specs.FinSet as set;
ghost use Rattle.machine.specs.Layout.{node_count, cpus_of, distance};
ghost use Rattle.machine.specs.Present.{present, IsPresent};
ghost use Rattle.machine.specs.Nodes.{nodes_of, node_of, IsOfNode};
ghost use Rattle.machine.specs.Weight.{HaveOneWeight};
ghost use Rattle.cpu_set.specs.Members.{InRange};
ghost use Rattle.machine.specs.IsSound.{IsSound};

use cpu_set::IdSet;
use std::marker::Model;

/// The nodes of a machine with their CPUs and distances, its reserved CPUs, and those online at boot.
///
/// There are 1 to [`NODE_LIMIT`](crate::NODE_LIMIT) nodes. No CPU is in two of them, and a node may have
/// none. The reserved CPUs are one or more of those that are online at boot. Which CPUs are present, and the
/// node of each, is worked out once, as the file is read; so are the lowest CPUs of all cores.
#[derive(Debug, Drop)]
pub struct Machine {
    pub(crate) nodes: Vec<IdSet>,
    pub(crate) distances: Vec<u8>,
    pub(crate) reserved: IdSet,
    pub(crate) online: IdSet,
    pub(crate) present: IdSet,
    pub(crate) places: Vec<u16>,
    pub(crate) lowest: Vec<u16>,
    pub(crate) siblings: Vec<u16>,
    pub(crate) firsts: IdSet,
    pub(crate) threads: u32,
}

impl Model for Machine {
    ghost use Rattle.machine.specs.Layout.{Layout, layout_code};
    ghost use Rattle.machine.specs.Index.{IsIndexed};

    ghost Value = { Layout };

    ghost coded = { layout_code };

    ghost view = { λ m. record {
      nodes = m.nodes.items;
      distances = m.distances.items;
      reserved = m.reserved;
      online = m.online;
      lowest = m.lowest.items;
      threads = m.threads;
    } };

    ghost invariant = { λ m. IsIndexed (record {
      nodes = m.nodes.items;
      distances = m.distances.items;
      reserved = m.reserved;
      online = m.online;
      lowest = m.lowest.items;
      threads = m.threads;
    }) m.present m.places.items m.siblings.items m.firsts };
}

impl Machine {
    /// The CPUs of all nodes.
    pub fn present(&self) -> IdSet
        ensures union { result ≡ present self.now }
        ensures each { (cpu : ℕ) → (set.contains result cpu ≡ true) ↔ ((i : ℕ) × IsOfNode self.now cpu i) }
    {
        self.union()
    }

    pub(crate) fn union(&self) -> IdSet
        ensures is { result ≡ present self.now }
        ensures in_range { InRange result }
        ensures sound { IsSound self.now }
    {
        self.present
    }

    pub(crate) fn count(&self) -> usize
        ensures count { result ≡ node_count self.now }
        ensures sound { IsSound self.now }
    {
        self.nodes.len()
    }

    /// The CPUs that are never pinned and can't go offline: at least one, all of them online at boot.
    pub fn reserved(&self) -> IdSet
        ensures reserved { result ≡ self.now.reserved }
        ensures some { result ≢ set.empty }
        ensures online { set.is_subset result self.now.online ≡ true }
        ensures present { set.is_subset result (present self.now) ≡ true }
    {
        self.reserved
    }

    /// The present CPUs that are online when the machine boots.
    pub fn boot_online(&self) -> IdSet
        ensures online { result ≡ self.now.online }
        ensures present { set.is_subset result (present self.now) ≡ true }
    {
        self.online
    }

    /// The numbers of the nodes: 0, 1 and so on.
    pub fn nodes(&self) -> IdSet
        ensures nodes { result ≡ nodes_of self.now }
        ensures each { (n : ℕ) → set.contains result n ≡ nat_lt n (node_count self.now) }
        ensures sound { IsSound self.now }
    {
        let last = self.count() - 1;
        let mut nodes = IdSet::empty();
        nodes.insert_range(0, last as u16);
        nodes
    }

    /// The CPUs of a node, which weigh the same for any homes.
    pub fn cpus_of(&self, node: usize) -> IdSet
        requires { node < node_count self.now }
        ensures is { result ≡ cpus_of self.now node }
        ensures alike { HaveOneWeight self.now result }
        // These are the present CPUs whose node it is.
        ensures members { (c : ℕ) → set.contains result c
            ≡ (set.contains (present self.now) c && (node_of self.now c == node)) }
    {
        self.cpus_at(node)
    }

    pub(crate) fn cpus_at(&self, node: usize) -> IdSet
        requires { node < node_count self.now }
        ensures is { result ≡ cpus_of self.now node }
        ensures sound { IsSound self.now }
    {
        self.nodes[node]
    }

    /// The node that has the CPU.
    pub fn node_of(&self, cpu: u16) -> usize
        requires { IsPresent self.now cpu }
        ensures is { result ≡ node_of self.now cpu }
        ensures node { IsOfNode self.now cpu result }
        ensures only { (i : ℕ) → IsOfNode self.now cpu i → i ≡ result }
    {
        self.node_of_body(cpu)
    }

    fn node_of_body(&self, cpu: u16) -> usize
        requires { IsPresent self.now cpu }
        ensures place { (i : ℕ) → IsOfNode self.now cpu i → result ≡ i }
        ensures sound { IsSound self.now }
    {
        usize::from(self.places[cpu as usize])
    }

    /// The distance from node `i` to node `j`, [`LOCAL`](crate::LOCAL) to [`UNREACHABLE`].
    pub fn distance(&self, i: usize, j: usize) -> u8
        requires i_is_node { i < node_count self.now }
        requires j_is_node { j < node_count self.now }
        ensures is { result ≡ distance self.now i j }
        ensures sound { IsSound self.now }
    {
        let count = self.nodes.len();
        self.distances[i * count + j]
    }
}
