//! The nodes in the order of their weights.
ghost use Rattle.std.specs.Prelude.{◌≡◌, ℕ, ◌<◌, ◌≤◌, ◌&&◌, ◌==◌, nat_lt, length, slice_index_or};
ghost use Rattle.std.specs.FinSet as set;
ghost use Rattle.machine.specs.Layout.{node_count};
ghost use Rattle.machine.specs.Nodes.{node_of};
ghost use Rattle.machine.specs.Present.{present};
ghost use Rattle.machine.specs.declared.TheConstants.{NODE_LIMIT};
ghost use Rattle.rows.specs.Chains.{AreChains};

use cpu_set::IdSet;
use machine::{Machine, NODE_LIMIT, UNREACHABLE};

/// The weight of each node, and the nodes of each weight as a chain: the last of them, and for each the
/// one before it. A node is named by its number and one; 0 ends a chain.
#[derive(Clone, Copy)]
pub(crate) struct Chains {
    pub weights: [u8; NODE_LIMIT],
    pub last: [u8; UNREACHABLE as usize],
    pub next: [u8; NODE_LIMIT],
}

/// Chains the nodes, given their weights; one that can't be reached is in no chain.
pub(crate) fn chains_of(weights: [u8; NODE_LIMIT]) -> Chains
    requires { length weights ≡ NODE_LIMIT }
    ensures weights { result.weights ≡ weights }
    ensures chains { AreChains weights result.last result.next NODE_LIMIT }
{
    let mut last = [0; UNREACHABLE as usize];
    let mut next = [0; NODE_LIMIT];
    for node in 0..NODE_LIMIT {
        let weight = weights[node];
        if weight < UNREACHABLE {
            next[node] = last[weight as usize];
            last[weight as usize] = node as u8 + 1;
        }
    }
    Chains {
        weights,
        last,
        next,
    }
}

/// The greater of two weights, where the other is one at which a node can be reached.
fn farther(weight: u8, other: u8) -> u8
    requires { weight < 255 }
    ensures below { result < 255 }
    ensures least { weight ≤ result }
    ensures most { other < 255 → other ≤ result }
{
    if other < UNREACHABLE && other > weight {
        other
    } else {
        weight
    }
}

impl Chains {
    /// The greatest weight at which a node can be reached, 0 where none can.
    pub fn farthest(&self) -> u8
        requires { length self.now.weights ≡ NODE_LIMIT }
        ensures below { result < 255 }
        ensures most { (k : ℕ) → slice_index_or self.now.weights k 255 < 255
            → slice_index_or self.now.weights k 255 ≤ result }
    {
        let mut farthest = 0;
        for node in 0..NODE_LIMIT {
            farthest = farther(farthest, self.weights[node]);
        }
        farthest
    }

    /// Whether one of the nodes has this weight.
    pub fn has(&self, weight: u8) -> bool
        requires weight { weight < 255 }
        requires chains { AreChains self.now.weights self.now.last self.now.next NODE_LIMIT }
        ensures { result ≡ nat_lt 0 (slice_index_or self.now.last weight 0) }
    {
        self.last[weight as usize] > 0
    }

    /// The CPUs of the nodes that have this weight.
    pub fn cpus_at(&self, machine: &Machine, weight: u8) -> IdSet
        requires weight { weight < 255 }
        requires few { node_count machine.now ≤ NODE_LIMIT }
        requires chains { AreChains self.now.weights self.now.last self.now.next NODE_LIMIT }
        requires beyond { (i : ℕ) → node_count machine.now ≤ i → slice_index_or self.now.weights i 255 ≡ 255 }
        ensures { (c : ℕ) → set.contains result c
            ≡ (set.contains (present machine.now) c
            && (slice_index_or self.now.weights (node_of machine.now c) 255 == weight)) }
    {
        let mut cpus = IdSet::empty();
        let mut from = self.last[weight as usize];
        while from > 0 {
            let node = from as usize - 1;
            cpus = cpus.union(&machine.cpus_of(node));
            from = self.next[node];
        }
        cpus
    }
}
