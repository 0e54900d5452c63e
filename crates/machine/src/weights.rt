//! What CPUs weigh for a container: how far their nodes are from the nearest of its homes.
ghost use Rattle.std.specs.Prelude.{◌≡◌, ℕ, ◌<◌, ◌&&◌};
ghost use Rattle.std.specs.Prelude.{nat_lt, length};
ghost use Rattle.std.specs.FinSet as set;
ghost use Rattle.machine.specs.Layout.{node_count, distance};
ghost use Rattle.machine.specs.Present.{present, IsPresent};
ghost use Rattle.machine.specs.Weight.{weight, IsWeight, AreHomes, AreWeights};
ghost use Rattle.machine.specs.Lowered.{AreLocal, AreLowered};
ghost use Rattle.machine.specs.declared.TheConstants.{NODE_LIMIT};
ghost use Rattle.machine.specs.IsSound.{IsSound};

use crate::{LOCAL, Machine, NODE_LIMIT, UNREACHABLE};
use cpu_set::IdSet;

impl Machine {
    /// The weight of the CPU for a container with these home nodes: the least of the distances from the CPU's node to a
    /// home. It is [`UNREACHABLE`] if there is no way to any of them. O(n) of n nodes.
    #[tactic(auto, unfolding(crate::proofs::WeightLaws::least_below))]
    pub fn weight(&self, homes: &IdSet, cpu: u16) -> u8
        requires present { IsPresent self.now cpu }
        requires homes { AreHomes self.now homes.now }
        ensures is { result ≡ weight self.now homes.now cpu }
        ensures least { IsWeight self.now homes.now cpu result }
    {
        let node = self.node_of(cpu);
        let mut least = UNREACHABLE;
        for home in 0..self.count() {
            if homes.contains(home as u16) {
                least = least.min(self.distance(node, home));
            }
        }
        least
    }

    /// The weight of each node's CPUs for a container with these home nodes, node 0 first, and behind the
    /// nodes [`UNREACHABLE`].
    ///
    /// O(n * h) of n nodes and h homes, and O(n) where each node is a home.
    pub fn weights(&self, homes: &IdSet) -> [u8; NODE_LIMIT]
        requires { AreHomes self.now homes.now }
        ensures weights { AreWeights self.now homes.now result }
        ensures sound { IsSound self.now }
    {
        if self.nodes().is_subset(homes) {
            return self.local_weights();
        }
        self.least_weights(homes)
    }

    /// The weights where each node is a home.
    fn local_weights(&self) -> [u8; NODE_LIMIT]
        ensures { AreLocal (node_count self.now) result }
    {
        let mut local = [UNREACHABLE; NODE_LIMIT];
        for node in 0..self.count() {
            local[node] = LOCAL;
        }
        local
    }

    /// The weights, each the least of the distances to the homes.
    #[tactic(auto, unfolding(crate::proofs::WeightLaws::least_below))]
    fn least_weights(&self, homes: &IdSet) -> [u8; NODE_LIMIT]
        requires { AreHomes self.now homes.now }
        ensures { AreWeights self.now homes.now result }
    {
        let mut least = [UNREACHABLE; NODE_LIMIT];
        for home in 0..self.count() {
            if homes.contains(home as u16) {
                self.lower(home, &mut least);
            }
        }
        least
    }

    /// Lowers the weight of each node to its distance to this home, where that is less.
    fn lower(&self, home: usize, least: &mut [u8; NODE_LIMIT])
        requires home { home < node_count self.now }
        requires room { length least.old ≡ NODE_LIMIT }
        ensures { AreLowered self.now home least.old least.new (node_count self.now) }
    {
        for i in 0..self.count() {
            least[i] = least[i].min(self.distance(i, home));
        }
    }

    /// The present CPUs with a way to one of these home nodes.
    ///
    /// O(n * h) of n nodes and h homes, and O(n) where each node is a home.
    pub fn in_reach(&self, homes: &IdSet) -> IdSet
        requires { AreHomes self.now homes.now }
        // These weigh less than 255.
        ensures { (c : ℕ) → set.contains result c
            ≡ (set.contains (present self.now) c && nat_lt (weight self.now homes.now c) 255) }
    {
        let weights = self.weights(homes);
        let mut reach = self.union();
        for i in 0..self.count() {
            if weights[i] >= UNREACHABLE {
                reach = reach.minus(&self.cpus_at(i));
            }
        }
        reach
    }
}
