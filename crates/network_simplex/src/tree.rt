//! The spanning tree: which rows and classes hang by which others, with the flow on each tree arc and the potentials.

use certificate::Row;
use cpu_set::IdSet;
use std::alloc::{AllocError, Global};

/// Stands for no node.
pub(crate) const NONE: u32 = u32::MAX;

/// The number of a node: none is past those of 32 bits.
pub(crate) fn number_of(n: usize) -> u32 {
    if n < NONE as usize { n as u32 } else { NONE }
}

/// What a CPU costs that a row has of nobody. No way through the tree costs as much.
const UNSERVED: i64 = 1 << 38;

/// A row, a class, or the root. A thread goes through all nodes in preorder: behind each one comes what is below it.
#[derive(Clone, Copy)]
pub(crate) struct Node {
    pub parent: u32,
    next: u32,
    before: u32,
    pub depth: u32,
    /// How many CPUs go over the arc to the parent: of a row to it, of a class from it.
    pub flow: u32,
    /// The part of the tree that it was last marked as one of.
    pub part: u32,
}

const NOWHERE: Node = Node {
    parent: NONE,
    next: NONE,
    before: NONE,
    depth: 0,
    flow: 0,
    part: NONE,
};

/// The rows are the first nodes, then comes the root, and then the classes.
#[derive(Drop)]
pub(crate) struct Tree {
    nodes: Vec<Node>,
    potentials: Vec<i64>,
    /// How many rows there are. It is the root's number.
    pub root: u32,
}

impl Tree {
    /// Each row hangs by the root, which gives it nothing, and each class, whose CPUs nobody has.
    pub(crate) fn new(alloc: Global, rows: &[Row], classes: &[IdSet]) -> Result<Tree, AllocError> {
        let count = rows.len().wrapping_add(1).wrapping_add(classes.len());
        let mut tree = Tree {
            nodes: vec![in alloc; NOWHERE; count]?,
            potentials: vec![in alloc; 0i64; count]?,
            root: number_of(rows.len()),
        };
        for (k, row) in rows.iter().enumerate() {
            tree.hang_first(number_of(k), row.demand, 0i64.wrapping_sub(UNSERVED));
        }
        for (g, cpus) in classes.iter().enumerate() {
            let node = tree.node_of(g);
            tree.hang_first(node, cpus.count(), 0);
        }
        Ok(tree)
    }

    /// How many nodes there are.
    pub(crate) fn len(&self) -> usize {
        self.nodes.len()
    }

    /// The node of a class.
    pub(crate) fn node_of(&self, class: usize) -> u32 {
        number_of(class).wrapping_add(self.root).wrapping_add(1)
    }

    pub(crate) fn is_class(&self, node: u32) -> bool {
        node > self.root
    }

    pub(crate) fn node(&self, at: u32) -> Node {
        match self.nodes.get(at as usize) {
            Some(node) => *node,
            None => NOWHERE,
        }
    }

    pub(crate) fn potential(&self, at: u32) -> i64 {
        match self.potentials.get(at as usize) {
            Some(potential) => *potential,
            None => 0,
        }
    }

    /// The potentials of all nodes, those of the rows first.
    pub(crate) fn potentials(&self) -> &[i64] {
        self.potentials.as_slice()
    }

    fn hang_first(&mut self, at: u32, flow: u32, potential: i64) {
        self.put_behind(self.root, at, at);
        if let Some(node) = self.nodes.get_mut(at as usize) {
            node.parent = self.root;
            node.depth = 1;
            node.flow = flow;
        }
        if let Some(place) = self.potentials.get_mut(at as usize) {
            *place = potential;
        }
    }

    /// Puts a piece of thread behind a node.
    fn put_behind(&mut self, at: u32, first: u32, last: u32) {
        let next = self.node(at).next;
        self.link(at, first);
        self.link(last, next);
    }

    /// Makes two nodes neighbours on the thread.
    fn link(&mut self, before: u32, next: u32) {
        if let Some(node) = self.nodes.get_mut(before as usize) {
            node.next = next;
        }
        if let Some(node) = self.nodes.get_mut(next as usize) {
            node.before = before;
        }
    }

    /// Hangs the part of the tree below `leaving` by another arc: from `at`, one of its nodes, to a node outside of it.
    /// Adds to the potential of each node of the part.
    pub(crate) fn hang_anew(&mut self, leaving: u32, at: u32, by: u32, amount: u32, more: i64) {
        let top = at;
        let (mut at, mut parent, mut flow) = (at, by, amount);
        let mut last = NONE;
        for _ in 0..self.nodes.len() {
            let before = self.node(at);
            let end = self.take_off(at, more, self.node(parent).depth.wrapping_add(1));
            self.link(last, at);
            last = end;
            if let Some(node) = self.nodes.get_mut(at as usize) {
                node.parent = parent;
                node.flow = flow;
            }
            if at == leaving {
                break;
            }
            parent = at;
            flow = before.flow;
            at = before.parent;
        }
        self.put_behind(by, top, last);
    }

    /// Takes a node and all below it off the thread. Adds to the potential of each, and moves `top` to this depth.
    /// Returns the last of them.
    fn take_off(&mut self, top: u32, more: i64, depth: u32) -> u32 {
        let before = self.node(top);
        let deeper = depth.wrapping_sub(before.depth);
        let mut last = top;
        let mut next = Some(top);
        for _ in 0..self.nodes.len() {
            let Some(at) = next else {
                break;
            };
            self.shift(at, more, deeper);
            last = at;
            next = self.next_below(at, before.depth);
        }
        self.link(before.before, self.node(last).next);
        last
    }

    /// The node behind this one on the thread, if it is deeper: the next one of all below a node of this depth.
    fn next_below(&self, at: u32, depth: u32) -> Option<u32> {
        let next = self.node(at).next;
        if self.node(next).depth > depth {
            Some(next)
        } else {
            None
        }
    }

    /// Adds to the potential of a node and to its depth.
    fn shift(&mut self, at: u32, more: i64, deeper: u32) {
        if let Some(potential) = self.potentials.get_mut(at as usize) {
            *potential = potential.wrapping_add(more);
        }
        if let Some(node) = self.nodes.get_mut(at as usize) {
            node.depth = node.depth.wrapping_add(deeper);
        }
    }

    /// Marks a node and all below it as of the part that is named after it.
    pub(crate) fn mark(&mut self, top: u32) {
        let depth = self.node(top).depth;
        let mut next = Some(top);
        for _ in 0..self.nodes.len() {
            let Some(at) = next else {
                break;
            };
            if let Some(node) = self.nodes.get_mut(at as usize) {
                node.part = top;
            }
            next = self.next_below(at, depth);
        }
    }

    /// Adds to the flow on the way from a node up to another one: to what rows give and to what classes get.
    pub(crate) fn add_flow(&mut self, from: u32, to: u32, of_rows: u32, of_classes: u32) {
        let mut at = from;
        for _ in 0..self.nodes.len() {
            if at == to {
                break;
            }
            let more = if self.is_class(at) {
                of_classes
            } else {
                of_rows
            };
            at = match self.nodes.get_mut(at as usize) {
                Some(node) => {
                    node.flow = node.flow.wrapping_add(more);
                    node.parent
                }
                None => to,
            };
        }
    }
}
