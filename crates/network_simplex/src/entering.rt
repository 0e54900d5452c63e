//! The search for an arc that makes the plan cheaper.

use crate::arcs::{Arc, Arcs};
use crate::tree::{NONE, Tree};

/// An arc outside of the tree, from a row or the root to a class, by their nodes, and its reduced cost.
#[derive(Clone, Copy)]
pub(crate) struct Entering {
    pub row: u32,
    pub class: u32,
    pub reduced: i64,
}

/// Where the search goes on, and how far it goes.
#[derive(Drop)]
pub(crate) struct Search {
    /// The class that is looked at next.
    class: usize,
    /// How much further in the ring of the classes the one behind it is.
    stride: usize,
    /// After so many arcs the best of them is taken, if one is good.
    block: usize,
    /// How many more arcs may be looked at.
    left: usize,
}

impl Search {
    /// A block is from 4 to 9 tenths of the root of the number of arcs, as it does well in practice.
    pub(crate) fn new(arcs: &Arcs, most: usize) -> Search {
        let mut block = 8usize;
        for _ in 0..32 {
            if block.wrapping_mul(block).wrapping_mul(5) < arcs.len() {
                block = block.wrapping_add(block);
            }
        }
        Search {
            class: 0,
            stride: stride_over(arcs.classes()),
            block,
            left: most,
        }
    }

    /// An arc of negative reduced cost: the least of the first block that has one. None: there is none, or the arcs
    /// that may be looked at are used up.
    pub(crate) fn next(&mut self, arcs: &Arcs, tree: &Tree) -> Option<Entering> {
        let mut best = Entering {
            row: NONE,
            class: NONE,
            reduced: 0,
        };
        let mut looked = 0usize;
        for _ in 0..arcs.classes() {
            let among = arcs.of_class(self.class);
            best = cheapest(among, tree, self.class, best);
            looked = looked.wrapping_add(among.len());
            self.class = self.class.wrapping_add(self.stride);
            if self.class >= arcs.classes() {
                self.class = self.class.wrapping_sub(arcs.classes());
            }
            if looked >= self.block {
                self.left = self.left.saturating_sub(looked);
                if best.row != NONE || self.left == 0 {
                    break;
                }
                looked = 0;
            }
        }
        if best.row == NONE { None } else { Some(best) }
    }
}

/// A stride that comes to all of so many classes before it comes to one again: the golden section of their number or a
/// little more, as in Fibonacci hashing (Knuth, 1973). So a few classes in turn are spread over all of them (three-gap
/// theorem).
///
/// Classes next to each other have much the same arcs: with a stride of 1 some nested lists take three times as many
/// pivots, of which each looks at four times as many arcs.
fn stride_over(classes: usize) -> usize {
    let mut stride = classes.wrapping_mul(377) / 610;
    for _ in 0..classes {
        if common_divisor(stride, classes) == 1 {
            break;
        }
        stride = stride.wrapping_add(1);
    }
    stride
}

/// The greatest common divisor (Euclid).
fn common_divisor(a: usize, b: usize) -> usize {
    let (mut a, mut b) = (a, b);
    for _ in 0..b {
        if a == 0 {
            break;
        }
        (a, b) = (b % a, a);
    }
    b
}

/// The arc of least reduced cost to a class, if that is below that of the best one so far.
fn cheapest(among: &[Arc], tree: &Tree, class: usize, best: Entering) -> Entering {
    let node = tree.node_of(class);
    let price = tree.potential(node);
    let (row, least) = cheapest_row(among, tree.potentials(), price.wrapping_add(best.reduced));
    if row == NONE {
        return best;
    }
    Entering {
        row,
        class: node,
        reduced: least.wrapping_sub(price),
    }
}

/// The row with the least sum of its potential and weight, if that is below a limit, and the sum.
fn cheapest_row(among: &[Arc], potentials: &[i64], limit: i64) -> (u32, i64) {
    let mut row = NONE;
    let mut least = limit;
    for arc in among {
        if let Some(potential) = potentials.get(arc.row as usize) {
            let sum = potential.wrapping_add(i64::from(arc.weight));
            if sum < least {
                least = sum;
                row = arc.row;
            }
        }
    }
    (row, least)
}
