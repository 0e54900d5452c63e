//! Pivots: an arc enters the tree, and one of the cycle that it closes leaves.

use crate::arcs::Arcs;
use crate::entering::{Entering, Search};
use crate::tree::{NONE, Tree};

/// How many pivots there are at most for each node.
const PIVOTS_A_NODE: usize = 256;

/// How often each arc is looked at in the mean, at most.
const LOOKS_AN_ARC: usize = 512;

/// Pivots until no arc makes the plan cheaper, or the bounds are reached.
pub(crate) fn pivot_all(tree: &mut Tree, arcs: &Arcs) {
    let mut search = Search::new(arcs, arcs.len().wrapping_mul(LOOKS_AN_ARC));
    for _ in 0..tree.len().wrapping_mul(PIVOTS_A_NODE) {
        let Some(entering) = search.next(arcs, tree) else {
            break;
        };
        pivot(tree, entering);
    }
}

/// Which arc leaves the tree: the child's node, whether it is on the row's way up, where both ways meet, and what
/// flows.
#[derive(Drop)]
struct Leaving {
    node: u32,
    is_on_row_side: bool,
    top: u32,
    amount: u32,
}

/// Lets as much flow over the entering arc as the cycle allows.
fn pivot(tree: &mut Tree, entering: Entering) {
    let leaving = leaving_arc(tree, entering.row, entering.class);
    if leaving.node == NONE {
        return;
    }
    if leaving.amount > 0 {
        let (more, less) = (leaving.amount, 0u32.wrapping_sub(leaving.amount));
        tree.add_flow(entering.row, leaving.top, less, more);
        tree.add_flow(entering.class, leaving.top, more, less);
    }
    let (at, by, more) = if leaving.is_on_row_side {
        (
            entering.row,
            entering.class,
            0i64.wrapping_sub(entering.reduced),
        )
    } else {
        (entering.class, entering.row, entering.reduced)
    };
    tree.hang_anew(leaving.node, at, by, leaving.amount, more);
}

/// The arc of the cycle that has the least flow to give up. Of several it is the last one on the way round, from where
/// both ways meet over the row to the class: so the tree stays strongly feasible, and no pivots go round and round.
fn leaving_arc(tree: &Tree, row: u32, class: u32) -> Leaving {
    let (mut a, mut b) = (row, class);
    let (mut of_row, mut least_of_row) = (NONE, NONE);
    let (mut of_class, mut least_of_class) = (NONE, NONE);
    for _ in 0..tree.len().wrapping_mul(2) {
        if a == b {
            break;
        }
        let (x, y) = (tree.node(a), tree.node(b));
        if x.depth >= y.depth {
            if !tree.is_class(a) && x.flow < least_of_row {
                least_of_row = x.flow;
                of_row = a;
            }
            a = x.parent;
        } else {
            if tree.is_class(b) && y.flow <= least_of_class {
                least_of_class = y.flow;
                of_class = b;
            }
            b = y.parent;
        }
    }
    let is_on_row_side = least_of_row < least_of_class;
    Leaving {
        node: if is_on_row_side { of_row } else { of_class },
        is_on_row_side,
        top: a,
        amount: least_of_row.min(least_of_class),
    }
}

/// Hangs what hangs by the root with nothing, since all CPUs are taken, by its nearest arc, so that no value is that of
/// an unserved row.
pub(crate) fn hang_parts(tree: &mut Tree, arcs: &Arcs) {
    for row in 0..tree.root {
        let node = tree.node(row);
        if node.parent == tree.root && node.flow == 0 {
            hang_part(tree, arcs, row);
        }
    }
}

fn hang_part(tree: &mut Tree, arcs: &Arcs, top: u32) {
    let mut best = Entering {
        row: NONE,
        class: NONE,
        reduced: i64::MAX,
    };
    tree.mark(top);
    for g in 0..arcs.classes() {
        let class = tree.node_of(g);
        if tree.node(class).part == top {
            best = nearest(tree, arcs, g, top, best);
        }
    }
    if best.row != NONE {
        tree.hang_anew(top, best.class, best.row, 0, best.reduced);
    }
}

/// The arc of least reduced cost to a class from outside the part below `top`, if that is below that of the best one.
fn nearest(tree: &Tree, arcs: &Arcs, g: usize, top: u32, best: Entering) -> Entering {
    let mut best = best;
    let class = tree.node_of(g);
    for arc in arcs.of_class(g) {
        let reduced = tree
            .potential(arc.row)
            .wrapping_add(i64::from(arc.weight))
            .wrapping_sub(tree.potential(class));
        if reduced < best.reduced && tree.node(arc.row).part != top {
            best = Entering {
                row: arc.row,
                class,
                reduced,
            };
        }
    }
    best
}
