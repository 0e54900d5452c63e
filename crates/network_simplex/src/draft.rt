//! What the tree comes to: who holds how many CPUs of which class, with values and prices.

use crate::arcs::Arcs;
use crate::pivots::{hang_parts, pivot_all};
use crate::tree::{Tree, number_of};
use certificate::Row;
use cpu_set::IdSet;
use std::alloc::{AllocError, Global};
use twins::{Holders, Share};

/// A plan of classes with its dual variables, of which nothing is known.
#[derive(Drop)]
pub(crate) struct Draft {
    pub holdings: Vec<Holders>,
    pub values: Vec<u64>,
    pub prices: Vec<u64>,
}

/// What network simplex comes to; nothing where a row lacks CPUs.
pub(crate) fn draft_plan(
    alloc: Global,
    rows: &[Row],
    classes: &[IdSet],
) -> Result<Option<Draft>, AllocError> {
    let arcs = Arcs::new(alloc, rows, classes)?;
    let mut tree = Tree::new(alloc, rows, classes)?;
    pivot_all(&mut tree, &arcs);
    if lacks_some(&tree) {
        return Ok(None);
    }
    hang_parts(&mut tree, &arcs);
    let holdings = holdings_of(alloc, &tree, classes.len())?;
    let values = below_root(alloc, &tree, 0, rows.len())?;
    let prices = below_root(alloc, &tree, rows.len().wrapping_add(1), classes.len())?;
    Ok(Some(Draft {
        holdings,
        values,
        prices,
    }))
}

/// Whether a row hangs by the root with CPUs that nobody gives.
fn lacks_some(tree: &Tree) -> bool {
    for row in 0..tree.root {
        let node = tree.node(row);
        if node.parent == tree.root && node.flow > 0 {
            return true;
        }
    }
    false
}

/// The shares of each class, by the arcs of the tree.
fn holdings_of(alloc: Global, tree: &Tree, classes: usize) -> Result<Vec<Holders>, AllocError> {
    let mut holdings = Vec::with_capacity(alloc, classes)?;
    for _ in 0..classes {
        holdings.push(Holders {
            shares: Vec::new(alloc),
        })?;
    }
    for row in 0..tree.root {
        let node = tree.node(row);
        add_share(&mut holdings, tree, node.parent, row, node.flow)?;
    }
    for class in 0..classes {
        let at = tree.node_of(class);
        let node = tree.node(at);
        if node.parent < tree.root {
            add_share(&mut holdings, tree, at, node.parent, node.flow)?;
        }
    }
    Ok(holdings)
}

/// Adds a share of the class of this node, if it is one and there is something to share.
fn add_share(
    holdings: &mut Vec<Holders>,
    tree: &Tree,
    node: u32,
    row: u32,
    amount: u32,
) -> Result<(), AllocError> {
    if amount == 0 || !tree.is_class(node) {
        return Ok(());
    }
    let class = node.wrapping_sub(tree.root).wrapping_sub(1);
    if let Some(holders) = holdings.get_mut(class as usize) {
        holders.shares.push(Share {
            row: row as usize,
            amount,
        })?;
    }
    Ok(())
}

/// How far the potentials of some nodes are below the root's.
fn below_root(
    alloc: Global,
    tree: &Tree,
    first: usize,
    count: usize,
) -> Result<Vec<u64>, AllocError> {
    let mut amounts = Vec::with_capacity(alloc, count)?;
    for k in 0..count {
        let node = number_of(first.wrapping_add(k));
        let below = tree.potential(tree.root).wrapping_sub(tree.potential(node));
        amounts.push(if below > 0 { below as u64 } else { 0 })?;
    }
    Ok(amounts)
}
