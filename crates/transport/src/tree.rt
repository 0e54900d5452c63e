//! The tree of one search: the rows that are reached, and the classes by which they are.
ghost use Rattle.std.specs.Prelude.{ℕ, ◌<◌, IfOk, OnOk, ◌≡◌, false, length, true};
ghost use Rattle.transport.specs.Settled.{IsFresh, IsTidy, AreNoneTaken};
ghost use Rattle.transport.specs.Numbers.{IsEachOnce, IsListing, number, is_marked, IsIn};
ghost use Rattle.transport.specs.Shares.{AllBelow, holders_of};
ghost use Rattle.transport.specs.ReachedRows.{IsReachedRows, IsUnreached, IsReached, IsGrown, bottleneck};
ghost use Rattle.transport.specs.States.{IsTakenUp};

use crate::labels::{Labels, NEVER};
use std::alloc::{AllocError, Global};
use twins::Share;

/// One search, and after it the next.
#[derive(Debug, Drop)]
pub(crate) struct SearchTree {
    pub(crate) reached_rows: ReachedRows,
    pub(crate) labels: Labels,
    pub(crate) tree_classes: TreeClasses,
    /// The classes that were nearest in the last step.
    pub(crate) nearest: Vec<usize>,
}

impl SearchTree {
    /// The tree before the first search.
    pub(crate) fn new(alloc: Global, rows: usize, classes: usize) -> Result<SearchTree, AllocError>
        ensures { IfOk result (IsTidy rows classes) }
    {
        let reached_rows = ReachedRows::new(alloc, rows)?;
        let of_class = vec![in alloc; None; classes]?;
        let due = vec![in alloc; NEVER; classes]?;
        let taken = vec![in alloc; false; classes]?;
        Ok(SearchTree {
            reached_rows,
            labels: Labels {
                of_class,
                due,
                labelled: Vec::new(alloc),
                free_end: None,
            },
            tree_classes: TreeClasses {
                taken,
                order: Vec::new(alloc),
            },
            nearest: Vec::new(alloc),
        })
    }

    /// Begins a search: its root alone is reached.
    ///
    /// Only what the last search reached, labelled or took up is cleared.
    pub(crate) fn start(&mut self, root: usize, bottleneck: u32) -> Result<(), AllocError>
        requires { (rows classes : ℕ) × IsTidy rows classes self.old × (root < rows) }
        ensures { OnOk result ((rows classes : ℕ) → IsTidy rows classes self.old → root < rows
            → IsFresh rows classes root bottleneck self.new) }
    {
        self.reached_rows.clear();
        self.labels.clear(&self.tree_classes.order);
        self.tree_classes.clear();
        self.reached_rows.reach(root, 0, bottleneck)?;
        Ok(())
    }
}

/// The rows that a search has reached, in their order, and how.
#[derive(Debug, Drop)]
pub(crate) struct ReachedRows {
    pub(crate) reached: Vec<bool>,
    pub(crate) order: Vec<usize>,
    /// The class through which each row was reached.
    pub(crate) parent_class: Vec<usize>,
    /// How many CPUs can be moved along the path to each row.
    pub(crate) bottleneck: Vec<u32>,
    /// The index of each row in the order.
    pub(crate) index: Vec<usize>,
}

impl ReachedRows {
    /// The state in which no row is reached.
    pub(crate) fn new(alloc: Global, rows: usize) -> Result<ReachedRows, AllocError>
        ensures { IfOk result (IsUnreached rows) }
    {
        let reached = vec![in alloc; false; rows]?;
        let parent_class = vec![in alloc; 0usize; rows]?;
        let bottleneck = vec![in alloc; 0u32; rows]?;
        let index = vec![in alloc; 0usize; rows]?;
        Ok(ReachedRows {
            reached,
            order: Vec::new(alloc),
            parent_class,
            bottleneck,
            index,
        })
    }

    /// Forgets the rows that are reached.
    pub(crate) fn clear(&mut self)
        requires { (rows : ℕ) × IsReachedRows rows self.old }
        ensures { (rows : ℕ) → IsReachedRows rows self.old → IsUnreached rows self.new }
    {
        unmark(&mut self.reached, &self.order);
        self.order.clear();
    }

    /// Reaches a row through a class.
    pub(crate) fn reach(
        &mut self,
        row: usize,
        class: usize,
        bottleneck: u32,
    ) -> Result<(), AllocError>
        requires reached { row < length self.old.reached.items }
        requires parent_class { row < length self.old.parent_class.items }
        requires bottlenecks { row < length self.old.bottleneck.items }
        requires indices { row < length self.old.index.items }
        ensures { OnOk result (IsReached self.old self.new row class bottleneck) }
    {
        let index = self.order.len();
        self.order.push(row)?;
        self.reached[row] = true;
        self.parent_class[row] = class;
        self.bottleneck[row] = bottleneck;
        self.index[row] = index;
        Ok(())
    }
}

/// Reaches the rows that hold some of a class.
pub(crate) fn reach_holders(
    reached_rows: &mut ReachedRows,
    shares: &[Share],
    class: usize,
    bottleneck: u32,
) -> Result<(), AllocError>
    requires reached_rows { IsReachedRows (length reached_rows.old.reached.items) reached_rows.old }
    requires rows { AllBelow (length reached_rows.old.reached.items) shares.now }
    requires once { IsEachOnce (holders_of shares.now) }
    requires bottleneck { 0 < bottleneck }
    ensures reached_rows { OnOk result (IsReachedRows (length reached_rows.old.reached.items) reached_rows.new) }
    ensures grown { OnOk result (IsGrown reached_rows.old reached_rows.new class bottleneck shares.now shares.now) }
{
    for share in shares {
        if share.amount > 0 && !reached_rows.reached[share.row] {
            reached_rows.reach(share.row, class, bottleneck.min(share.amount))?;
        }
    }
    Ok(())
}

/// The classes that a search has taken up, in their order.
#[derive(Debug, Drop)]
pub(crate) struct TreeClasses {
    pub(crate) taken: Vec<bool>,
    pub(crate) order: Vec<usize>,
}

impl TreeClasses {
    /// Forgets the classes that are taken up.
    pub(crate) fn clear(&mut self)
        requires { IsListing self.old.order.items self.old.taken.items }
        ensures { AreNoneTaken (length self.old.taken.items) self.new }
    {
        unmark(&mut self.taken, &self.order);
        self.order.clear();
    }
}

/// Takes up a class: the rows that hold some of it are reached.
pub(crate) fn take_class(
    tree: &mut SearchTree,
    shares: &[Share],
    class: usize,
    from: usize,
) -> Result<(), AllocError>
    requires reached_rows { IsReachedRows (length tree.old.reached_rows.reached.items) tree.old.reached_rows }
    requires rows { AllBelow (length tree.old.reached_rows.reached.items) shares.now }
    requires once { IsEachOnce (holders_of shares.now) }
    requires class { class < length tree.old.tree_classes.taken.items }
    requires from { from < length tree.old.reached_rows.bottleneck.items }
    requires bottleneck { 0 < bottleneck tree.old.reached_rows from }
    ensures { OnOk result (IsTakenUp tree.old tree.new class from shares.now) }
{
    tree.tree_classes.order.push(class)?;
    tree.tree_classes.taken[class] = true;
    let bottleneck = tree.reached_rows.bottleneck[from];
    reach_holders(&mut tree.reached_rows, shares, class, bottleneck)
}

/// Clears the marks, which all stand at these places.
pub(crate) fn unmark(marks: &mut [bool], places: &[usize])
    requires within { (i : ℕ) → i < length places.now → number places.now i < length marks.old }
    requires all { (k : ℕ) → is_marked marks.old k ≡ true → IsIn places.now k }
    ensures long { length marks.new ≡ length marks.old }
    ensures none { (k : ℕ) → is_marked marks.new k ≡ false }
{
    for index in places {
        marks[*index] = false;
    }
}
