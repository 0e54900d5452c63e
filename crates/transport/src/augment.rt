//! Rows assigned one after another, and CPUs moved along an augmenting path.
ghost use Rattle.std.specs.Prelude.{◌≡◌, ℕ, ◌+◌, ◌-◌, ◌*◌, ◌<◌, ◌≤◌, ◌^◌, length, IfOk, OnOk, IsTrue, Option, Some};
ghost use Rattle.certificate.specs.AreWithin.{AreRowsWithin};
ghost use Rattle.twins.specs.Kinds.{offers_of, kind_at, AreKinds};
ghost use Rattle.transport.specs.SortedArcs.{IsNewSortedArcs};
ghost use Rattle.transport.specs.Numbers.{number};
ghost use Rattle.transport.specs.Weights.{AreNewSortedArcs};
ghost use Rattle.transport.specs.Totals.{class_total};
ghost use Rattle.transport.specs.States.{cell, shares_of, AreHoldings, IsNoHolder};
ghost use Rattle.transport.specs.Settled.{IsTreeOf};
ghost use Rattle.transport.specs.Outcomes.{IsOutcome, IsOutcomeWithin};
ghost use Rattle.transport.specs.Assigning.{CanAssign, IsSearched, IsRowAssigned, a_search};
ghost use Rattle.transport.specs.declared.augment.Outcome.TheVariants.{Stuck};
ghost use Rattle.transport.specs.Shares.{HasNoShare};
ghost use Rattle.transport.specs.ReachedRows.{bottleneck, row_at};
ghost use Rattle.transport.specs.Searches.{label_of};
ghost use Rattle.transport.specs.Answers.{IsFound};
ghost use Rattle.transport.specs.Augmented.{IsAugmented};
ghost use Rattle.transport.specs.declared.labels.Label.{Label};
ghost use Rattle.transport.specs.Augmenting.{IsGiven, IsGivenUp, IsSameButHoldings};

use crate::arcs::SortedArcs;
use crate::assignment::{give, take};
use crate::labels::FreeEnd;
use crate::search::find_augmenting_path;
use crate::tree::SearchTree;
use crate::{Assignment, Instance};
use certificate::{Offers, Row};
use cpu_set::CPU_LIMIT;
use std::alloc::{AllocError, Global};

/// What the rows get.
#[derive(Debug, Drop)]
pub enum Outcome {
    /// Each row has what it asks for.
    Done {
        assignment: Assignment,
        turns: u64,
    },
    /// The reached rows ask for more CPUs than the classes have that they may have, which are those taken up.
    Stuck {
        reached: Vec<bool>,
        taken: Vec<bool>,
        turns: u64,
    },
    /// More turns were taken than are to be, and there are rows left.
    Late,
}

/// How many turns the searches may take: so many at first, and so many more for each CPU that a row got.
#[derive(Clone, Copy, Debug)]
pub struct TurnLimit {
    pub at_first: u64,
    pub per_cpu: u64,
}

/// Assigns the rows one after another, with CPUs of classes of the given sizes.
///
/// A turn is counted for each row or class that a search takes up: at most one search for each CPU that is asked for,
/// and in a search at most one turn for each row and class. No search is begun behind more turns than the limit has for
/// the rows that are met.
pub fn assign_all(
    alloc: Global,
    instance: &Instance,
    sizes: &[u32],
    limit: TurnLimit,
) -> Result<Outcome, AllocError>
    requires fit { AreRowsWithin instance.now.rows.now }
    requires kinds { AreKinds instance.now.rows.now (length instance.now.rows.now) instance.now.kinds.now }
    requires classes { length instance.now.firsts ≡ length sizes.now }
    requires few { length sizes.now ≤ CPU_LIMIT }
    ensures outcome { IfOk result (IsOutcome instance.now.rows.now instance.now.firsts sizes.now limit) }
    ensures limited { IfOk result (IsOutcomeWithin instance.now.rows.now sizes.now limit) }
{
    let mut assignment = Assignment::first(alloc, instance, sizes)?;
    let mut arcs_by_kind = sorted_arcs_of(alloc, instance)?;
    let mut tree = SearchTree::new(alloc, instance.rows.len(), sizes.len())?;
    let mut turns = 0;
    let mut most = limit.at_first;
    for row in 0..instance.rows.len() {
        match assign_row(
            instance,
            &mut assignment,
            &mut arcs_by_kind,
            &mut tree,
            row,
            most,
            &mut turns,
        )? {
            Ended::Met => most = raised(most, limit, &instance.rows[row]),
            Ended::Blocked => return Ok(stuck(tree, turns)),
            Ended::BrokenOff => return Ok(Outcome::Late),
        }
    }
    Ok(Outcome::Done { assignment, turns })
}

/// How many turns the searches may take where a row more has its CPUs.
fn raised(most: u64, limit: TurnLimit, row: &Row) -> u64
    ensures at_least { most ≤ result }
    ensures at_most { result ≤ most + limit.per_cpu * row.now.demand }
    // It is exactly that, unless it is past all numbers of turns.
    ensures exact { result < 2 ^ 64 - 1 → most + limit.per_cpu * row.now.demand ≤ result }
{
    most.saturating_add(limit.per_cpu.saturating_mul(u64::from(row.demand)))
}

/// Sorted arcs for each row that is the first of its kind, which the others share; theirs are without offers.
fn sorted_arcs_of(alloc: Global, instance: &Instance) -> Result<Vec<SortedArcs>, AllocError>
    requires kinds { length instance.now.kinds.now ≡ length instance.now.rows.now }
    ensures { IfOk result (λ arcs_by_kind. AreNewSortedArcs instance.now.rows.now instance.now.kinds.now
        arcs_by_kind.items (length instance.now.rows.now)) }
{
    let mut arcs_by_kind = Vec::with_capacity(alloc, instance.rows.len())?;
    for k in 0..instance.rows.len() {
        let sorted_arcs = arcs_of_kind(alloc, instance, k)?;
        arcs_by_kind.push(sorted_arcs)?;
    }
    Ok(arcs_by_kind)
}

/// The sorted arcs of a row that is the first of its kind, else such without offers.
fn arcs_of_kind(alloc: Global, instance: &Instance, k: usize) -> Result<SortedArcs, AllocError>
    requires there { k < length instance.now.rows.now }
    requires kinds { length instance.now.kinds.now ≡ length instance.now.rows.now }
    ensures { IfOk result (λ sorted_arcs. kind_at instance.now.kinds.now k ≡ k
        → IsNewSortedArcs (offers_of instance.now.rows.now k) sorted_arcs) }
{
    if instance.kinds[k] != k {
        return SortedArcs::new(alloc, &Offers::new(alloc));
    }
    let row = &instance.rows[k];
    let sorted_arcs = SortedArcs::new(alloc, &row.offers)?;
    Ok(sorted_arcs)
}

/// What the searches for a row end with.
enum Ended {
    /// The row has what it asks for.
    Met,
    /// The last search found no class with a free CPU.
    Blocked,
    /// More turns were taken than are to be, and the row lacks CPUs.
    BrokenOff,
}

/// Searches until the row has what it asks for, until a search finds nothing, or until more than `most` turns are
/// taken; says which.
fn assign_row(
    instance: &Instance,
    assignment: &mut Assignment,
    arcs_by_kind: &mut [SortedArcs],
    tree: &mut SearchTree,
    row: usize,
    most: u64,
    turns: &mut u64,
) -> Result<Ended, AllocError>
    requires can { CanAssign instance.now row assignment.old arcs_by_kind.old turns.old }
    requires tidy { IsTreeOf assignment.old tree.old }
    requires few { turns.old ≤ most + a_search assignment.old }
    ensures assigned { IfOk result (IsRowAssigned instance.now row most assignment.old assignment.new arcs_by_kind.new
        tree.new turns.old turns.new) }
    ensures limited { OnOk result (turns.new ≤ most + a_search assignment.old) }
{
    'searches: while assignment.deficit[row] > 0 {
        if *turns > most {
            return Ok(Ended::BrokenOff);
        }
        if !augment_once(instance, assignment, arcs_by_kind, tree, row, turns)? {
            return Ok(Ended::Blocked);
        }
    }
    Ok(Ended::Met)
}

/// Searches once for the row, and moves CPUs along the path, where one is found.
fn augment_once(
    instance: &Instance,
    assignment: &mut Assignment,
    arcs_by_kind: &mut [SortedArcs],
    tree: &mut SearchTree,
    row: usize,
    turns: &mut u64,
) -> Result<bool, AllocError>
    requires can { CanAssign instance.now row assignment.old arcs_by_kind.old turns.old }
    requires lacks { 0 < number assignment.old.deficit.items row }
    requires tidy { IsTreeOf assignment.old tree.old }
    ensures searched { IfOk result (IsSearched instance.now row assignment.old assignment.new arcs_by_kind.new tree.new
        turns.old turns.new) }
    ensures once { OnOk result (turns.new ≤ turns.old + a_search assignment.old) }
{
    let wanted = assignment.deficit[row];
    tree.start(row, wanted)?;
    let found = find_augmenting_path(instance, assignment, arcs_by_kind, tree)?;
    *turns += (tree.reached_rows.order.len() + tree.tree_classes.order.len()) as u64;
    let Some(free_end) = found else {
        return Ok(false);
    };
    *turns += 1;
    let amount = tree.reached_rows.bottleneck[free_end.label.row].min(
        assignment.residual[free_end.class],
    );
    let asked = &instance.rows[row];
    augment(assignment, tree, free_end, amount, wanted == asked.demand)?;
    Ok(true)
}

/// The rows that a search reached, and the classes that it took up.
fn stuck(tree: SearchTree, turns: u64) -> Outcome
    ensures { result ≡ Stuck tree.reached_rows.reached tree.tree_classes.taken turns }
{
    let reached_rows = tree.reached_rows;
    let tree_classes = tree.tree_classes;
    Outcome::Stuck {
        reached: reached_rows.reached,
        taken: tree_classes.taken,
        turns,
    }
}

/// Moves CPUs along the path from the root to a class with a free CPU.
///
/// From the free end back, each row takes the class that is nearer to it, and gives up as many CPUs of the
/// one through which it was reached; the root gives up none, and is new where it holds none.
pub(crate) fn augment(
    assignment: &mut Assignment,
    tree: &SearchTree,
    free_end: FreeEnd,
    amount: u32,
    is_new: bool,
) -> Result<(), AllocError>
    requires found { (ws : ℕ → ℕ → Option ℕ) × IsFound ws assignment.old tree.now free_end }
    requires bottleneck { amount ≤ bottleneck tree.now.reached_rows free_end.label.row }
    requires residual { amount ≤ number assignment.old.residual.items free_end.class }
    requires deficit { amount ≤ number assignment.old.deficit.items (row_at tree.now.reached_rows 0) }
    requires fresh { IsTrue is_new → IsNoHolder (row_at tree.now.reached_rows 0) assignment.old.holdings.items }
    requires deficit_long { length assignment.old.deficit.items ≡ length assignment.old.values.items }
    requires sizes { (g : ℕ) → class_total (cell assignment.old.holdings.items) (length assignment.old.values.items) g
        + number assignment.old.residual.items g < 2 ^ 32 }
    ensures { OnOk result (IsAugmented assignment.old assignment.new tree.now free_end amount) }
{
    let mut class = free_end.class;
    let mut row = free_end.label.row;
    'path: while tree.reached_rows.index[row] > 0 {
        give_to(assignment, class, row, amount, false)?;
        class = tree.reached_rows.parent_class[row];
        take_from(assignment, class, row, amount);
        row = nearest_row(tree, class);
    }
    give_to(assignment, class, row, amount, is_new)?;
    assignment.residual[free_end.class] -= amount;
    assignment.deficit[row] -= amount;
    Ok(())
}

/// The row by which a class is nearest, as its label says.
fn nearest_row(tree: &SearchTree, class: usize) -> usize
    requires { class < length tree.now.labels.of_class.items }
    ensures { (n : Label) → label_of tree.now.labels class ≡ Some n → result ≡ n.row }
{
    match tree.labels.of_class[class] {
        Some(label) => label.row,
        None => 0,
    }
}

/// Gives a row some CPUs of a class.
fn give_to(
    assignment: &mut Assignment,
    class: usize,
    row: usize,
    amount: u32,
    is_new: bool,
) -> Result<(), AllocError>
    requires class { class < length assignment.old.holdings.items }
    requires bottleneck { cell assignment.old.holdings.items row class + amount < 2 ^ 32 }
    requires none { IsTrue is_new → HasNoShare row (shares_of assignment.old.holdings.items class) }
    ensures given { OnOk result (IsGiven (cell assignment.old.holdings.items) (cell assignment.new.holdings.items) row
        class amount) }
    ensures holdings { OnOk result ((rows classes : ℕ) → row < rows
        → AreHoldings rows classes assignment.old.holdings.items
        → AreHoldings rows classes assignment.new.holdings.items) }
    ensures none { OnOk result ((k : ℕ) → (k ≡ row → ⊥) → IsNoHolder k assignment.old.holdings.items
        → IsNoHolder k assignment.new.holdings.items) }
    ensures rest { OnOk result (IsSameButHoldings assignment.old assignment.new) }
{
    give(&mut assignment.holdings[class].shares, row, amount, is_new)?;
    Ok(())
}

/// Takes some CPUs of a class from a row.
fn take_from(assignment: &mut Assignment, class: usize, row: usize, amount: u32)
    requires class { class < length assignment.old.holdings.items }
    requires held { amount ≤ cell assignment.old.holdings.items row class }
    ensures given_up { IsGivenUp (cell assignment.old.holdings.items) (cell assignment.new.holdings.items) row class
        amount }
    ensures holdings { (rows classes : ℕ) → row < rows → AreHoldings rows classes assignment.old.holdings.items
        → AreHoldings rows classes assignment.new.holdings.items }
    ensures none { (k : ℕ) → IsNoHolder k assignment.old.holdings.items → IsNoHolder k assignment.new.holdings.items }
    ensures rest { IsSameButHoldings assignment.old assignment.new }
{
    take(&mut assignment.holdings[class].shares, row, amount);
}
