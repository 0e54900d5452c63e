//! The search for an augmenting path: rows are scanned, duals are updated, until a class with a free CPU is at slack 0.
ghost use Rattle.std.specs.Prelude.{◌≡◌, ℕ, ◌+◌, ◌-◌, ◌/◌, ◌<◌, ◌≤◌, ◌^◌, ◌⊎◌, Option, None, [], ◌∷◌, length, OnOk};
ghost use Rattle.std.specs.Prelude.{IfOk, IsTrue, true, IfSome, IfNone, MatchOption};
ghost use Rattle.transport.specs.Numbers.{number, IsRaised, IsEachOnce};
ghost use Rattle.transport.specs.States.{IsRunning, HasTaken, IsSameRoot, HasScanned, IsStruck, AreStruckOrSame};
ghost use Rattle.transport.specs.Weights.{weights, AreSortedArcs};
ghost use Rattle.transport.specs.Answers.{IsAnswer, IsSameRest, IsNoFreeEndAt0, IsFreeEndAt0};
ghost use Rattle.transport.specs.ReachedRows.{is_reached, row_at};
ghost use Rattle.transport.specs.SortedArcs.{IsSortedArcs, IsFoundFreeEnd, IsScanned};
ghost use Rattle.transport.specs.Blocks.{AreNoted, AreTakenFirsts, ArePassed, IsPassedToo, CanLabelBlock};
ghost use Rattle.transport.specs.Blocks.{HasLabelledBlock, IsFirstIn};
ghost use Rattle.transport.specs.Sought.{IsFurther, IsNoFurther, IsSought, AreSought};
ghost use Rattle.std.specs.FinSet as set;
ghost use Rattle.cpu_set.specs.Members.{IsCpu};
ghost use Rattle.twins.specs.Kinds.{offers_of};
ghost use Rattle.transport.specs.Scans.{IsScan, IsLimit, IsBoundOf, AreRising, CanLabelArc, CanLabelArcs};
ghost use Rattle.transport.specs.Scans.{IsArcLabelled, HasLabelled, HasLabelledFrom, IsBetter, IsSeen, CanLimit};
ghost use Rattle.transport.specs.Scans.{IsFreeEndLabelled};

use crate::arcs::{Arc, Block, SortedArcs};
use crate::duals::{least_slack, raise, slack};
use crate::labels::{FreeEnd, Label, Labels};
use crate::tree::{ReachedRows, SearchTree, TreeClasses, take_class};
use crate::{Assignment, Instance, Representatives};
use cpu_set::IdSet;
use std::alloc::AllocError;

/// What a scan of a row goes by.
#[derive(Clone, Copy, Debug)]
pub(crate) struct Scan {
    pub(crate) row: usize,
    pub(crate) row_value: u64,
    pub(crate) root_value: u64,
    /// A class whose weight with its price is this or more lies no nearer than the free end.
    pub(crate) bound: u64,
}

/// Goes on until a class with a free CPU is at slack 0, or no class is left.
pub(crate) fn find_augmenting_path(
    instance: &Instance,
    assignment: &mut Assignment,
    arcs_by_kind: &mut [SortedArcs],
    tree: &mut SearchTree,
) -> Result<Option<FreeEnd>, AllocError>
    requires running { IsRunning (weights instance.now) assignment.old tree.old }
    requires rows { length instance.now.rows.now ≡ length assignment.old.values.items }
    requires arcs_by_kind { AreSortedArcs instance.now assignment.old.residual.items arcs_by_kind.old }
    ensures arcs_by_kind { OnOk result (AreSortedArcs instance.now assignment.new.residual.items arcs_by_kind.new) }
    ensures rows { OnOk result (length instance.now.rows.now ≡ length assignment.new.values.items) }
    ensures rest { OnOk result (IsSameRest assignment.old assignment.new) }
    ensures root { OnOk result (IsSameRoot tree.old.reached_rows tree.new.reached_rows) }
    ensures answer { IfOk result (IsAnswer (weights instance.now) assignment.new tree.new) }
{
    let mut scanned = 0;
    let mut noted = 0;
    let mut struck = 0;
    let mut taken = IdSet::empty();
    'steps: loop {
        if let Some(free_end) = find_free_class(
            instance,
            assignment,
            arcs_by_kind,
            tree,
            scanned,
        )? {
            return Ok(Some(free_end));
        }
        noted = note_taken(&mut taken, &instance.firsts, &tree.tree_classes, noted);
        scan_rows(instance, assignment, arcs_by_kind, &taken, tree, scanned)?;
        scanned = tree.reached_rows.order.len();
        let least = least_slack(
            assignment,
            &tree.labels,
            &tree.tree_classes,
            tree.reached_rows.order[0],
            &mut tree.nearest,
        )?;
        let Some(least) = least else {
            return Ok(None);
        };
        update_duals(assignment, tree, least);
        if let Some(free_end) = free_end_at_0(assignment, tree) {
            return Ok(Some(free_end));
        }
        take_nearest(assignment, tree)?;
        struck = strike_when_many(tree, struck);
    }
}

/// Strikes the classes that are taken up out of the list of labelled ones, where those taken up since the last time are
/// an eighth of it or more; says how many were taken up when this was done last.
fn strike_when_many(tree: &mut SearchTree, struck: usize) -> usize
    ensures struck { AreStruckOrSame tree.old tree.new }
    ensures many { length tree.old.labels.labelled.items / 8 ≤ length tree.old.tree_classes.order.items - struck
        → IsStruck tree.old.tree_classes.taken.items tree.old.labels tree.new.labels
        × (result ≡ length tree.old.tree_classes.order.items) }
    ensures few { length tree.old.tree_classes.order.items - struck < length tree.old.labels.labelled.items / 8
        → (tree.new ≡ tree.old) × (result ≡ struck) }
{
    let taken = tree.tree_classes.order.len();
    if taken.saturating_sub(struck) < tree.labels.labelled.len() / 8 {
        return struck;
    }
    tree.labels.strike_taken(&tree.tree_classes.taken);
    taken
}

/// Adds the first CPUs of the classes that are listed as taken up from a place on; says how many are listed.
fn note_taken(
    taken_firsts: &mut IdSet,
    firsts: &Representatives,
    tree_classes: &TreeClasses,
    from: usize,
) -> usize
    ensures only { (cpu : ℕ) → set.contains taken_firsts.new cpu ≡ true → (set.contains taken_firsts.old cpu ≡ true)
        ⊎ IsFirstIn firsts.now tree_classes.now.order.items cpu }
    ensures all { AreNoted firsts.now taken_firsts.old tree_classes.now.order.items from
        → AreNoted firsts.now taken_firsts.new tree_classes.now.order.items result }
    ensures listed { result ≡ length tree_classes.now.order.items }
{
    let listed = tree_classes.order.len();
    for at in from..listed {
        if let Some(cpu) = firsts.first(tree_classes.order[at]) {
            taken_firsts.insert(cpu);
        }
    }
    listed
}

/// Raises the values of the reached rows and the prices of the classes taken up.
pub(crate) fn update_duals(assignment: &mut Assignment, tree: &SearchTree, by: u64)
    requires rows { (i : ℕ) → i < length tree.now.reached_rows.order.items
        → number tree.now.reached_rows.order.items i < length assignment.old.values.items }
    requires rows_once { IsEachOnce tree.now.reached_rows.order.items }
    requires classes { (i : ℕ) → i < length tree.now.tree_classes.order.items
        → number tree.now.tree_classes.order.items i < length assignment.old.prices.items }
    requires classes_once { IsEachOnce tree.now.tree_classes.order.items }
    requires values_fit { (k : ℕ) → number assignment.old.values.items k + by < 2 ^ 64 }
    requires prices_fit { (g : ℕ) → number assignment.old.prices.items g + by < 2 ^ 64 }
    ensures values { IsRaised assignment.old.values.items assignment.new.values.items tree.now.reached_rows.order.items
        by }
    ensures prices { IsRaised assignment.old.prices.items assignment.new.prices.items tree.now.tree_classes.order.items
        by }
    ensures residual { assignment.new.residual ≡ assignment.old.residual }
    ensures deficit { assignment.new.deficit ≡ assignment.old.deficit }
    ensures holdings { assignment.new.holdings ≡ assignment.old.holdings }
{
    raise(&mut assignment.values, &tree.reached_rows.order, by);
    raise(&mut assignment.prices, &tree.tree_classes.order, by);
}

/// Takes up the listed classes that are at slack 0.
pub(crate) fn take_nearest(assignment: &Assignment, tree: &mut SearchTree) -> Result<(), AllocError>
    requires running { (ws : ℕ → ℕ → Option ℕ) × IsRunning ws assignment.now tree.old }
    requires within { (i : ℕ) → i < length tree.old.nearest.items
        → number tree.old.nearest.items i < length assignment.now.prices.items }
    ensures { OnOk result (HasTaken assignment.now tree.old tree.new tree.old.nearest.items) }
{
    for at in 0..tree.nearest.len() {
        let class = tree.nearest[at];
        take_if_nearest(assignment, tree, class)?;
    }
    Ok(())
}

/// Takes up a labelled class if it is at slack 0 and not taken up yet.
fn take_if_nearest(
    assignment: &Assignment,
    tree: &mut SearchTree,
    class: usize,
) -> Result<(), AllocError>
    requires class { class < length assignment.now.prices.items }
    requires running { (ws : ℕ → ℕ → Option ℕ) × IsRunning ws assignment.now tree.old }
    ensures { OnOk result (HasTaken assignment.now tree.old tree.new (class ∷ [])) }
{
    if tree.tree_classes.taken[class] {
        return Ok(());
    }
    match tree.labels.of_class[class] {
        Some(label) if slack(assignment, class, label) == 0 => {
            take_class(tree, &assignment.holdings[class].shares, class, label.row)
        }
        _ => Ok(()),
    }
}

/// Scans the rows that are reached, from a place in their order on, from which the free end was sought.
///
/// Which classes are passed over is noted only from the first row on that has arcs in blocks.
pub(crate) fn scan_rows(
    instance: &Instance,
    assignment: &Assignment,
    arcs_by_kind: &mut [SortedArcs],
    taken_firsts: &IdSet,
    tree: &mut SearchTree,
    from: usize,
) -> Result<(), AllocError>
    requires running { IsRunning (weights instance.now) assignment.now tree.old }
    requires rows { length instance.now.rows.now ≡ length assignment.now.values.items }
    requires arcs_by_kind { AreSortedArcs instance.now assignment.now.residual.items arcs_by_kind.old }
    requires from { from ≤ length tree.old.reached_rows.order.items }
    requires scanned { HasScanned (weights instance.now) assignment.now tree.old from }
    requires taken { AreTakenFirsts instance.now.firsts taken_firsts.now tree.old.tree_classes }
    requires sought { AreSought instance.now assignment.now tree.old arcs_by_kind.old from
        (length tree.old.reached_rows.order.items) }
    ensures arcs_by_kind { OnOk result (AreSortedArcs instance.now assignment.now.residual.items arcs_by_kind.new) }
    ensures better { OnOk result (IsBetter (weights instance.now) assignment.now tree.old tree.new) }
    ensures scanned { OnOk result (HasScanned (weights instance.now) assignment.now tree.new
        (length tree.new.reached_rows.order.items)) }
{
    for at in from..tree.reached_rows.order.len() {
        let row = tree.reached_rows.order[at];
        let kind = instance.kinds[row];
        let seen = scan_by_arcs(instance, assignment, &mut arcs_by_kind[kind], tree, row)?;
        if !seen {
            return scan_by_blocks(instance, assignment, arcs_by_kind, taken_firsts, tree, at);
        }
    }
    Ok(())
}

/// Scans a row from which the free end was sought, if none of its arcs is in a block; says whether it did.
#[inline(never)]
fn scan_by_arcs(
    instance: &Instance,
    assignment: &Assignment,
    sorted_arcs: &mut SortedArcs,
    tree: &mut SearchTree,
    row: usize,
) -> Result<bool, AllocError>
    requires running { IsRunning (weights instance.now) assignment.now tree.old }
    requires row { row < length instance.now.rows.now }
    requires there { is_reached tree.old.reached_rows row ≡ true }
    requires sorted_arcs { IsSortedArcs (weights instance.now row) (offers_of instance.now.rows.now row)
        instance.now.firsts assignment.now.residual.items sorted_arcs.old }
    requires sought { IsSought (weights instance.now row) assignment.now.values.items row tree.old.labels.free_end
        sorted_arcs.old }
    ensures sorted_arcs { OnOk result (IsSortedArcs (weights instance.now row) (offers_of instance.now.rows.now row)
        instance.now.firsts assignment.now.residual.items sorted_arcs.new) }
    ensures better { OnOk result (IsBetter (weights instance.now) assignment.now tree.old tree.new) }
    ensures seen { IfOk result (λ seen. IsTrue seen
        → IsSeen (weights instance.now) assignment.now row tree.old tree.new) }
    ensures further { OnOk result (IsFurther sorted_arcs.old sorted_arcs.new) }
    ensures free_end { OnOk result (tree.new.labels.free_end ≡ tree.old.labels.free_end) }
{
    if sorted_arcs.blocks.len() > 0 {
        return Ok(false);
    }
    let limit = limit_of(&assignment.values, tree.labels.free_end, row);
    sorted_arcs.block_arcs(&instance.firsts, limit)?;
    if sorted_arcs.blocks.len() > 0 {
        return Ok(false);
    }
    let scan = scan_of(assignment, &tree.reached_rows, row, limit);
    label_others(
        assignment,
        &sorted_arcs.arcs,
        0,
        sorted_arcs.cursor,
        tree,
        scan,
    )?;
    Ok(true)
}

/// The same, where some of these rows have arcs in blocks.
///
/// A class that is at slack 0 from one of them is passed over for the others, as those taken up are: none is nearer.
#[inline(never)]
fn scan_by_blocks(
    instance: &Instance,
    assignment: &Assignment,
    arcs_by_kind: &mut [SortedArcs],
    taken_firsts: &IdSet,
    tree: &mut SearchTree,
    from: usize,
) -> Result<(), AllocError>
    requires running { IsRunning (weights instance.now) assignment.now tree.old }
    requires rows { length instance.now.rows.now ≡ length assignment.now.values.items }
    requires arcs_by_kind { AreSortedArcs instance.now assignment.now.residual.items arcs_by_kind.old }
    requires from { from ≤ length tree.old.reached_rows.order.items }
    requires scanned { HasScanned (weights instance.now) assignment.now tree.old from }
    requires taken { AreTakenFirsts instance.now.firsts taken_firsts.now tree.old.tree_classes }
    requires sought { AreSought instance.now assignment.now tree.old arcs_by_kind.old from
        (length tree.old.reached_rows.order.items) }
    ensures arcs_by_kind { OnOk result (AreSortedArcs instance.now assignment.now.residual.items arcs_by_kind.new) }
    ensures better { OnOk result (IsBetter (weights instance.now) assignment.now tree.old tree.new) }
    ensures scanned { OnOk result (HasScanned (weights instance.now) assignment.now tree.new
        (length tree.new.reached_rows.order.items)) }
{
    let mut passed = *taken_firsts;
    for at in from..tree.reached_rows.order.len() {
        let row = tree.reached_rows.order[at];
        let kind = instance.kinds[row];
        scan_row(
            instance,
            assignment,
            &mut arcs_by_kind[kind],
            &mut passed,
            tree,
            row,
        )?;
    }
    Ok(())
}

/// Scans a row from which the free end was sought: labels the classes that are nearer to it than the free end.
pub(crate) fn scan_row(
    instance: &Instance,
    assignment: &Assignment,
    sorted_arcs: &mut SortedArcs,
    passed: &mut IdSet,
    tree: &mut SearchTree,
    row: usize,
) -> Result<(), AllocError>
    requires running { IsRunning (weights instance.now) assignment.now tree.old }
    requires row { row < length instance.now.rows.now }
    requires there { is_reached tree.old.reached_rows row ≡ true }
    requires sorted_arcs { IsSortedArcs (weights instance.now row) (offers_of instance.now.rows.now row)
        instance.now.firsts assignment.now.residual.items sorted_arcs.old }
    requires passed { ArePassed (weights instance.now) assignment.now tree.old instance.now.firsts passed.old }
    requires sought { IsSought (weights instance.now row) assignment.now.values.items row tree.old.labels.free_end
        sorted_arcs.old }
    ensures sorted_arcs { OnOk result (IsSortedArcs (weights instance.now row) (offers_of instance.now.rows.now row)
        instance.now.firsts assignment.now.residual.items sorted_arcs.new) }
    ensures passed { OnOk result (ArePassed (weights instance.now) assignment.now tree.new instance.now.firsts
        passed.new) }
    ensures seen { OnOk result (IsSeen (weights instance.now) assignment.now row tree.old tree.new) }
    ensures further { OnOk result (IsFurther sorted_arcs.old sorted_arcs.new) }
    ensures free_end { OnOk result (tree.new.labels.free_end ≡ tree.old.labels.free_end) }
{
    let limit = limit_of(&assignment.values, tree.labels.free_end, row);
    sorted_arcs.block_arcs(&instance.firsts, limit)?;
    label_arcs(instance, assignment, sorted_arcs, passed, tree, row, limit)
}

/// Labels the classes of a row's arcs that are nearer than the free end: those in blocks, then the others.
#[inline(never)]
pub(crate) fn label_arcs(
    instance: &Instance,
    assignment: &Assignment,
    sorted_arcs: &SortedArcs,
    passed: &mut IdSet,
    tree: &mut SearchTree,
    row: usize,
    limit: Option<u64>,
) -> Result<(), AllocError>
    requires running { IsRunning (weights instance.now) assignment.now tree.old }
    requires there { is_reached tree.old.reached_rows row ≡ true }
    requires sorted_arcs { IsSortedArcs (weights instance.now row) (offers_of instance.now.rows.now row)
        instance.now.firsts assignment.now.residual.items sorted_arcs.now }
    requires limit { IsLimit assignment.now.values.items row tree.old.labels.free_end limit }
    requires scanned { IsScanned (weights instance.now row) sorted_arcs.now limit }
    requires passed { ArePassed (weights instance.now) assignment.now tree.old instance.now.firsts passed.old }
    ensures passed { OnOk result (ArePassed (weights instance.now) assignment.now tree.new instance.now.firsts
        passed.new) }
    ensures labelled { OnOk result (HasLabelled (weights instance.now) assignment.now row tree.old tree.new
        sorted_arcs.now.arcs.items sorted_arcs.now.cursor) }
{
    let scan = scan_of(assignment, &tree.reached_rows, row, limit);
    label_blocks(instance, assignment, sorted_arcs, passed, tree, scan, limit)?;
    label_others(
        assignment,
        &sorted_arcs.arcs,
        sorted_arcs.blocked,
        sorted_arcs.cursor,
        tree,
        scan,
    )
}

/// Labels the classes of a row's arcs that are in blocks, block by block, and ends at the first block past the bound:
/// those behind it weigh no less.
fn label_blocks(
    instance: &Instance,
    assignment: &Assignment,
    sorted_arcs: &SortedArcs,
    passed: &mut IdSet,
    tree: &mut SearchTree,
    scan: Scan,
    limit: Option<u64>,
) -> Result<(), AllocError>
    requires scan { IsScan assignment.now tree.old.reached_rows scan }
    requires bound { IsBoundOf limit scan.bound }
    requires running { IsRunning (weights instance.now) assignment.now tree.old }
    requires there { is_reached tree.old.reached_rows scan.row ≡ true }
    requires sorted_arcs { IsSortedArcs (weights instance.now scan.row) (offers_of instance.now.rows.now scan.row)
        instance.now.firsts assignment.now.residual.items sorted_arcs.now }
    requires limit { IsLimit assignment.now.values.items scan.row tree.old.labels.free_end limit }
    requires scanned { IsScanned (weights instance.now scan.row) sorted_arcs.now limit }
    requires passed { ArePassed (weights instance.now) assignment.now tree.old instance.now.firsts passed.old }
    ensures passed { OnOk result (ArePassed (weights instance.now) assignment.now tree.new instance.now.firsts
        passed.new) }
    ensures labelled { OnOk result (HasLabelled (weights instance.now) assignment.now scan.row tree.old tree.new
        sorted_arcs.now.arcs.items sorted_arcs.now.blocked) }
{
    for at in 0..sorted_arcs.blocks.len() {
        let block = &sorted_arcs.blocks[at];
        if block.weight as u64 >= scan.bound {
            return Ok(());
        }
        label_block(instance, assignment, block, passed, tree, scan)?;
    }
    Ok(())
}

/// Labels the classes of a row's arcs from one place up to another, but for those that are taken up, and ends at the
/// first arc past the bound.
fn label_others(
    assignment: &Assignment,
    arcs: &[Arc],
    from: usize,
    upto: usize,
    tree: &mut SearchTree,
    scan: Scan,
) -> Result<(), AllocError>
    requires from { from ≤ upto }
    requires upto { upto ≤ length arcs.now }
    requires rising { AreRising arcs.now }
    requires scan { IsScan assignment.now tree.old.reached_rows scan }
    requires bound { (limit : Option ℕ) × IsLimit assignment.now.values.items scan.row tree.old.labels.free_end limit
        × IsBoundOf limit scan.bound }
    requires can { (ws : ℕ → ℕ → Option ℕ) × CanLabelArcs ws assignment.now tree.old scan.row arcs.now upto }
    ensures { OnOk result ((ws : ℕ → ℕ → Option ℕ) → CanLabelArcs ws assignment.now tree.old scan.row arcs.now upto
        → HasLabelledFrom ws assignment.now scan.row tree.old tree.new arcs.now from upto) }
{
    for at in from..upto {
        let arc = arcs[at];
        if arc.weight as u64 >= scan.bound {
            return Ok(());
        }
        if !tree.tree_classes.taken[arc.class] {
            label_arc(assignment, tree, arc, scan)?;
        }
    }
    Ok(())
}

/// What the scan of a row goes by, up to a limit of weight with price.
fn scan_of(
    assignment: &Assignment,
    reached_rows: &ReachedRows,
    row: usize,
    limit: Option<u64>,
) -> Scan
    requires row { row < length assignment.now.values.items }
    requires rooted { 0 < length reached_rows.now.order.items }
    requires root { row_at reached_rows.now 0 < length assignment.now.values.items }
    ensures row { result.row ≡ row }
    ensures values { IsScan assignment.now reached_rows.now result }
    ensures bound { IsBoundOf limit result.bound }
{
    Scan {
        row,
        row_value: assignment.values[row],
        root_value: assignment.values[reached_rows.order[0]],
        bound: limit.unwrap_or(u64::MAX),
    }
}

/// Labels the classes of a block, but for those that are passed over, unless they lie past the free end.
fn label_block(
    instance: &Instance,
    assignment: &Assignment,
    block: &Block,
    passed: &mut IdSet,
    tree: &mut SearchTree,
    scan: Scan,
) -> Result<(), AllocError>
    requires scan { IsScan assignment.now tree.old.reached_rows scan }
    requires bound { (limit : Option ℕ) × IsLimit assignment.now.values.items scan.row tree.old.labels.free_end limit
        × IsBoundOf limit scan.bound }
    requires running { IsRunning (weights instance.now) assignment.now tree.old }
    requires there { is_reached tree.old.reached_rows scan.row ≡ true }
    requires block { CanLabelBlock (weights instance.now scan.row) assignment.now.residual.items instance.now.firsts
        block.now }
    requires passed { ArePassed (weights instance.now) assignment.now tree.old instance.now.firsts passed.old }
    ensures passed { OnOk result (ArePassed (weights instance.now) assignment.now tree.new instance.now.firsts
        passed.new) }
    ensures labelled { OnOk result (HasLabelledBlock (weights instance.now) assignment.now scan.row tree.old tree.new
        instance.now.firsts block.now set.empty) }
{
    let mut left = block.firsts.minus(passed);
    while let Some(cpu) = left.take_first() {
        let arc = Arc {
            weight: block.weight,
            class: instance.firsts.class_of(cpu),
        };
        // The price is read once: a second read, behind the write to `passed`, took a tenth of the search's time.
        let reach = label_arc(assignment, tree, arc, scan)?;
        pass_if_at_0(passed, cpu, reach, scan);
    }
    Ok(())
}

/// Adds the first CPU of a class to those that are passed over, if the class is at slack 0 from the row; `reach` is its
/// weight with its price.
fn pass_if_at_0(passed: &mut IdSet, cpu: u16, reach: u64, scan: Scan)
    requires cpu { IsCpu cpu }
    ensures { IsPassedToo passed.old passed.new cpu scan.row_value reach }
{
    if reach == scan.row_value {
        passed.insert(cpu);
    }
}

/// Labels the class of a row's arc, unless it lies past the free end; says what its weight with its price is.
// Inlined, since it is the whole of the loops that call it, and a call takes as long.
#[inline(always)]
fn label_arc(
    assignment: &Assignment,
    tree: &mut SearchTree,
    arc: Arc,
    scan: Scan,
) -> Result<u64, AllocError>
    requires scan { IsScan assignment.now tree.old.reached_rows scan }
    requires bound { (limit : Option ℕ) × IsLimit assignment.now.values.items scan.row tree.old.labels.free_end limit
        × IsBoundOf limit scan.bound }
    requires can { (ws : ℕ → ℕ → Option ℕ) × CanLabelArc ws assignment.now tree.old scan.row arc }
    ensures labelled { OnOk result ((ws : ℕ → ℕ → Option ℕ) → CanLabelArc ws assignment.now tree.old scan.row arc
        → IsArcLabelled ws assignment.now scan.row tree.old tree.new arc) }
    ensures reach { IfOk result (λ reach. reach ≡ arc.weight + number assignment.now.prices.items arc.class) }
{
    let reach = arc.weight as u64 + assignment.prices[arc.class];
    if reach >= scan.bound {
        return Ok(reach);
    }
    let label = Label {
        row: scan.row,
        weight: arc.weight,
    };
    let due = reach + scan.root_value - scan.row_value;
    tree.labels.improve(arc.class, label, due)?;
    Ok(reach)
}

/// Seeks the free end from the rows that are reached, from a place in their order on, until it is at slack 0.
///
/// To label the classes of these rows takes longer, and is of no use where this finds one.
pub(crate) fn find_free_class(
    instance: &Instance,
    assignment: &Assignment,
    arcs_by_kind: &mut [SortedArcs],
    tree: &mut SearchTree,
    from: usize,
) -> Result<Option<FreeEnd>, AllocError>
    requires running { IsRunning (weights instance.now) assignment.now tree.old }
    requires rows { length instance.now.rows.now ≡ length assignment.now.values.items }
    requires arcs_by_kind { AreSortedArcs instance.now assignment.now.residual.items arcs_by_kind.old }
    requires from { from ≤ length tree.old.reached_rows.order.items }
    ensures arcs_by_kind { OnOk result (AreSortedArcs instance.now assignment.now.residual.items arcs_by_kind.new) }
    ensures better { OnOk result (IsBetter (weights instance.now) assignment.now tree.old tree.new) }
    ensures free_end { IfOk result (λ found. IfSome found (IsFreeEndAt0 assignment.now tree.new)) }
    ensures sought { IfOk result (λ found. IfNone found
        (AreSought instance.now assignment.now tree.new arcs_by_kind.new from
        (length tree.new.reached_rows.order.items))) }
{
    for at in from..tree.reached_rows.order.len() {
        let row = tree.reached_rows.order[at];
        let kind = instance.kinds[row];
        find_free_class_of(instance, assignment, &mut arcs_by_kind[kind], tree, row)?;
        if let Some(free_end) = free_end_at_0(assignment, tree) {
            return Ok(Some(free_end));
        }
    }
    Ok(None)
}

/// Seeks the free end from one row: a class with a free CPU that is nearer than the one so far takes its place.
pub(crate) fn find_free_class_of(
    instance: &Instance,
    assignment: &Assignment,
    sorted_arcs: &mut SortedArcs,
    tree: &mut SearchTree,
    row: usize,
) -> Result<(), AllocError>
    requires running { IsRunning (weights instance.now) assignment.now tree.old }
    requires row { row < length instance.now.rows.now }
    requires there { is_reached tree.old.reached_rows row ≡ true }
    requires sorted_arcs { IsSortedArcs (weights instance.now row) (offers_of instance.now.rows.now row)
        instance.now.firsts assignment.now.residual.items sorted_arcs.old }
    ensures sorted_arcs { OnOk result (IsSortedArcs (weights instance.now row) (offers_of instance.now.rows.now row)
        instance.now.firsts assignment.now.residual.items sorted_arcs.new) }
    ensures better { OnOk result (IsBetter (weights instance.now) assignment.now tree.old tree.new) }
    ensures sought { OnOk result (IsSought (weights instance.now row) assignment.now.values.items row
        tree.new.labels.free_end sorted_arcs.new) }
    ensures further { OnOk result (IsFurther sorted_arcs.old sorted_arcs.new) }
    ensures nearer { OnOk result (IsNoFurther assignment.now.values.items tree.old.labels.free_end
        tree.new.labels.free_end) }
{
    let limit = limit_of(&assignment.values, tree.labels.free_end, row);
    let found = nearest_free_class(instance, assignment, sorted_arcs, row, limit)?;
    label_free_end(&mut tree.labels, found, row);
    Ok(())
}

/// The nearest class with a free CPU that a row has a weight for, below the limit.
fn nearest_free_class(
    instance: &Instance,
    assignment: &Assignment,
    sorted_arcs: &mut SortedArcs,
    row: usize,
    limit: Option<u64>,
) -> Result<Option<Arc>, AllocError>
    requires row { row < length instance.now.rows.now }
    requires sorted_arcs { IsSortedArcs (weights instance.now row) (offers_of instance.now.rows.now row)
        instance.now.firsts assignment.now.residual.items sorted_arcs.old }
    ensures sorted_arcs { OnOk result (IsSortedArcs (weights instance.now row) (offers_of instance.now.rows.now row)
        instance.now.firsts assignment.now.residual.items sorted_arcs.new) }
    ensures found { IfOk result (λ found. IsFoundFreeEnd (weights instance.now row) assignment.now.residual.items limit
        sorted_arcs.new found) }
    ensures further { OnOk result (IsFurther sorted_arcs.old sorted_arcs.new) }
{
    let asked = &instance.rows[row];
    let found = sorted_arcs.nearest_free_class(
        &asked.offers,
        &instance.firsts,
        &assignment.residual,
        limit,
    )?;
    Ok(found)
}

/// Labels the free end, where one was found from the row.
fn label_free_end(labels: &mut Labels, found: Option<Arc>, row: usize)
    ensures { IsFreeEndLabelled labels.old labels.new row found }
{
    if let Some(arc) = found {
        labels.free_end = Some(FreeEnd {
            class: arc.class,
            label: Label {
                row,
                weight: arc.weight,
            },
        });
    }
}

/// The free end, where it is at slack 0.
pub(crate) fn free_end_at_0(assignment: &Assignment, tree: &SearchTree) -> Option<FreeEnd>
    requires { (ws : ℕ → ℕ → Option ℕ) × IsRunning ws assignment.now tree.now }
    ensures { MatchOption result (IsNoFreeEndAt0 assignment.now tree.now) (IsFreeEndAt0 assignment.now tree.now) }
{
    match tree.labels.free_end {
        Some(free_end) if slack(assignment, free_end.class, free_end.label) == 0 => Some(free_end),
        _ => None,
    }
}

/// A class lies no nearer to the row than the free end where its weight is this or more.
pub(crate) fn limit_of(values: &[u64], free_end: Option<FreeEnd>, row: usize) -> Option<u64>
    requires { CanLimit values.now row free_end }
    ensures { IsLimit values.now row free_end result }
{
    match free_end {
        Some(free_end) => Some(
            values[row] + (free_end.label.weight as u64 - values[free_end.label.row]),
        ),
        None => None,
    }
}
