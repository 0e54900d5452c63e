//! The CPUs of classes, dealt to rows.
ghost use Rattle.std.specs.Prelude.{◌≡◌, ℕ, ◌<◌, ◌≤◌, true, IfOk, IfSome, OnOk, All, AllPairs, length};
ghost use Rattle.std.specs.List.Sorted.{IsPermutation, IsNonDecreasingBy};
ghost use Rattle.std.specs.FinSet as set;
ghost use Rattle.cpu_set.specs.Ids.{IsDisjoint};
ghost use Rattle.cpu_set.specs.Members.{IsCpu, InRange};
ghost use Rattle.certificate.specs.IsDealt.{Holds};
ghost use Rattle.twins.specs.IsGrouping.{class_at};
ghost use Rattle.twins.specs.Holdings.{shared_out, held_of};
ghost use Rattle.twins.specs.IsDeal.{IsDeal, IsClassDeal, IsMoved, IsFirst};

use crate::{Classes, Holders, Share};
use cpu_set::IdSet;
use std::alloc::{AllocError, Global};

/// A set for each row: of each class as many CPUs as the row holds, the lowest to the first row that
/// holds some.
///
/// Two or more shares of a class are sorted once: O(h log h) steps for h of them. Besides there is one for each row,
/// class, share and CPU dealt.
///
/// # Errors
/// An allocation failure.
pub fn deal(
    alloc: Global,
    rows: usize,
    classes: &Classes,
    holdings: &[Holders],
) -> Result<Vec<IdSet>, AllocError>
    requires in_range { All InRange classes.now }
    requires apart { AllPairs IsDisjoint classes.now }
    requires same { length holdings.now ≡ length classes.now }
    requires rows { All (All (λ share. share.row < rows)) holdings.now }
    requires room { (g : ℕ) → held_of holdings.now g ≤ set.len (class_at classes.now g) }
    ensures long { IfOk result (λ sets. length sets.items ≡ rows) }
    // Each row has as many CPUs of each class as it is to hold, and no CPU is in two rows. Of two CPUs of a class the
    // lower one goes to the earlier row.
    ensures dealt { IfOk result (λ sets. IsDeal classes.now holdings.now sets.items) }
{
    deal_body(alloc, rows, classes.sets.as_slice(), holdings)
}

fn deal_body(
    alloc: Global,
    rows: usize,
    classes: &[IdSet],
    holdings: &[Holders],
) -> Result<Vec<IdSet>, AllocError>
    requires in_range { All InRange classes.now }
    requires apart { AllPairs IsDisjoint classes.now }
    requires same { length holdings.now ≡ length classes.now }
    requires rows { All (All (λ share. share.row < rows)) holdings.now }
    requires room { (g : ℕ) → held_of holdings.now g ≤ set.len (class_at classes.now g) }
    ensures long { IfOk result (λ sets. length sets.items ≡ rows) }
    ensures dealt { IfOk result (λ sets. IsDeal classes.now holdings.now sets.items) }
{
    let mut sets = vec![in alloc; IdSet::empty(); rows]?;
    for g in 0..classes.len() {
        let class = &classes[g];
        let holders = &holdings[g];
        deal_class(alloc, class, holders.shares.as_slice(), sets.as_mut_slice())?;
    }
    Ok(sets)
}

/// The CPUs of one class, dealt to its holders.
fn deal_class(
    alloc: Global,
    class: &IdSet,
    shares: &[Share],
    sets: &mut [IdSet],
) -> Result<(), AllocError>
    requires in_range { InRange class.now }
    requires rows { All (λ share. share.row < length sets.old) shares.now }
    requires room { shared_out shares.now ≤ set.len class.now }
    requires free { (k cpu : ℕ) → set.contains class.now cpu ≡ true → Holds sets.old k cpu → ⊥ }
    ensures { OnOk result (IsClassDeal class.now shares.now sets.old sets.new) }
{
    if shares.len() < 2 {
        deal_in_order(class, shares, sets);
        return Ok(());
    }
    let sorted = in_row_order(alloc, shares)?;
    deal_in_order(class, sorted.as_slice(), sets);
    Ok(())
}

/// The shares, those of earlier rows first.
fn in_row_order(alloc: Global, shares: &[Share]) -> Result<Vec<Share>, AllocError>
    ensures same { IfOk result (λ sorted. IsPermutation shares.now sorted.items) }
    ensures rising { IfOk result (λ sorted. IsNonDecreasingBy (λ s. s.row) sorted.items) }
{
    let mut sorted = shares.to_vec(alloc)?;
    sorted.sort_by_key(|share| share.row)?;
    Ok(sorted)
}

/// The CPUs of one class, dealt to its holders, whose shares stand in the rows' order.
fn deal_in_order(class: &IdSet, shares: &[Share], sets: &mut [IdSet])
    requires in_range { InRange class.now }
    requires rows { All (λ share. share.row < length sets.old) shares.now }
    requires rising { IsNonDecreasingBy (λ share. share.row) shares.now }
    requires room { shared_out shares.now ≤ set.len class.now }
    requires free { (k cpu : ℕ) → set.contains class.now cpu ≡ true → Holds sets.old k cpu → ⊥ }
    ensures { IsClassDeal class.now shares.now sets.old sets.new }
{
    let mut rest = *class;
    let mut next = rest.first();
    for share in shares {
        next = move_lowest(&mut rest, &mut sets[share.row], share.amount, next);
    }
}

/// Moves the lowest CPUs of a set, of which the first is known, into another, and returns the first that is left.
fn move_lowest(rest: &mut IdSet, own: &mut IdSet, count: u32, first: Option<u16>) -> Option<u16>
    requires count { count ≤ set.len rest.old }
    requires first { IsFirst rest.old first }
    requires in_range { IfSome first (λ n. IsCpu n) }
    ensures moved { IsMoved rest.old rest.new own.old own.new count }
    ensures first { IsFirst rest.new result }
    ensures in_range { IfSome result (λ n. IsCpu n) }
{
    let mut next = first;
    for _ in 0..count {
        if let Some(cpu) = next {
            rest.remove(cpu);
            own.insert(cpu);
            next = rest.next_after(cpu);
        }
    }
    next
}
