//! Slack, and the dual variables raised by the least of it.
ghost use Rattle.std.specs.Prelude.{◌≡◌, ◌+◌, ◌<◌, ◌≤◌, IfOk, length, ℕ, ◌^◌};
ghost use Rattle.transport.specs.Numbers.{number, IsRaised};
ghost use Rattle.transport.specs.Searches.{top};
ghost use Rattle.transport.specs.States.{AreRunning, IsLeastUpTo, IsLesser};

use crate::Assignment;
use crate::labels::{Label, Labels};
use crate::tree::TreeClasses;
use std::alloc::AllocError;

/// How far a class is from the row that is nearest to it.
pub(crate) fn slack(assignment: &Assignment, class: usize, label: Label) -> u64
    requires class { class < length assignment.now.prices.items }
    requires row { label.row < length assignment.now.values.items }
    requires fits { number assignment.now.prices.items class ≤ top }
    requires below { number assignment.now.values.items label.row ≤ label.weight
        + number assignment.now.prices.items class }
    ensures { result + number assignment.now.values.items label.row ≡ label.weight
        + number assignment.now.prices.items class }
{
    label.weight as u64 + assignment.prices[class] - assignment.values[label.row]
}

/// The least slack of the free end and of the labelled classes that are not taken up; lists the classes that have it.
pub(crate) fn least_slack(
    assignment: &Assignment,
    labels: &Labels,
    tree_classes: &TreeClasses,
    root: usize,
    nearest: &mut Vec<usize>,
) -> Result<Option<u64>, AllocError>
    requires { AreRunning assignment.now labels.now tree_classes.now root }
    ensures { IfOk result (IsLeastUpTo assignment.now.values.items assignment.now.prices.items labels.now
        tree_classes.now labels.now.labelled.items nearest.new.items) }
{
    nearest.clear();
    let root_value = assignment.values[root];
    let mut least = match labels.free_end {
        Some(free_end) => Some(slack(assignment, free_end.class, free_end.label)),
        None => None,
    };
    for class in &labels.labelled {
        if !tree_classes.taken[*class] {
            let slack = labels.due[*class] - root_value;
            least = Some(lesser(least, *class, slack, nearest)?);
        }
    }
    Ok(least)
}

/// The lesser of the least slack so far and that of a class, which is listed where its slack is no more.
///
/// Where it is less, the classes so far are listed no longer.
fn lesser(
    least: Option<u64>,
    class: usize,
    slack: u64,
    nearest: &mut Vec<usize>,
) -> Result<u64, AllocError>
    ensures { IfOk result (IsLesser least class slack nearest.old.items nearest.new.items) }
{
    match least {
        Some(least) if least < slack => return Ok(least),
        Some(least) if least == slack => {}
        _ => nearest.clear(),
    }
    nearest.push(class)?;
    Ok(slack)
}

/// Raises the numbers at these places, which differ.
pub(crate) fn raise(numbers: &mut [u64], order: &[usize], by: u64)
    requires within { (i : ℕ) → i < length order.now → number order.now i < length numbers.old }
    requires once { (i j : ℕ) → i < length order.now → j < length order.now → number order.now i ≡ number order.now j
        → i ≡ j }
    requires fits { (i : ℕ) → i < length order.now → number numbers.old (number order.now i) + by < 2 ^ 64 }
    ensures { IsRaised numbers.old numbers.new order.now by }
{
    for k in order {
        numbers[*k] += by;
    }
}
