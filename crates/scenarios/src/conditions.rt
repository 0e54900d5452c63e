//! Hand-overs whose conditions are tested before they are called.
use crate::requirements::{are_placed, may_begin};
use apply_plan::{Entry, Handover, Progress};
use cpu_set::IdSet;
use kernel_model::{Kernel, KernelFault};

/// A hand-over, where its entries and reserved CPUs meet the condition of one.
pub fn handover(entries: Vec<Entry>, reserved: IdSet) -> Option<Handover> {
    if may_begin(entries.as_slice(), &reserved) {
        Some(Handover::new(entries, reserved))
    } else {
        None
    }
}

/// A step of a hand-over, where its groups are in the tree.
pub fn step<K: Kernel>(
    handover: &mut Handover,
    kernel: &mut K,
) -> Option<Result<Progress, KernelFault>> {
    if are_placed(&*kernel, handover.entries()) {
        Some(handover.step(kernel))
    } else {
        None
    }
}

/// All writes of a hand-over at once, where its groups are in the tree.
pub fn finish<K: Kernel>(
    handover: &mut Handover,
    kernel: &mut K,
) -> Option<Result<(), KernelFault>> {
    if are_placed(&*kernel, handover.entries()) {
        Some(handover.finish(kernel))
    } else {
        None
    }
}

/// Steps of a hand-over until nothing is due, where its groups are in the tree; none where a write fails.
pub fn step_out<K: Kernel>(handover: &mut Handover, kernel: &mut K) -> Option<usize> {
    if !are_placed(&*kernel, handover.entries()) {
        return None;
    }
    let mut steps: usize = 0;
    for _turn in 0..1_000_000 {
        steps = steps.saturating_add(1);
        match handover.step(kernel) {
            Ok(Progress::More) => {}
            Ok(Progress::Done) => return Some(steps),
            Err(_) => return None,
        }
    }
    None
}
