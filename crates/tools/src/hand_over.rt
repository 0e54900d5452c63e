//! Hand-overs in which each container takes the CPUs of the one behind it.

use apply_plan::Entry;
use cpu_set::IdSet;
use kernel_model::{Group, Kernel, ModelKernel};
use scenarios::{handover, step_out};
use std::alloc::Global;

const CONTAINERS: u16 = 1_024;

const CPUS_EACH: u16 = 3;

/// The CPUs of one place, of which none has CPU 0.
fn place(n: u16) -> IdSet {
    let first = (n % CONTAINERS) * CPUS_EACH + 1;
    let mut set = IdSet::empty();
    set.insert_range(first, first + CPUS_EACH - 1);
    set
}

/// A kernel of all CPUs, where CPU 0 is reserved.
fn all_cpus(alloc: Global, reserved: IdSet) -> Option<ModelKernel> {
    let all = IdSet::empty().complement();
    if reserved.is_empty() || !reserved.is_subset(&all) || !all.is_subset(&all) {
        return None;
    }
    ModelKernel::new(alloc, all, reserved, all, reserved, 2).ok()
}

/// A container below the group, with the CPUs of its own place and the next place as its target.
fn launch(alloc: Global, kernel: &mut ModelKernel, above: Group, n: u16) -> Option<Entry> {
    let name = format!(in alloc; "{n}").ok()?;
    let group = kernel.make_group(above, name.as_str()).ok()?;
    kernel.write_cpus(group, place(n)).ok()?;
    Some(Entry {
        group,
        pid: kernel.spawn(group).ok()?,
        pinned: true,
        target: place(n.wrapping_add(1)),
    })
}

/// So many hand-overs, each from the beginning; the steps of all of them.
pub fn hand_overs(alloc: Global, count: u32) -> Option<u64> {
    let mut reserved = IdSet::empty();
    reserved.insert(0);
    let mut steps: u64 = 0;
    for _turn in 0..count {
        let mut kernel = all_cpus(alloc, reserved)?;
        let above = kernel.make_group(kernel.root(), "numarun").ok()?;
        let mut entries = Vec::with_capacity(alloc, CONTAINERS as usize).ok()?;
        for n in 0..CONTAINERS {
            entries.push(launch(alloc, &mut kernel, above, n)?).ok()?;
        }
        let mut over = handover(entries, reserved)?;
        steps = steps.saturating_add(step_out(&mut over, &mut kernel)? as u64);
    }
    Some(steps)
}
