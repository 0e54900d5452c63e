//! Hand-overs over both kernels, with every event put between every two steps and every write failed in turn.
use crate::{finish, handover, step};
use apply_plan::{Entry, Handover, Progress};
use cpu_list::read;
use cpu_set::{CPU_LIMIT, IdSet};
use faults::OrMemory;
use kernel_doubles::FusedKernel;
use kernel_model::{Group, Kernel, KernelFault, ModelKernel};
use std::alloc::{AllocError, Global};
use std::test::Fail;

/// A container: whether it is pinned, the CPUs that it has, and those that it is to have.
type Move = (bool, &'static str, &'static str);

/// Two nodes of four CPUs each, of which CPU 0 is reserved: two containers swap their CPUs, three hand theirs on in a
/// chain, a shared one makes room, and one gives way to another. Behind each stands how many writes it takes.
const MOVES: [(&[Move], usize); 4] = [
    (&[(true, "1-2", "3-4"), (true, "3-4", "1-2")], 4),
    (
        &[
            (true, "5-6", "7"),
            (true, "3-4", "5-6"),
            (true, "1-2", "3-4"),
        ],
        6,
    ),
    (
        &[
            (false, "0,3-7", "0,4-7"),
            (true, "1-2", "1-2"),
            (true, "0", "3"),
        ],
        2,
    ),
    (&[(true, "4-6", "1-3"), (true, "0", "4-7")], 3),
];

fn set(text: &str) -> IdSet {
    read(text.as_bytes(), CPU_LIMIT).unwrap_or(IdSet::empty())
}

fn two_nodes(alloc: Global) -> Result<Option<ModelKernel>, AllocError> {
    let (all, reserved) = (set("0-7"), set("0"));
    if reserved.is_empty() || !reserved.is_subset(&all) || !all.is_subset(&all) {
        return Ok(None);
    }
    Ok(Some(ModelKernel::new(alloc, all, reserved, all, set("0-1"), 2)?))
}

/// A group for each container below a child of the root, which requests what the container has, and its first process.
fn launch<K: Kernel>(
    alloc: Global,
    kernel: &mut K,
    moves: &[Move],
) -> Result<Vec<Entry>, OrMemory<KernelFault>> {
    let names = ["a", "b", "c"];
    let mut entries = Vec::new(alloc);
    let above = kernel.make_group(kernel.root(), "numarun")?;
    for ((pinned, from, to), name) in moves.iter().zip(names.iter()) {
        let group = kernel.make_group(above, name)?;
        kernel.write_cpus(group, set(from))?;
        let pid = kernel.spawn(group)?;
        let entry = Entry {
            group,
            pid,
            pinned: *pinned,
            target: set(to),
        };
        match entries.push(entry) {
            Ok(()) => {}
            Err(refused) => return Err(AllocError::from(refused).into()),
        }
    }
    Ok(entries)
}

/// Whether outside the reserved CPUs no live pinned container shares a CPU with another live one, and none has none.
fn is_safe<K: Kernel>(kernel: &K, entries: &[Entry]) -> bool {
    let mut pinned = IdSet::empty();
    let mut shared = IdSet::empty();
    for entry in entries {
        if !kernel.first_alive(entry.pid) {
            continue;
        }
        let held = kernel
            .requested_cpus(entry.group)
            .copied()
            .unwrap_or(IdSet::empty());
        let own = held.minus(&set("0"));
        if held.is_empty()
            || !own.is_disjoint(&pinned)
            || entry.pinned && !own.is_disjoint(&shared)
        {
            return false;
        }
        if entry.pinned {
            pinned = pinned.union(&own);
        } else {
            shared = shared.union(&own);
        }
    }
    true
}

/// Whether each live container requests its target.
fn is_over<K: Kernel>(kernel: &K, entries: &[Entry]) -> bool {
    entries.iter().all(|entry| {
        !kernel.first_alive(entry.pid) || kernel.requested_cpus(entry.group) == Ok(&entry.target)
    })
}

/// What may happen between two steps, by number: forks and ends of the first pids, CPUs that go and come.
const EVENTS: u32 = 20;

fn happen<K: Kernel>(kernel: &mut K, event: u32) {
    let cpu = event % 7 + 1;
    match event {
        0..=6 => drop(kernel.offline(cpu)),
        7..=13 => drop(kernel.online_cpu(cpu)),
        14..=16 => drop(kernel.fork(event - 12)),
        _ => drop(kernel.exit(event - 15)),
    }
}

/// A CPU that is to come back goes before the hand-over.
fn prepare<K: Kernel>(kernel: &mut K, event: u32) {
    if let 7..=13 = event {
        drop(kernel.offline(event % 7 + 1));
    }
}

/// Steps until Done with this event before the step of this number; how many answered, or none where a promise is
/// broken.
fn run<K: Kernel>(
    kernel: &mut K,
    handover: &mut Handover,
    entries: &[Entry],
    at: usize,
    event: u32,
) -> Option<usize> {
    for taken in 0..2 * entries.len() + 1 {
        if taken == at {
            happen(kernel, event);
            if !is_safe(&*kernel, entries) {
                return None;
            }
        }
        let answer = step(handover, kernel)?;
        if !is_safe(&*kernel, entries) {
            return None;
        }
        if answer == Ok(Progress::Done) {
            return if is_over(&*kernel, entries) {
                Some(taken + 1)
            } else {
                None
            };
        }
    }
    None
}

#[test]
fn steps_are_the_releases_and_then_the_moves(rt: HostRuntime) -> Result<(), Fail> {
    for (moves, writes) in MOVES {
        let mut kernel = two_nodes(rt.alloc())?.ok_or("no machine")?;
        let entries = launch(rt.alloc(), &mut kernel, moves)?;
        let mut over = handover(entries.to_vec(rt.alloc())?, set("0")).ok_or("no hand-over")?;
        let taken = run(&mut kernel, &mut over, entries.as_slice(), 99, 0);
        assert_eq!(rt; taken, Some(writes));
    }
    Ok(())
}

#[test]
fn every_event_between_every_two_steps(rt: HostRuntime) -> Result<(), Fail> {
    for (moves, writes) in MOVES {
        for at in 0..writes {
            for event in 0..EVENTS {
                let mut kernel = two_nodes(rt.alloc())?.ok_or("no machine")?;
                let entries = launch(rt.alloc(), &mut kernel, moves)?;
                prepare(&mut kernel, event);
                let mut over = handover(entries.to_vec(rt.alloc())?, set("0")).ok_or(
                    "no hand-over",
                )?;
                let taken = run(&mut kernel, &mut over, entries.as_slice(), at, event);
                assert!(rt;
                    taken.unwrap_or(99) <= 2 * entries.len(),
                    "event {event} before step {at}"
                );
            }
        }
    }
    Ok(())
}

/// The containers on a kernel of which so many writes of their hand-over succeed before one fails.
fn failing(
    alloc: Global,
    moves: &[Move],
    after: usize,
) -> Result<(FusedKernel<ModelKernel>, Vec<Entry>), Fail> {
    let before = 2 + 3 * moves.len() as u64;
    let kernel = two_nodes(alloc)?.ok_or("no machine")?;
    let mut kernel = FusedKernel::new(kernel, before.saturating_add(after as u64));
    let entries = launch(alloc, &mut kernel, moves)?;
    Ok((kernel, entries))
}

#[test]
fn every_write_failed_in_turn(rt: HostRuntime) -> Result<(), Fail> {
    for (moves, writes) in MOVES {
        for after in 0..writes {
            let (mut kernel, entries) = failing(rt.alloc(), moves, after)?;
            let mut over = handover(entries.to_vec(rt.alloc())?, set("0")).ok_or("no hand-over")?;
            let taken = run(&mut kernel, &mut over, entries.as_slice(), 99, 0);
            assert_eq!(rt;
                taken,
                Some(writes.saturating_add(1)),
                "write {after} failed"
            );
        }
    }
    Ok(())
}

/// Steps until Done, or until a write fails.
fn steps<K: Kernel>(
    kernel: &mut K,
    handover: &mut Handover,
    most: usize,
) -> Option<Result<(), KernelFault>> {
    for _ in 0..most {
        match step(handover, kernel)? {
            Ok(Progress::More) => {}
            Ok(Progress::Done) => return Some(Ok(())),
            Err(fault) => return Some(Err(fault)),
        }
    }
    None
}

#[test]
fn all_at_once_as_by_steps(rt: HostRuntime) -> Result<(), Fail> {
    for (moves, writes) in MOVES {
        for after in 0..=writes {
            let (mut kernel, entries) = failing(rt.alloc(), moves, after)?;
            let (mut other, _) = failing(rt.alloc(), moves, after)?;
            let mut over = handover(entries.to_vec(rt.alloc())?, set("0")).ok_or("no hand-over")?;
            let answer = steps(&mut other, &mut over, writes);
            assert_eq!(rt; finish(&mut over, &mut kernel), answer);
            assert_eq!(rt; answer == Some(Ok(())), after == writes);
            for entry in &entries {
                assert_eq!(rt;
                    kernel.requested_cpus(entry.group),
                    other.requested_cpus(entry.group)
                );
            }
        }
    }
    Ok(())
}
