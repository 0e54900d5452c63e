//! The modelled kernel: 1,024 groups below one, and a process that forks.

use cpu_set::IdSet;
use cpuset_tree::{Group, Tree};
use proctable::ProcTable;
use std::alloc::Global;

const LEAVES: usize = 1_024;

const CPUS: u16 = 64;

/// How many forked processes are alive at a time.
const CHILDREN: u32 = 10_000;

/// A set of neighbours, as many CPUs as `to - from`.
fn range(from: u16, to: u16) -> IdSet {
    let mut set = IdSet::empty();
    for n in from..to.min(cpu_set::CPU_LIMIT) {
        set.insert(n);
    }
    set
}

/// A tree with one group below the root, and the leaves below that.
fn tree(alloc: Global) -> Option<(Tree, Vec<Group>)> {
    let mut tree = Tree::new(alloc, range(0, CPUS), range(0, 1), 0).ok()?;
    let above = tree.make(tree.root(), "numarun").ok()?;
    let mut leaves = Vec::with_capacity(alloc, LEAVES).ok()?;
    for n in 0..LEAVES {
        let name = format!(in alloc; "{n}").ok()?;
        leaves.push(tree.make(above, name.as_str()).ok()?).ok()?;
    }
    Some((tree, leaves))
}

/// One leaf after another requests a CPU, and its effective CPUs are read.
pub fn leaf_writes(alloc: Global, count: u32) -> Option<u64> {
    let (mut tree, leaves) = tree(alloc)?;
    let mut sum: u64 = 0;
    for n in 0..count {
        let leaf = *leaves.get(n as usize % LEAVES)?;
        let cpu = (n % u32::from(CPUS)) as u16;
        tree.write_cpus(leaf, range(cpu, cpu + 1)).ok()?;
        sum = sum.wrapping_add(u64::from(tree.effective_cpus(leaf).ok()?.count()));
    }
    Some(sum)
}

/// One CPU goes offline or comes online, and the effective CPUs of one leaf after another are read.
pub fn online_changes(alloc: Global, count: u32) -> Option<u64> {
    let (mut tree, leaves) = tree(alloc)?;
    let mut sum: u64 = 0;
    for n in 0..count {
        tree.set_online(online(n));
        let leaf = *leaves.get(n as usize % LEAVES)?;
        sum = sum.wrapping_add(u64::from(tree.effective_cpus(leaf).ok()?.count()));
    }
    Some(sum)
}

/// The CPUs that are online in one turn: all, or all but one.
fn online(turn: u32) -> IdSet {
    let mut online = range(0, CPUS);
    if turn % 2 == 0 {
        online.remove((turn % u32::from(CPUS)) as u16);
    }
    online
}

/// What a group is granted of its parent's CPUs.
fn granted(requested: &IdSet, above: &IdSet) -> IdSet {
    let granted = requested.meet(above);
    if granted.is_empty() { *above } else { granted }
}

/// The effective CPUs of all leaves by the plain recursion from the root down.
fn plain_sum(online: &IdSet, requested: &[IdSet]) -> u64 {
    let above = granted(&IdSet::empty(), online);
    let mut sum: u64 = 0;
    for leaf in requested {
        sum = sum.wrapping_add(u64::from(granted(leaf, &above).count()));
    }
    sum
}

/// The same writes of leaves, with all effective sets worked out anew after each.
pub fn plain_leaf_writes(alloc: Global, count: u32) -> Option<u64> {
    let mut requested = vec![in alloc; IdSet::empty(); LEAVES].ok()?;
    let all = range(0, CPUS);
    let mut sum: u64 = 0;
    for n in 0..count {
        let cpu = (n % u32::from(CPUS)) as u16;
        *requested.get_mut(n as usize % LEAVES)? = range(cpu, cpu + 1);
        sum = sum.wrapping_add(plain_sum(&all, requested.as_slice()));
    }
    Some(sum)
}

/// The same changes of the online CPUs, with all effective sets worked out anew after each.
pub fn plain_online_changes(alloc: Global, count: u32) -> Option<u64> {
    let requested = vec![in alloc; IdSet::empty(); LEAVES].ok()?;
    let mut sum: u64 = 0;
    for n in 0..count {
        sum = sum.wrapping_add(plain_sum(&online(n), requested.as_slice()));
    }
    Some(sum)
}

/// A process forks, and the process that it forked some turns before ends.
pub fn forks(alloc: Global, count: u32) -> Option<u64> {
    let (tree, _) = tree(alloc)?;
    let mut table = ProcTable::new(alloc, 2);
    let first = table.spawn(tree.root()).ok()?;
    let mut sum: u64 = 0;
    for n in 0..count {
        let pid = table.fork(first).ok()?;
        if n >= CHILDREN {
            table.exit(pid.checked_sub(CHILDREN)?).ok()?;
        }
        sum = sum.wrapping_add(u64::from(pid));
    }
    Some(sum)
}

/// A process forks so often, and then all that it forked end, the oldest first.
pub fn forks_and_exits(alloc: Global, count: u32) -> Option<u64> {
    let (tree, _) = tree(alloc)?;
    let mut table = ProcTable::new(alloc, 2);
    let first = table.spawn(tree.root()).ok()?;
    let mut sum: u64 = 0;
    for _ in 0..count {
        sum = sum.wrapping_add(u64::from(table.fork(first).ok()?));
    }
    for n in 0..count {
        table.exit(first.checked_add(1)?.checked_add(n)?).ok()?;
    }
    Some(sum)
}
