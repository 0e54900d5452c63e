//! Who holds which CPU.
ghost use Rattle.std.specs.Prelude.{◌≡◌, ℕ, ◌<◌, true, cond, IfOk, length};
ghost use Rattle.std.specs.FinSet as set;
ghost use Rattle.cpu_set.specs.Members.{IsCpu};
ghost use Rattle.blame.specs.Marking.{owner};
ghost use Rattle.blame.specs.Parts.{AreOwners, set_at};

use cpu_set::{CPU_LIMIT, IdSet};
use std::alloc::{AllocError, Global};

/// For each CPU the number of the row whose set has it, or `nobody`.
pub(crate) fn owners(
    alloc: Global,
    numbers: &[usize],
    sets: &[IdSet],
    nobody: usize,
) -> Result<Vec<usize>, AllocError>
    requires same { length sets.now ≡ length numbers.now }
    requires apart { (i j c : ℕ) → i < length sets.now → j < length sets.now
        → set.contains (set_at sets.now i) c ≡ true → set.contains (set_at sets.now j) c ≡ true → i ≡ j }
    ensures long { IfOk result (λ own. length own.items ≡ CPU_LIMIT) }
    ensures owners { IfOk result (λ own. AreOwners numbers.now sets.now nobody own.items) }
{
    let mut own = vec![in alloc; nobody; CPU_LIMIT as usize]?;
    for i in 0..sets.len() {
        note(&sets[i], numbers[i], &mut own);
    }
    Ok(own)
}

/// Notes who holds the CPUs of a set.
fn note(cpus: &IdSet, row: usize, own: &mut Vec<usize>)
    requires { length own.old.items ≡ CPU_LIMIT }
    ensures long { length own.new.items ≡ CPU_LIMIT }
    ensures noted { (c : ℕ) → IsCpu c → owner own.new.items c ≡ cond (set.contains cpus.now c) row (owner own.old.items c) }
{
    let mut left = *cpus;
    while let Some(cpu) = left.first() {
        left.remove(cpu);
        own[cpu as usize] = row;
    }
}
