//! What a search reads: rows, kinds, and classes by their first CPUs.
ghost use Rattle.std.specs.Prelude.{◌≡◌, ℕ, ◌<◌, ◌≤◌, true, map, length, IfOk, IfSome, MatchOption};
ghost use Rattle.cpu_set.specs.Members.{IsCpu};
ghost use Rattle.transport.specs.Blocks.{IsFirstOf};
ghost use Rattle.transport.specs.Numbers.{number, IsIn, IsEachOnce};
ghost use Rattle.transport.specs.Representatives.{first_of};
ghost use Rattle.std.specs.FinSet as set;

use certificate::Row;
use cpu_set::{CPU_LIMIT, IdSet};
use std::alloc::{AllocError, Global};
use std::marker::Model;

/// What a search reads: the rows, for each the first of its kind, and the first CPU of each class of twins.
#[derive(Drop)]
pub struct Instance<'a> {
    pub rows: &'a [Row],
    pub kinds: &'a [usize],
    pub firsts: Representatives,
}

/// The first CPU of each class, no two of them the same; and by CPU the class whose first one it is.
#[derive(Drop)]
pub struct Representatives {
    cpus: Vec<u16>,
    set: IdSet,
    class_of: Vec<usize>,
}

impl Model for Representatives {
    ghost use Rattle.std.specs.Prelude.{ℕ, List, length};
    ghost use Rattle.transport.specs.Representatives.{IsIndex};

    ghost Value = { List ℕ };

    ghost view = { λ a. a.cpus.items };

    ghost invariant = { λ a. IsIndex a.cpus.items a.set a.class_of.items (length a.cpus.items) };
}

impl Representatives {
    /// The first CPUs of these classes.
    pub(crate) fn new(alloc: Global, classes: &[IdSet]) -> Result<Representatives, AllocError>
        requires once { IsEachOnce (map first_of classes.now) }
        requires in_range { (g : ℕ) → number (map first_of classes.now) g < CPU_LIMIT }
        ensures { IfOk result (λ firsts. firsts ≡ map first_of classes.now) }
    {
        let cpus = firsts_of(alloc, classes)?;
        let mut set = IdSet::empty();
        let mut class_of = vec![in alloc; 0usize; CPU_LIMIT as usize]?;
        for (class, cpu) in cpus.iter().enumerate() {
            set.insert(*cpu);
            class_of[*cpu as usize] = class;
        }
        Ok(Representatives {
            cpus,
            set,
            class_of,
        })
    }

    /// Those of some CPUs that are the first of a class.
    pub(crate) fn among(&self, cpus: &IdSet) -> IdSet
        ensures first { (cpu : ℕ) → set.contains result cpu ≡ true → IsIn self.now cpu }
        ensures some { (cpu : ℕ) → set.contains result cpu ≡ true → set.contains cpus.now cpu ≡ true }
        ensures all { (g : ℕ) → g < length self.now → set.contains cpus.now (number self.now g) ≡ true
            → set.contains result (number self.now g) ≡ true }
    {
        self.set.meet(cpus)
    }

    /// The first CPU of a class, if there is the class.
    pub(crate) fn first(&self, class: usize) -> Option<u16>
        ensures its { MatchOption result (length self.now ≤ class) (λ cpu. IsFirstOf self.now class cpu) }
        ensures in_range { IfSome result (λ cpu. IsCpu cpu) }
    {
        match self.cpus.get(class) {
            Some(cpu) => Some(*cpu),
            None => None,
        }
    }

    /// The class whose first CPU it is.
    pub(crate) fn class_of(&self, cpu: u16) -> usize
        requires { IsIn self.now cpu }
        ensures { (g : ℕ) → g < length self.now → number self.now g ≡ cpu → result ≡ g }
    {
        self.class_of[cpu as usize]
    }
}

/// The first CPU of each set, and 0 for an empty one.
pub(crate) fn firsts_of(alloc: Global, sets: &[IdSet]) -> Result<Vec<u16>, AllocError>
    ensures { IfOk result (λ firsts. firsts.items ≡ map first_of sets.now) }
{
    sets.iter().map(|set| first_or_0(set)).collect(alloc)
}

fn first_or_0(set: &IdSet) -> u16
    ensures { result ≡ first_of set.now }
{
    set.first().unwrap_or(0)
}

/// How many CPUs each set has.
pub(crate) fn sizes_of(alloc: Global, sets: &[IdSet]) -> Result<Vec<u32>, AllocError>
    ensures { IfOk result (λ sizes. sizes.items ≡ map (λ s. set.len s) sets.now) }
{
    sets.iter().map(|set| set.count()).collect(alloc)
}
