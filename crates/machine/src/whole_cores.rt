//! Cores and sets of CPUs: the cores of which a set has all CPUs, and the CPUs of cores.
ghost use Rattle.std.specs.Prelude.{◌≡◌, ℕ, ◌+◌, ◌<◌, ◌≤◌, ◌&&◌, ◌||◌, ◌==◌, true, false, not};
ghost use Rattle.std.specs.Prelude.{nat_lt};
ghost use Rattle.std.specs.FinSet as set;
ghost use Rattle.machine.specs.Present.{present, IsPresent};
ghost use Rattle.machine.specs.Cores.{core_of, cpus_of_core, is_core_in, cores_in, cpus_of_cores, whole_in, IsWhole};
ghost use Rattle.machine.specs.Index.{IsFirstOf};
ghost use Rattle.cpu_set.specs.declared.TheConstants.{CPU_LIMIT};
ghost use Rattle.cpu_set.specs.Members.{IsCpu, InRange};
ghost use Rattle.machine.specs.IsSound.{IsSound};

use crate::Machine;
use cpu_set::{CPU_LIMIT, IdSet};

/// So many members of a set are walked before it is counted whether fewer are lacking in it: a count of all words costs
/// as much as a walk over some tens.
const FEW: u16 = 16;

impl Machine {
    /// How many CPUs each core has: those that are hyperthreads (SMT siblings) of one another.
    pub fn threads(&self) -> u32
        ensures is { result ≡ self.now.threads }
        ensures some { 1 ≤ result }
        ensures each { (cpu : ℕ) → IsPresent self.now cpu
            → set.len (cpus_of_core self.now (core_of self.now cpu)) ≡ result }
        ensures sound { IsSound self.now }
        ensures in_range { InRange (present self.now) }
    {
        self.threads
    }

    /// Whether each CPU is a core of its own.
    pub fn is_single(&self) -> bool
        ensures is { result ≡ (self.now.threads == 1) }
        ensures in_range { InRange (present self.now) }
        ensures sound { IsSound self.now }
    {
        self.threads == 1
    }

    /// The cores of which the set has all CPUs, each by its lowest CPU. It is the set itself if each CPU is a core of
    /// its own. O(c) of c CPUs in the set or lacking in it, whichever are fewer.
    pub fn cores_in(&self, cpus: &IdSet) -> IdSet
        ensures is { result ≡ cores_in self.now cpus.now }
        ensures sound { IsSound self.now }
    {
        if self.is_single() {
            return *cpus;
        }
        let mut cores = IdSet::empty();
        let mut walked = 0;
        let mut next = cpus.first();
        while let Some(cpu) = next {
            if walked == FEW {
                let lacking = self.present.minus(cpus);
                if lacking.count() < cpus.count() {
                    return self.cores_by_lacking(cpus, &lacking);
                }
            }
            if self.has_core(cpu, cpus) {
                cores.insert(cpu);
            }
            walked += 1;
            next = cpus.next_after(cpu);
        }
        cores
    }

    /// The cores of which the set has all CPUs: all but those of the present CPUs that it lacks.
    fn cores_by_lacking(&self, cpus: &IdSet, lacking: &IdSet) -> IdSet
        requires { lacking.now ≡ set.difference (present self.now) cpus.now }
        ensures { result ≡ cores_in self.now cpus.now }
    {
        cpus.stays_below_the_limit();
        let mut cores = cpus.meet(&self.firsts);
        let mut next = lacking.first();
        while let Some(cpu) = next {
            let core = self.core_at(cpu);
            cores.remove(core);
            next = lacking.next_after(cpu);
        }
        cores
    }

    /// Whether the CPU, which the set has, is the lowest of a core of which the set has all CPUs.
    fn has_core(&self, core: u16, cpus: &IdSet) -> bool
        requires in_range { IsCpu core }
        requires member { set.contains cpus.now core ≡ true }
        ensures { result ≡ is_core_in self.now cpus.now core }
    {
        if self.core_at(core) != core {
            return false;
        }
        let mut next = self.sibling_of(core);
        while next < CPU_LIMIT {
            if !cpus.contains(next) {
                return false;
            }
            next = self.sibling_of(next);
        }
        true
    }

    /// The lowest CPU of the CPU's core.
    fn core_at(&self, cpu: u16) -> u16
        requires { IsCpu cpu }
        ensures is { result ≡ core_of self.now cpu }
        ensures in_range { InRange (present self.now) }
        ensures sound { IsSound self.now }
    {
        self.lowest[cpu as usize]
    }

    /// The next CPU of the CPU's core, the limit where there is none.
    fn sibling_of(&self, cpu: u16) -> u16
        requires { IsCpu cpu }
        ensures { IsFirstOf self.now.lowest (core_of self.now cpu) (cpu + 1) result }
    {
        self.siblings[cpu as usize]
    }

    /// The CPUs of the cores with these lowest CPUs. It is the set itself if each CPU is a core of its own. O(c) of c
    /// CPUs of the cores in the set or lacking in it, whichever are fewer.
    pub fn cpus_of_cores(&self, cores: &IdSet) -> IdSet
        ensures is { result ≡ cpus_of_cores self.now cores.now }
        ensures sound { IsSound self.now }
    {
        if self.is_single() {
            cores.stays_below_the_limit();
            return *cores;
        }
        let mut cpus = IdSet::empty();
        let mut walked = 0;
        let mut next = cores.first();
        while let Some(core) = next {
            if walked == FEW {
                let lacking = self.present.meet(&self.firsts).minus(cores);
                if lacking.count() < cores.count() {
                    return self.cpus_by_lacking(cores, &lacking);
                }
            }
            self.add_core(core, &mut cpus);
            walked += 1;
            next = cores.next_after(core);
        }
        cpus
    }

    /// The CPUs of the cores: all but those of the cores that the set lacks.
    fn cpus_by_lacking(&self, cores: &IdSet, lacking: &IdSet) -> IdSet
        requires { (c : ℕ) → set.contains lacking.now c
            ≡ ((set.contains (present self.now) c && (core_of self.now c == c)) && not (set.contains cores.now c)) }
        ensures { result ≡ cpus_of_cores self.now cores.now }
    {
        cores.stays_below_the_limit();
        let mut cpus = self.present.union(cores);
        let mut next = lacking.first();
        while let Some(core) = next {
            self.take_core(core, &mut cpus);
            next = lacking.next_after(core);
        }
        cpus.stays_below_the_limit();
        cpus
    }

    /// Takes out the CPUs of the core with this lowest CPU.
    fn take_core(&self, core: u16, cpus: &mut IdSet)
        requires in_range { IsCpu core }
        requires lowest { core_of self.now core ≡ core }
        ensures gone { (q : ℕ) → core ≤ q → q < CPU_LIMIT → core_of self.now q ≡ core
            → set.contains cpus.new q ≡ false }
        ensures others { (q : ℕ) → (core_of self.now q ≡ core → ⊥)
            → set.contains cpus.new q ≡ set.contains cpus.old q }
    {
        let mut next = core;
        while next < CPU_LIMIT {
            cpus.remove(next);
            next = self.sibling_of(next);
        }
    }

    /// Adds the CPUs of the core with this lowest CPU, and none where no core has it.
    fn add_core(&self, core: u16, cpus: &mut IdSet)
        requires { IsCpu core }
        ensures { (q : ℕ) → set.contains cpus.new q
            ≡ (set.contains cpus.old q || (nat_lt q CPU_LIMIT && (core_of self.now q == core))) }
    {
        if self.core_at(core) != core {
            return;
        }
        let mut next = core;
        while next < CPU_LIMIT {
            cpus.insert(next);
            next = self.sibling_of(next);
        }
    }

    /// The CPUs of those cores of which the set has all CPUs. It is the set itself if each CPU is a core of its own.
    /// O(c) of c CPUs in the set or lacking in it, whichever are fewer.
    pub fn whole_in(&self, cpus: IdSet) -> IdSet
        ensures is { result ≡ whole_in self.now cpus }
        // What it returns is whole.
        ensures whole { IsWhole self.now result }
        ensures sound { IsSound self.now }
    {
        if self.is_single() {
            return cpus;
        }
        cpus.stays_below_the_limit();
        self.cpus_of_cores(&self.cores_in(&cpus))
    }
}
