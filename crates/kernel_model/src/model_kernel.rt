//! The kernel in memory, of which no write fails.
ghost use Rattle.std.specs.Prelude.{◌≡◌, ◌≢◌, ◌≤◌, true, false, Some, None, IfOk, MatchOption, MatchResult};
ghost use Rattle.std.specs.FinSet as set;
ghost use Rattle.cpu_set.specs.Members.{IsCpu};
ghost use Rattle.proctable.specs.declared.TheConstants.{LAST_PID};
ghost use Rattle.cpuset_tree.specs.Places.{place_of, place_behind};
ghost use Rattle.kernel_model.specs.KernelState.{IsFirstKernel};
ghost use Rattle.kernel_model.specs.Cases.{MakesGroup, RemovesGroup, WritesCpus, WritesMems, Spawns, EndsGroup};
ghost use Rattle.kernel_model.specs.Untold.{MakesIn, RemovesIn, WritesCpusIn, WritesMemsIn, SpawnsAt, EndsIn};
ghost use Rattle.kernel_model.specs.Refusals.{remove_refusal};

use crate::fault::{of_proc, of_tree};
use crate::{CallMade, Kernel, KernelFault, Trace};
use cpu_set::{CPU_LIMIT, IdSet};
use cpuset_tree::{Group, Tree};
use faults::OrMemory;
use proctable::ProcTable;
use std::alloc::{AllocError, Global};
use std::marker::Model;

/// A kernel in memory, of which no write fails.
#[derive(Drop)]
pub struct ModelKernel {
    tree: Tree,
    table: ProcTable,
    present: IdSet,
    reserved: IdSet,
    trace: Trace,
}

impl Model for ModelKernel {
    ghost use Rattle.std.specs.Prelude.{[]};
    ghost use Rattle.kernel_model.specs.KernelState.{KernelState, kernel_code};

    ghost Value = { KernelState };

    ghost coded = { kernel_code };

    ghost use Rattle.kernel_model.specs.WellFormed.{IsWellFormed};

    ghost view = { λ k. record {
      tree = k.tree;
      table = k.table;
      present = k.present;
      reserved = k.reserved;
      failures = 0;
      trace = k.trace.calls;
    } };

    ghost invariant = { λ k. IsWellFormed (record {
      tree = k.tree;
      table = k.table;
      present = k.present;
      reserved = k.reserved;
      failures = 0;
      trace = [];
    }) };
}

impl ModelKernel {
    /// A kernel with its root group alone and no process, whose first process gets this pid.
    ///
    /// # Errors
    /// An allocation failure.
    pub fn new(
        alloc: Global,
        present: IdSet,
        reserved: IdSet,
        online: IdSet,
        nodes: IdSet,
        first_pid: u32,
    ) -> Result<ModelKernel, AllocError>
        requires some { reserved ≢ set.empty }
        requires reserved { set.is_subset reserved online ≡ true }
        requires online { set.is_subset online present ≡ true }
        requires low { 2 ≤ first_pid }
        requires high { first_pid ≤ LAST_PID }
        ensures { IfOk result (IsFirstKernel present reserved online nodes first_pid) }
    {
        Ok(ModelKernel {
            tree: Tree::new(alloc, online, nodes, 0)?,
            table: ProcTable::new(alloc, first_pid),
            present,
            reserved,
            trace: Trace::none(),
        })
    }

    /// Whether a group can be removed, or why not.
    ///
    /// # Errors
    /// In this order: `NoGroup`, `IsRoot`, `HasChildren`, `HasProcesses`.
    pub fn removable(&self, group: Group) -> Result<(), KernelFault>
        ensures { MatchResult result (λ _. remove_refusal self.now group ≡ None) (λ fault. remove_refusal self.now group
            ≡ Some fault) }
    {
        self.tree.removable(group)?;
        match self.table.count_in(group) {
            0 => Ok(()),
            _ => Err(KernelFault::HasProcesses),
        }
    }

    /// The parent and the name of a group that is there and is not the root.
    pub fn place(&self, group: Group) -> Option<(Group, &str)>
        ensures { place_behind result ≡ place_of self.now.tree group }
    {
        self.tree.place(group)
    }

    /// No write of this kernel has failed; nothing runs.
    pub fn never_fails(&self)
        ensures { self.now.failures ≡ 0 }
    {
        let _ = &self.tree;
    }

    /// Makes a group in the tree.
    fn make_group_body(&mut self, parent: Group, name: &str) -> Result<Group, OrMemory<KernelFault>>
        ensures { MakesIn self.old parent name.now result self.new }
    {
        self.tree.make(parent, name).map_err(of_tree)
    }

    /// Removes a group of no processes from the tree.
    fn remove_group_body(&mut self, group: Group) -> Result<(), KernelFault>
        ensures { RemovesIn self.old group result self.new }
    {
        if self.table.count_in(group) > 0 {
            self.tree.removable(group)?;
            return Err(KernelFault::HasProcesses);
        }
        Ok(self.tree.remove(group)?)
    }

    /// Writes the CPUs that a group requests in the tree.
    fn write_cpus_body(&mut self, group: Group, cpus: IdSet) -> Result<(), KernelFault>
        ensures { WritesCpusIn self.old group cpus result self.new }
    {
        Ok(self.tree.write_cpus(group, cpus)?)
    }

    /// Writes the memory nodes that a group requests in the tree.
    fn write_mems_body(&mut self, group: Group, mems: IdSet) -> Result<(), KernelFault>
        ensures { WritesMemsIn self.old group mems result self.new }
    {
        Ok(self.tree.write_mems(group, mems)?)
    }

    /// Makes a first process in the table, in a group that is there.
    fn spawn_body(&mut self, group: Group) -> Result<u32, OrMemory<KernelFault>>
        ensures { SpawnsAt self.old group result self.new }
    {
        if !self.tree.contains(group) {
            return Err(OrMemory::Fault(KernelFault::NoGroup));
        }
        self.table.spawn(group).map_err(of_proc)
    }

    /// Ends all processes of a group that is there.
    fn end_group_body(&mut self, group: Group) -> Result<(), KernelFault>
        ensures { EndsIn self.old group result self.new }
    {
        if !self.tree.contains(group) {
            return Err(KernelFault::NoGroup);
        }
        self.table.end_in(group);
        Ok(())
    }
}

/// The number as one of a present CPU, if it is that.
fn present_cpu(present: &IdSet, cpu: u32) -> Option<u16>
    ensures { MatchOption result (set.contains present.now cpu ≡ false) (λ n. (n ≡ cpu)
        × (set.contains present.now n ≡ true) × IsCpu n) }
{
    prove!(present.count() <= u32::from(CPU_LIMIT));
    match u16::try_from(cpu) {
        Ok(n) if present.contains(n) => Some(n),
        _ => None,
    }
}

impl Kernel for ModelKernel {
    ghost state = { λ k. k };

    fn make_group(&mut self, parent: Group, name: &str) -> Result<Group, OrMemory<KernelFault>>
        ensures case { MakesGroup self.old parent name.now result self.new }
        ensures never_fails { self.new.failures ≡ 0 }
    {
        let answer = self.make_group_body(parent, name);
        self.trace = self.trace.then(&CallMade::Group(parent, name, answer));
        answer
    }

    fn remove_group(&mut self, group: Group) -> Result<(), KernelFault>
        ensures case { RemovesGroup self.old group result self.new }
        ensures never_fails { self.new.failures ≡ 0 }
    {
        let answer = self.remove_group_body(group);
        self.trace = self.trace.then(&CallMade::Removal(group, answer));
        answer
    }

    fn write_cpus(&mut self, group: Group, cpus: IdSet) -> Result<(), KernelFault>
        ensures case { WritesCpus self.old group cpus result self.new }
        ensures never_fails { self.new.failures ≡ 0 }
    {
        let answer = self.write_cpus_body(group, cpus);
        self.trace = self.trace.then(&CallMade::Cpus(group, &cpus, answer));
        answer
    }

    fn write_mems(&mut self, group: Group, mems: IdSet) -> Result<(), KernelFault>
        ensures case { WritesMems self.old group mems result self.new }
        ensures never_fails { self.new.failures ≡ 0 }
    {
        let answer = self.write_mems_body(group, mems);
        self.trace = self.trace.then(&CallMade::Mems(group, &mems, answer));
        answer
    }

    fn spawn(&mut self, group: Group) -> Result<u32, OrMemory<KernelFault>>
        ensures case { Spawns self.old group result self.new }
        ensures never_fails { self.new.failures ≡ 0 }
    {
        let answer = self.spawn_body(group);
        self.trace = self.trace.then(&CallMade::Process(group, answer));
        answer
    }

    fn end_group(&mut self, group: Group) -> Result<(), KernelFault>
        ensures case { EndsGroup self.old group result self.new }
        ensures never_fails { self.new.failures ≡ 0 }
    {
        let answer = self.end_group_body(group);
        self.trace = self.trace.then(&CallMade::End(group, answer));
        answer
    }

    fn root(&self) -> Group {
        self.tree.root()
    }

    fn find_group(&self, parent: Group, name: &str) -> Result<Option<Group>, KernelFault> {
        Ok(self.tree.find(parent, name)?)
    }

    fn makable(&self, parent: Group, name: &str) -> Result<(), KernelFault> {
        Ok(self.tree.makable(parent, name)?)
    }

    fn has_pids(&self) -> bool {
        self.table.has_pids()
    }

    fn requested_cpus(&self, group: Group) -> Result<&IdSet, KernelFault> {
        Ok(self.tree.cpus(group)?)
    }

    fn effective_cpus(&self, group: Group) -> Result<&IdSet, KernelFault> {
        Ok(self.tree.effective_cpus(group)?)
    }

    fn requested_mems(&self, group: Group) -> Result<&IdSet, KernelFault> {
        Ok(self.tree.mems(group)?)
    }

    fn effective_mems(&self, group: Group) -> Result<&IdSet, KernelFault> {
        Ok(self.tree.effective_mems(group)?)
    }

    fn online(&self) -> IdSet {
        self.tree.online()
    }

    fn nodes(&self) -> IdSet {
        self.tree.nodes()
    }

    fn first_alive(&self, pid: u32) -> bool {
        self.table.alive(pid)
    }

    fn fork(&mut self, parent: u32) -> Result<u32, OrMemory<KernelFault>> {
        self.table.fork(parent).map_err(of_proc)
    }

    fn exit(&mut self, pid: u32) -> Result<(), KernelFault> {
        Ok(self.table.exit(pid)?)
    }

    fn offline(&mut self, cpu: u32) -> Result<(), KernelFault> {
        let Some(cpu) = present_cpu(&self.present, cpu) else {
            return Err(KernelFault::NoCpu);
        };
        if self.reserved.contains(cpu) {
            return Err(KernelFault::Reserved);
        }
        let mut left = self.tree.online();
        left.remove(cpu);
        self.tree.set_online(left);
        Ok(())
    }

    fn online_cpu(&mut self, cpu: u32) -> Result<(), KernelFault> {
        let Some(cpu) = present_cpu(&self.present, cpu) else {
            return Err(KernelFault::NoCpu);
        };
        let mut more = self.tree.online();
        more.insert(cpu);
        self.tree.set_online(more);
        Ok(())
    }
}
