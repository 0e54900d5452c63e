//! What a runtime needs of a kernel: the trait, each call of which is one case of a written meaning.
ghost use Rattle.std.specs.Prelude.{◌≡◌, Some, None, true, MatchResult};
ghost use Rattle.faults.specs.Calls.{behind};
ghost use Rattle.cpuset_tree.specs.Groups.{root_of, has_group, child_of, requested_cpus, requested_mems};
ghost use Rattle.cpuset_tree.specs.Effective.{effective_cpus, effective_mems};
ghost use Rattle.proctable.specs.Processes.{is_alive};
ghost use Rattle.proctable.specs.TableAnswers.{has_pids};
ghost use Rattle.kernel_model.specs.KernelState.{KernelState};
ghost use Rattle.kernel_model.specs.Cases.{MakesGroup, RemovesGroup, WritesCpus, WritesMems, Spawns, EndsGroup, Forks};
ghost use Rattle.kernel_model.specs.Cases.{Exits};
ghost use Rattle.kernel_model.specs.Cases.{GoesOffline, ComesOnline, read_of};
ghost use Rattle.kernel_model.specs.Refusals.{make_refusal};
ghost use Rattle.kernel_model.specs.WellFormed.{IsWellFormed};

use crate::KernelFault;
use cpu_set::IdSet;
use cpuset_tree::Group;
use faults::OrMemory;

/// The kernel that a runtime pins containers on.
///
/// Its meaning is a plain value: the groups with their parents, names and requested sets, the present, reserved and
/// online CPUs, the memory nodes, the live processes with their groups and first processes, the next pid and the next
/// serial, how many writes failed, and the list of the writing calls that were made. Each call is one case of it.
///
/// Each of the calls from `make_group` to `end_group` is a write: it is told in the list with what it returns, and may
/// return [`KernelFault::Failed`] in place of anything else, which is counted as a failure and changes nothing else. No
/// other call is told.
pub trait Kernel {
    ghost state: { Self → KernelState };

    /// Makes a group below the parent, which requests nothing.
    ///
    /// # Errors
    /// In this order: `NoGroup`, `Exists`, `NoSerials`.
    fn make_group(&mut self, parent: Group, name: &str) -> Result<Group, OrMemory<KernelFault>>
        ensures { MakesGroup (state self.old) parent name.now result (state self.new) };

    /// Removes a group.
    ///
    /// # Errors
    /// In this order: `NoGroup`, `IsRoot`, `HasChildren`, `HasProcesses`.
    fn remove_group(&mut self, group: Group) -> Result<(), KernelFault>
        ensures { RemovesGroup (state self.old) group result (state self.new) };

    /// Writes the CPUs that a group requests.
    ///
    /// # Errors
    /// In this order: `NoGroup`, `IsRoot`.
    fn write_cpus(&mut self, group: Group, cpus: IdSet) -> Result<(), KernelFault>
        ensures { WritesCpus (state self.old) group cpus result (state self.new) };

    /// Writes the memory nodes that a group requests.
    ///
    /// # Errors
    /// In this order: `NoGroup`, `IsRoot`.
    fn write_mems(&mut self, group: Group, mems: IdSet) -> Result<(), KernelFault>
        ensures { WritesMems (state self.old) group mems result (state self.new) };

    /// Makes a first process in a group.
    ///
    /// # Errors
    /// In this order: `NoGroup`, `NoPids`.
    fn spawn(&mut self, group: Group) -> Result<u32, OrMemory<KernelFault>>
        ensures { Spawns (state self.old) group result (state self.new) };

    /// Ends all processes of a group.
    ///
    /// # Errors
    /// `NoGroup`.
    fn end_group(&mut self, group: Group) -> Result<(), KernelFault>
        ensures { EndsGroup (state self.old) group result (state self.new) };

    /// The group that has no parent.
    ///
    /// Whoever asks for it knows that the kernel's meaning is well formed.
    fn root(&self) -> Group
        ensures root { root_of (state self.now).tree ≡ Some result }
        ensures well_formed { IsWellFormed (state self.now) };

    /// The group's child of this name, if it has one.
    ///
    /// # Errors
    /// `NoGroup`.
    fn find_group(&self, parent: Group, name: &str) -> Result<Option<Group>, KernelFault>
        ensures { result ≡ read_of (state self.now) parent (child_of (state self.now).tree parent name.now) };

    /// Whether a group can be made below the parent, or why not. It is no write.
    ///
    /// # Errors
    /// In this order: `NoGroup`, `Exists`, `NoSerials`.
    fn makable(&self, parent: Group, name: &str) -> Result<(), KernelFault>
        ensures { MatchResult result (λ _. make_refusal (state self.now) parent name.now ≡ None)
            (λ fault. make_refusal (state self.now) parent name.now ≡ Some fault) };

    /// Whether a pid is left for one process more.
    fn has_pids(&self) -> bool
        ensures { result ≡ has_pids (state self.now).table };

    /// The CPUs that a group requests.
    ///
    /// # Errors
    /// `NoGroup`.
    fn requested_cpus(&self, group: Group) -> Result<&IdSet, KernelFault>
        ensures { behind result ≡ read_of (state self.now) group (requested_cpus (state self.now).tree group) };

    /// The CPUs that a group has in effect.
    ///
    /// # Errors
    /// `NoGroup`.
    fn effective_cpus(&self, group: Group) -> Result<&IdSet, KernelFault>
        ensures { behind result ≡ read_of (state self.now) group (effective_cpus (state self.now).tree group) };

    /// The memory nodes that a group requests.
    ///
    /// # Errors
    /// `NoGroup`.
    fn requested_mems(&self, group: Group) -> Result<&IdSet, KernelFault>
        ensures { behind result ≡ read_of (state self.now) group (requested_mems (state self.now).tree group) };

    /// The memory nodes that a group has in effect.
    ///
    /// # Errors
    /// `NoGroup`.
    fn effective_mems(&self, group: Group) -> Result<&IdSet, KernelFault>
        ensures { behind result ≡ read_of (state self.now) group (effective_mems (state self.now).tree group) };

    /// The CPUs that are online.
    fn online(&self) -> IdSet
        ensures { result ≡ (state self.now).tree.online };

    /// All memory nodes.
    fn nodes(&self) -> IdSet
        ensures { result ≡ (state self.now).tree.nodes };

    /// Whether a process of this pid is alive. Callers ask it of first pids.
    fn first_alive(&self, pid: u32) -> bool
        ensures { result ≡ is_alive (state self.now).table pid };

    /// A process forks: the new one is in its group and belongs to its first process.
    ///
    /// # Errors
    /// In this order: `NoProcess`, `NoPids`.
    fn fork(&mut self, parent: u32) -> Result<u32, OrMemory<KernelFault>>
        ensures { Forks (state self.old) parent result (state self.new) };

    /// A process ends, and all that belong to it if it is a first one.
    ///
    /// # Errors
    /// `NoProcess`.
    fn exit(&mut self, pid: u32) -> Result<(), KernelFault>
        ensures { Exits (state self.old) pid result (state self.new) };

    /// A CPU goes offline, or stays so.
    ///
    /// # Errors
    /// In this order: `NoCpu`, `Reserved`.
    fn offline(&mut self, cpu: u32) -> Result<(), KernelFault>
        ensures { GoesOffline (state self.old) cpu result (state self.new) };

    /// A CPU comes online, or stays so.
    ///
    /// # Errors
    /// `NoCpu`.
    fn online_cpu(&mut self, cpu: u32) -> Result<(), KernelFault>
        ensures { ComesOnline (state self.old) cpu result (state self.new) };
}

/// The CPUs that a group requests, if the caller knows that it is in the tree.
pub fn requested<K: Kernel>(kernel: &K, group: Group) -> &IdSet
    requires { has_group (K.state kernel.now).tree group ≡ true }
    ensures { result.now ≡ requested_cpus (K.state kernel.now).tree group }
{
    match kernel.requested_cpus(group) {
        Ok(cpus) => cpus,
        Err(_) => unreachable!(),
    }
}
