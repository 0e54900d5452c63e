//! `create` (OCI Runtime Specification 1.0.2, runtime.md, "Create"), and `adopt`, which takes up a container that runs
//! already.
ghost use Rattle.std.specs.Prelude.{◌≡◌, ◌≢◌, ◌+◌, ℕ, Err};
ghost use Rattle.std.specs.FinSet as set;
ghost use Rattle.faults.specs.declared.OrMemory.TheVariants.{Fault};
ghost use Rattle.node.specs.declared.fault.NodeFault.TheVariants.{NotFree, Kernel};
ghost use Rattle.node.specs.Wanted.{Asks, Wants, Reads};
ghost use Rattle.node.specs.Refusals.{Checks};
ghost use Rattle.node.specs.Calls.{late_answer, Places, Creates, Adopts};
ghost use Rattle.node.specs.Making.{LateCause};
ghost use Rattle.node.specs.Leaves.{CreateLeaves, rise_or_memory};
ghost use Rattle.node.specs.Written.{CreateWrites};

use crate::container::Container;
use crate::containers::{append, find, prepare};
use crate::free_cpus::is_pinned;
use crate::launch::{lacks_pid, launch};
use crate::{CONTAINER_LIMIT, Node, NodeFault};
use certificate_text::is_id;
use config_json::{Config, ConfigFault};
use cpu_set::IdSet;
use demand::Demand;
use faults::OrMemory;
use kernel_model::{Kernel, KernelFault};
use machine::Machine;
use std::alloc::Global;

/// What a config that was read asks for on a machine.
fn demand_of(config: &Config, machine: &Machine) -> Result<Demand, NodeFault>
    ensures { Asks machine.now config.now result }
{
    match Demand::of(&config.cpu, machine) {
        Ok(demand) => Ok(demand),
        Err(fault) => Err(NodeFault::Demand(fault)),
    }
}

/// What a config says on a machine, given how it was read.
fn wanted(
    read: Result<Config, OrMemory<ConfigFault>>,
    machine: &Machine,
) -> Result<(bool, Demand), OrMemory<NodeFault>>
    ensures { Wants machine.now read result }
{
    let config = match read {
        Ok(config) => config,
        Err(OrMemory::Memory) => return Err(OrMemory::Memory),
        Err(OrMemory::Fault(fault)) => return Err(OrMemory::Fault(NodeFault::Config(fault))),
    };
    match demand_of(&config, machine) {
        Ok(demand) => Ok((config.runnable, demand)),
        Err(fault) => Err(OrMemory::Fault(fault)),
    }
}

/// What a config says on a machine: whether the container can be started, and what it asks for.
pub fn read_config(
    alloc: Global,
    config: &[u8],
    machine: &Machine,
) -> Result<(bool, Demand), OrMemory<NodeFault>>
    ensures { Reads machine.now config.now result }
{
    wanted(Config::read(alloc, config), machine)
}

/// What is returned where the kernel refuses.
fn late_answer(error: OrMemory<KernelFault>) -> OrMemory<NodeFault>
    ensures { result ≡ late_answer error }
{
    match error {
        OrMemory::Memory => OrMemory::Memory,
        OrMemory::Fault(fault) => OrMemory::Fault(NodeFault::Kernel(fault)),
    }
}

impl<K: Kernel + Drop> Node<K> {
    /// Whether a container of this id may be created.
    fn check_id(&self, id: &str) -> Result<(), NodeFault>
        ensures { Checks self.now id.now result }
    {
        if self.phase.is_underway() {
            return Err(NodeFault::Busy);
        }
        if !is_id(id.as_bytes()) {
            return Err(NodeFault::BadId);
        }
        if find(&self.containers, id).is_some() {
            return Err(NodeFault::IdInUse);
        }
        if self.containers.len() >= CONTAINER_LIMIT {
            return Err(NodeFault::TooManyContainers);
        }
        Ok(())
    }

    /// Makes a container, whose group requests these CPUs at first.
    fn place(
        &mut self,
        id: &str,
        bundle: &str,
        config: &[u8],
        cpus: IdSet,
    ) -> Result<u32, OrMemory<NodeFault>>
        requires { cpus ≢ set.empty }
        ensures { Places cpus self.old id.now bundle.now config.now result self.new }
    {
        self.check_id(id)?;
        let (runnable, demand) = read_config(self.alloc, config, &self.machine)?;
        if let Some(cpu) = self.first_taken(&cpus, is_pinned(demand.kind)) {
            return Err(OrMemory::Fault(NodeFault::NotFree(cpu)));
        }
        if lacks_pid(&self.kernel, self.parent, id) {
            return Err(late_answer(OrMemory::Fault(KernelFault::NoPids)));
        }
        let (key, bundle) = match prepare(self.alloc, &mut self.containers, id, bundle) {
            Ok(texts) => texts,
            Err(_) => return Err(OrMemory::Memory),
        };
        let (group, pid) = match launch(&mut self.kernel, self.parent, id, cpus, demand.homes) {
            Ok(made) => made,
            Err(error) => return Err(late_answer(error)),
        };
        let container = Container {
            bundle,
            demand,
            runnable,
            group,
            pid,
            started: false,
        };
        append(&mut self.containers, key, container);
        Ok(pid)
    }

    /// Creates a container of a bundle with this config. Its group is on the reserved CPUs and its homes, and in it its
    /// first process is made, whose pid is returned.
    ///
    /// # Errors
    /// In this order: `Busy`, `BadId`, `IdInUse`, `TooManyContainers`, `Config`, `Demand`; and then of the kernel
    /// `NoSerials`, `NoPids` or `Failed`. Before the first allocation it is known whether the config has too many bytes
    /// or none, and whether they are UTF-8. If no pid or no serial is left, no group is made. An allocation failure or
    /// a failed write leaves at most an empty group of this id, which a later `create` of the id uses.
    pub fn create(
        &mut self,
        id: &str,
        bundle: &str,
        config: &[u8],
    ) -> Result<u32, OrMemory<NodeFault>>
        // It answers the first thing that stands against it, in the written order. Else it makes the kernel's calls in
        // theirs. These are the group, found by its name or made, its CPUs, its memory nodes, and only then the first
        // process.
        ensures creates { Creates self.old id.now bundle.now config.now result self.new }
        // If a cause of its own refuses it or no pid is left, nothing changes. If an allocation fails or the kernel
        // refuses else, it leaves at most a group of that id without a process. The next `create` of the id finds it.
        ensures leaves { CreateLeaves self.old id.now result self.new }
        ensures counted { self.new.kernel.failures ≡ self.old.kernel.failures + rise_or_memory result }
        // It makes four writing calls, or three if the group is there. If it is refused it makes at most these.
        ensures made { CreateWrites self.old id.now result self.new }
        // The kernel refuses in three cases only. A write fails, no serial for a group of this id is left, or no pid is
        // left. If no serial is left, only the list of calls grows, and if no pid is left nothing.
        ensures late { (fault : KernelFault) → result ≡ Err (Fault (Kernel fault))
            → LateCause self.old id.now fault self.new }
        // It never answers that a CPU is not free.
        ensures never { (cpu : ℕ) → result ≢ Err (Fault (NotFree cpu)) }
    {
        self.holds();
        let reserved = self.machine.reserved();
        self.place(id, bundle, config, reserved)
    }

    /// Takes up a container of a bundle with this config that has these CPUs already. It is as `create`, but its group
    /// requests these at first and not the reserved ones, so that nothing changes for it.
    ///
    /// # Errors
    /// In this order: those of `create` up to `Demand`, `NotFree`, and then those of the kernel, as `create` has them.
    pub fn adopt(
        &mut self,
        id: &str,
        bundle: &str,
        config: &[u8],
        cpus: IdSet,
    ) -> Result<u32, OrMemory<NodeFault>>
        requires { cpus ≢ set.empty }
        // It is `create` on CPUs that the container has already, in place of the reserved ones. Both are one relation,
        // `Places`, with these CPUs as its argument. It makes a container only on CPUs that it may request, and else
        // refuses the least that it may not. Such a CPU is not present; or it is not reserved, a live container
        // requests it, and one of the two is pinned (`MayRequest`, `IsLeastTaken`).
        ensures adopts { Adopts self.old id.now bundle.now config.now cpus result self.new }
        // It leaves what `create` does.
        ensures leaves { CreateLeaves self.old id.now result self.new }
        ensures counted { self.new.kernel.failures ≡ self.old.kernel.failures + rise_or_memory result }
        // It makes as many writing calls as `create`.
        ensures made { CreateWrites self.old id.now result self.new }
        // The kernel refuses in the same cases.
        ensures late { (fault : KernelFault) → result ≡ Err (Fault (Kernel fault))
            → LateCause self.old id.now fault self.new }
    {
        self.holds();
        self.place(id, bundle, config, cpus)
    }
}
