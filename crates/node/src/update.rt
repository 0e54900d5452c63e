//! `update`: the config of a live container is read again.
ghost use Rattle.std.specs.Prelude.{◌≡◌, ◌+◌, ◌≤◌, true, Err, IfOk};
ghost use Rattle.cpuset_tree.specs.Groups.{has_group};
ghost use Rattle.faults.specs.declared.OrMemory.TheVariants.{Fault};
ghost use Rattle.node.specs.declared.fault.NodeFault.TheVariants.{Kernel};
ghost use Rattle.kernel_model.specs.KernelState.{writes};
ghost use Rattle.kernel_model.specs.Cases.{WritesCpus, WritesMems};
ghost use Rattle.node.specs.Leaves.{rise_or_memory};
ghost use Rattle.node.specs.Making.{IsAsBefore};
ghost use Rattle.node.specs.Updates.{becomes_pinned, gives_way, moves_home, MadeIf, Rewrites, Updates, WritesNoMore};
ghost use Rattle.node.specs.Viewed.{viewed};

use crate::container::Container;
use crate::containers::{find, replace};
use crate::create::read_config;
use crate::free_cpus::is_pinned;
use crate::{Node, NodeFault};
use cpu_set::IdSet;
use demand::Demand;
use faults::OrMemory;
use kernel_model::{Group, Kernel, KernelFault, requested};

/// Whether a shared container asks for CPUs of its own now.
fn becomes_pinned(before: &Demand, after: &Demand) -> bool
    ensures { result ≡ becomes_pinned before.now after.now }
{
    !is_pinned(before.kind) && is_pinned(after.kind)
}

/// Whether one does whose group requests others than the reserved ones.
fn gives_way<K: Kernel>(
    kernel: &K,
    reserved: &IdSet,
    container: &Container,
    demand: &Demand,
) -> bool
    requires { has_group (K.state kernel.now).tree container.now.group ≡ true }
    ensures { result ≡ gives_way (K.state kernel.now) reserved.now (viewed container.now) demand.now }
{
    if !becomes_pinned(&container.demand, demand) {
        return false;
    }
    *requested(kernel, container.group) != *reserved
}

/// Whether its homes are others now.
fn moves_home(before: &Demand, after: &Demand) -> bool
    ensures { result ≡ moves_home before.now after.now }
{
    before.homes != after.homes
}

/// Writes a group's CPUs, or does nothing.
fn write_cpus_if<K: Kernel>(
    make: bool,
    kernel: &mut K,
    group: Group,
    cpus: IdSet,
) -> Result<(), KernelFault>
    ensures { MadeIf make (K.state kernel.old) (WritesCpus (K.state kernel.old) group cpus) result
        (K.state kernel.new) }
{
    if make {
        return kernel.write_cpus(group, cpus);
    }
    Ok(())
}

/// Writes a group's memory nodes, or does nothing.
fn write_mems_if<K: Kernel>(
    make: bool,
    kernel: &mut K,
    group: Group,
    mems: IdSet,
) -> Result<(), KernelFault>
    ensures { MadeIf make (K.state kernel.old) (WritesMems (K.state kernel.old) group mems) result
        (K.state kernel.new) }
{
    if make {
        return kernel.write_mems(group, mems);
    }
    Ok(())
}

/// Writes the reserved CPUs where a shared container becomes pinned that requests others, and then its memory nodes
/// where its homes differ.
fn rewrite<K: Kernel>(
    kernel: &mut K,
    reserved: IdSet,
    container: &Container,
    demand: &Demand,
) -> Result<(), KernelFault>
    requires { has_group (K.state kernel.old).tree container.now.group ≡ true }
    ensures { Rewrites (K.state kernel.old) reserved (viewed container.now) demand.now result (K.state kernel.new) }
{
    let gives = gives_way(&*kernel, &reserved, container, demand);
    write_cpus_if(gives, kernel, container.group, reserved)?;
    let moves = moves_home(&container.demand, demand);
    write_mems_if(moves, kernel, container.group, demand.homes)
}

impl<K: Kernel + Drop> Node<K> {
    /// Reads the config of a live container again.
    fn update_body(
        &mut self,
        id: &str,
        bundle: &str,
        config: &[u8],
    ) -> Result<(), OrMemory<NodeFault>>
        ensures { Updates self.old id.now bundle.now config.now result self.new }
    {
        if self.phase.is_underway() {
            return Err(OrMemory::Fault(NodeFault::Busy));
        }
        let Some(container) = find(&self.containers, id) else {
            return Err(OrMemory::Fault(NodeFault::NoContainer));
        };
        if !self.kernel.first_alive(container.pid) {
            return Err(OrMemory::Fault(NodeFault::NotLive));
        }
        let (_, demand) = match read_config(self.alloc, config, &self.machine) {
            Ok(wanted) => wanted,
            Err(error) => return Err(error),
        };
        let bundle = match String::from_str(self.alloc, bundle) {
            Ok(bundle) => bundle,
            Err(_) => return Err(OrMemory::Memory),
        };
        let reserved = self.machine.reserved();
        if let Err(fault) = rewrite(&mut self.kernel, reserved, container, &demand) {
            return Err(OrMemory::Fault(NodeFault::Kernel(fault)));
        }
        replace(&mut self.containers, id, bundle, demand);
        Ok(())
    }

    /// Reads the config of a live container again, of this bundle: its bundle and what it asks for are the new ones
    /// from then on. It keeps the CPUs that its group requests until the next plan. One that had no CPUs of its own and
    /// now asks for some is written to the reserved CPUs first, if it requests others. Whether it can be started stays.
    ///
    /// # Errors
    /// In this order: `Busy`, `NoContainer`, `NotLive`, `Config`, `Demand`; or `Failed` of the kernel, after which it
    /// asks for what it did, and requests what it did or the reserved CPUs.
    pub fn update(
        &mut self,
        id: &str,
        bundle: &str,
        config: &[u8],
    ) -> Result<(), OrMemory<NodeFault>>
        // Its demand and its bundle are the new ones from then on. If a shared one becomes pinned and requests others,
        // the reserved CPUs are written first. Its memory nodes are written if the homes differ.
        ensures updates { Updates self.old id.now bundle.now config.now result self.new }
        ensures counted { self.new.kernel.failures ≡ self.old.kernel.failures + rise_or_memory result }
        // It makes two writing calls at most.
        ensures few { writes self.new.kernel ≤ writes self.old.kernel + 2 }
        // It makes none if the homes stay and the container becomes shared, stays pinned or shared as it was, or
        // requests the reserved CPUs already.
        ensures none { IfOk result (λ done. WritesNoMore self.old id.now self.new) }
        // If a write fails, the container asks for what it did and requests what it did or the reserved CPUs.
        ensures fails { (fault : KernelFault) → result ≡ Err (Fault (Kernel fault))
            → IsAsBefore self.old id.now self.new }
    {
        self.holds();
        self.update_body(id, bundle, config)
    }
}
