//! A container's group and first process in the kernel.
ghost use Rattle.std.specs.Prelude.{◌≡◌, true};
ghost use Rattle.cpuset_tree.specs.Groups.{has_group};
ghost use Rattle.node.specs.Launch.{FindsOrMakes, WritesSets, StartsIn, Launches, lacks_pid};

use cpu_set::IdSet;
use faults::OrMemory;
use kernel_model::{Group, Kernel, KernelFault};

/// Whether no pid is left for a process of the child of this name, and that is the first thing that stands against it.
/// Want of a serial comes before it, if the child is yet to be made.
pub fn lacks_pid<K: Kernel>(kernel: &K, parent: Group, name: &str) -> bool
    ensures { result ≡ lacks_pid (K.state kernel.now) parent name.now }
{
    if kernel.has_pids() {
        return false;
    }
    match kernel.makable(parent, name) {
        Err(KernelFault::NoSerials) => false,
        _ => true,
    }
}

/// The child of this name, which is made if there is none.
pub fn find_or_make<K: Kernel>(
    kernel: &mut K,
    parent: Group,
    name: &str,
) -> Result<Group, OrMemory<KernelFault>>
    requires { has_group (K.state kernel.old).tree parent ≡ true }
    ensures { FindsOrMakes (K.state kernel.old) parent name.now result (K.state kernel.new) }
{
    match kernel.find_group(parent, name) {
        Ok(Some(group)) => Ok(group),
        Ok(None) => kernel.make_group(parent, name),
        Err(_) => unreachable!(),
    }
}

/// Writes what a group requests.
fn write_sets<K: Kernel>(
    kernel: &mut K,
    group: Group,
    cpus: IdSet,
    mems: IdSet,
) -> Result<(), KernelFault>
    ensures { WritesSets (K.state kernel.old) group cpus mems result (K.state kernel.new) }
{
    kernel.write_cpus(group, cpus)?;
    kernel.write_mems(group, mems)
}

/// Writes what a group requests, and makes a first process in it.
fn start_in<K: Kernel>(
    kernel: &mut K,
    group: Group,
    cpus: IdSet,
    mems: IdSet,
) -> Result<u32, OrMemory<KernelFault>>
    ensures { StartsIn (K.state kernel.old) group cpus mems result (K.state kernel.new) }
{
    write_sets(kernel, group, cpus, mems)?;
    kernel.spawn(group)
}

/// Makes a first process in the child of this name, which is made if there is none and then requests these.
pub fn launch<K: Kernel>(
    kernel: &mut K,
    parent: Group,
    name: &str,
    cpus: IdSet,
    mems: IdSet,
) -> Result<(Group, u32), OrMemory<KernelFault>>
    requires { has_group (K.state kernel.old).tree parent ≡ true }
    ensures { Launches (K.state kernel.old) parent name.now cpus mems result (K.state kernel.new) }
{
    let group = find_or_make(kernel, parent, name)?;
    match start_in(kernel, group, cpus, mems) {
        Ok(pid) => Ok((group, pid)),
        Err(error) => Err(error),
    }
}
