//! One container takes its target.
ghost use Rattle.std.specs.Prelude.{◌≡◌, ◌<◌, true, Some, IsTrue, OnOk, IfOk};
ghost use Rattle.cpuset_tree.specs.Groups.{has_group};
ghost use Rattle.apply_plan.specs.Targets.{IsHandover, IsPlaced};
ghost use Rattle.apply_plan.specs.DueWrite.{must_move};
ghost use Rattle.apply_plan.specs.DirectWords.{may_take};
ghost use Rattle.apply_plan.specs.MayWrite.{write_of};
ghost use Rattle.apply_plan.specs.Walks.{IsMadeIfAny};
ghost use Rattle.apply_plan.specs.Turns.{IsIn};
ghost use Rattle.direct_finish.specs.FinishesDirectly.{TakesFree};
ghost use Rattle.direct_finish.specs.Bounded.{AreBounded};
ghost use Rattle.direct_finish.specs.Follows.{Leaves, Falls, IsReady};
ghost use Rattle.direct_finish.specs.Seen.{TakesAt};

use crate::bounds::Bounds;
use crate::queue::Queue;
use apply_plan::Entry;
use cpu_set::IdSet;
use kernel_model::{Kernel, KernelFault, requested};

/// Whether a live container does not hold its target.
pub fn must_move<K: Kernel>(kernel: &K, entry: &Entry) -> bool
    requires { has_group (K.state kernel.now).tree entry.now.group ≡ true }
    ensures { result ≡ must_move (K.state kernel.now) entry.now }
{
    kernel.first_alive(entry.pid) && *requested(kernel, entry.group) != entry.target
}

/// Whether a live container does not hold its target, and no rival can hold any of it.
fn may_take<K: Kernel>(
    kernel: &K,
    reserved: &IdSet,
    entries: &[Entry],
    bounds: &Bounds,
    entry: &Entry,
) -> bool
    requires group { has_group (K.state kernel.now).tree entry.now.group ≡ true }
    requires valid { IsHandover (record { entries = entries.now; reserved = reserved.now }) }
    requires at { IsIn entries.now entry.now }
    requires bounded { AreBounded (K.state kernel.now) reserved.now entries.now bounds.now }
    ensures { IsTrue result → may_take (K.state kernel.now) reserved.now entries.now entry.now ≡ true }
{
    must_move(kernel, entry) && bounds.leave_free(kernel, reserved, entries, entry)
}

/// Writes the CPUs that a container is to have.
pub fn write<K: Kernel>(kernel: &mut K, entry: &Entry, cpus: IdSet) -> Result<(), KernelFault>
    requires { IsPlaced (K.state kernel.old) entry.now.group }
    ensures { IsMadeIfAny (Some (write_of entry.now cpus)) (K.state kernel.old) result (K.state kernel.new) }
{
    kernel.write_cpus(entry.group, cpus)
}

/// Gives the container at a place its target, where it must move and no rival can hold any of it, and tells whether it
/// did.
pub fn take_at<K: Kernel>(
    kernel: &mut K,
    reserved: &IdSet,
    entries: &[Entry],
    bounds: &mut Bounds,
    queue: &mut Queue,
    place: usize,
) -> Result<bool, KernelFault>
    requires valid { IsHandover (record { entries = entries.now; reserved = reserved.now }) }
    requires ready { IsReady (record { entries = entries.now; reserved = reserved.now }) (K.state kernel.old) bounds.old }
    ensures leaves { Leaves (TakesFree (record { entries = entries.now; reserved = reserved.now })) (K.state kernel.old) result
        (K.state kernel.new) }
    ensures ready { OnOk result (IsReady (record { entries = entries.now; reserved = reserved.now }) (K.state kernel.new)
        bounds.new) }
    ensures falls { IfOk result (Falls (record { entries = entries.now; reserved = reserved.now }) (K.state kernel.old)
        (K.state kernel.new)) }
    ensures takes { IfOk result (TakesAt (record { entries = entries.now; reserved = reserved.now }) place (K.state kernel.old)
        (K.state kernel.new)) }
{
    if place >= entries.len() {
        return Ok(false);
    }
    let entry = &entries[place];
    if !may_take(&*kernel, reserved, entries, bounds, entry) {
        return Ok(false);
    }
    let held = *requested(&*kernel, entry.group);
    write(kernel, entry, entry.target)?;
    bounds.drop_held(queue.has_movers(), entry, &held);
    queue.note_taken(entry, &held);
    Ok(true)
}
