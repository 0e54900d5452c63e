//! A walk over those that must move, each of whom gets its target where no rival can hold any of it.
ghost use Rattle.std.specs.Prelude.{◌≡◌, ◌||◌, OnOk, IfOk};
ghost use Rattle.apply_plan.specs.Targets.{IsHandover};
ghost use Rattle.direct_finish.specs.FinishesDirectly.{TakesFree};
ghost use Rattle.direct_finish.specs.Follows.{Leaves, Falls, IsReady};

use crate::bounds::Bounds;
use crate::queue::Queue;
use crate::take::take_at;
use apply_plan::Entry;
use cpu_set::IdSet;
use kernel_model::{Kernel, KernelFault};

/// Whether one of the two is so.
pub fn either(first: bool, second: bool) -> bool
    ensures { result ≡ (first || second) }
{
    first || second
}

/// Tries whom the queue names, one after another, and tells whether somebody got its target.
pub fn settle<K: Kernel>(
    kernel: &mut K,
    reserved: &IdSet,
    entries: &[Entry],
    bounds: &mut Bounds,
    queue: &mut Queue,
) -> Result<bool, KernelFault>
    requires valid { IsHandover (record { entries = entries.now; reserved = reserved.now }) }
    requires ready { IsReady (record { entries = entries.now; reserved = reserved.now }) (K.state kernel.old) bounds.old }
    ensures leaves { Leaves (TakesFree (record { entries = entries.now; reserved = reserved.now })) (K.state kernel.old) result
        (K.state kernel.new) }
    ensures falls { IfOk result (Falls (record { entries = entries.now; reserved = reserved.now }) (K.state kernel.old)
        (K.state kernel.new)) }
    ensures ready { OnOk result (IsReady (record { entries = entries.now; reserved = reserved.now }) (K.state kernel.new)
        bounds.new) }
{
    let mut moved = false;
    for _turn in 0..u64::MAX {
        let Some(place) = queue.next_place(&*kernel, reserved, entries) else {
            return Ok(moved);
        };
        let took = take_at(kernel, reserved, entries, bounds, queue, place)?;
        queue.note_tried(took, place, entries);
        moved = either(moved, took);
    }
    Ok(moved)
}
