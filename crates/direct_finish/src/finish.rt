//! All writes of a direct hand-over, turn by turn.
ghost use Rattle.std.specs.Prelude.{◌≡◌, ◌+◌, ◌*◌, ◌≤◌, length, IsOk, IfOk};
ghost use Rattle.kernel_model.specs.KernelState.{KernelState, writes};
ghost use Rattle.kernel_model.specs.Cases.{rise};
ghost use Rattle.apply_plan.specs.Holders.{IsSafe};
ghost use Rattle.apply_plan.specs.Targets.{holders_of, IsHandover, ArePlaced};
ghost use Rattle.apply_plan.specs.Leaves.{KeepsRest};
ghost use Rattle.apply_plan.specs.DueWrite.{HaveTargets};
ghost use Rattle.apply_plan.specs.Directed.{IsDirected, Serves};
ghost use Rattle.apply_plan.specs.OnWay.{AreOnWay};
ghost use Rattle.apply_plan.specs.DirectOneStep.{SpendsDirectly};
ghost use Rattle.direct_finish.specs.FinishesDirectly.{MayFollow, FinishesDirectly, SqueezesInRings};
ghost use Rattle.direct_finish.specs.Follows.{Leaves, Falls, Turns, IsReady};
ghost use Rattle.direct_finish.specs.Seen.{directed};

use crate::Agenda;
use crate::bounds::Bounds;
use crate::look::look;
use crate::rings::break_rings;
use crate::settle::settle;
use apply_plan::{Cores, DirectHandover, Entry};
use cpu_set::IdSet;
use kernel_model::{Kernel, KernelFault};

/// Breaks rings, where there is room to note what one look tells of them. Tells whether anything was written.
fn break_if_room<K: Kernel, C: Cores>(
    kernel: &mut K,
    cores: &C,
    reserved: &IdSet,
    entries: &[Entry],
    allowed: &[IdSet],
    bounds: &mut Bounds,
    agenda: &mut Agenda,
) -> Result<bool, KernelFault>
    requires valid { IsHandover (record { entries = entries.now; reserved = reserved.now }) }
    requires serves { Serves (directed entries.now reserved.now allowed.now) (C.least_of cores.now) }
    requires ready { IsReady (record { entries = entries.now; reserved = reserved.now }) (K.state kernel.old) bounds.old }
    ensures leaves { Leaves (MayFollow (directed entries.now reserved.now allowed.now) (C.least_of cores.now)) (K.state kernel.old) result
        (K.state kernel.new) }
    ensures falls { IfOk result (Falls (record { entries = entries.now; reserved = reserved.now }) (K.state kernel.old)
        (K.state kernel.new)) }
{
    let count = entries.len();
    if agenda.nexts.len() != count
        || agenda.marks.len() != count
        || agenda.standings.len() != count
    {
        return Ok(false);
    }
    let nexts = agenda.nexts.as_mut_slice();
    let marks = agenda.marks.as_mut_slice();
    let standings = agenda.standings.as_mut_slice();
    break_rings(
        kernel,
        cores,
        reserved,
        entries,
        allowed,
        bounds,
        &mut agenda.queue,
        nexts,
        marks,
        standings,
    )
}

/// Makes one turn: gives their targets to all who can get them, or else breaks rings, as long as one look tells how, or
/// else takes a single step. Tells whether nobody must move.
fn turn<K: Kernel, C: Cores>(
    handover: &mut DirectHandover,
    kernel: &mut K,
    cores: &C,
    agenda: &mut Agenda,
) -> Result<bool, KernelFault>
    requires placed { ArePlaced (K.state kernel.old) handover.old.targets.entries }
    requires safe { IsSafe (K.state kernel.old) handover.old.targets.reserved (holders_of handover.old.targets.entries) }
    ensures same { handover.new ≡ handover.old }
    ensures leaves { Leaves (MayFollow handover.old (C.least_of cores.now)) (K.state kernel.old) result (K.state kernel.new) }
    ensures turns { IfOk result (Turns handover.old.targets (K.state kernel.old) (K.state kernel.new)) }
    ensures valid { IsDirected handover.old }
    ensures serves { Serves handover.old (C.least_of cores.now) }
{
    cores.gives_least();
    let reserved = *handover.reserved();
    let entries = handover.entries();
    let (mut bounds, arrived) = look(&*kernel, &reserved, entries, &mut agenda.queue);
    if arrived {
        return Ok(true);
    }
    let moved = settle(kernel, &reserved, entries, &mut bounds, &mut agenda.queue)?;
    if moved {
        return Ok(false);
    }
    let broke = break_if_room(
        kernel,
        cores,
        &reserved,
        entries,
        handover.allowed(),
        &mut bounds,
        agenda,
    )?;
    if broke {
        return Ok(false);
    }
    handover.step(kernel, cores)?;
    Ok(false)
}

/// Makes all writes, turn by turn.
fn finish_body<K: Kernel, C: Cores>(
    handover: &mut DirectHandover,
    kernel: &mut K,
    cores: &C,
    agenda: &mut Agenda,
) -> Result<(), KernelFault>
    requires placed { ArePlaced (K.state kernel.old) handover.old.targets.entries }
    requires safe { IsSafe (K.state kernel.old) handover.old.targets.reserved (holders_of handover.old.targets.entries) }
    ensures same { handover.new ≡ handover.old }
    ensures finishes { FinishesDirectly handover.old (C.least_of cores.now) (K.state kernel.old) result (K.state kernel.new) }
    ensures valid { IsDirected handover.old }
    ensures serves { Serves handover.old (C.least_of cores.now) }
{
    'turns: loop {
        let arrived = turn(handover, kernel, cores, agenda)?;
        if arrived {
            return Ok(());
        }
    }
}

/// Makes all writes of a direct hand-over that are to come, up to the first that fails.
///
/// They need not be those of single steps one by one, nor in their order: a container takes its target as soon as no
/// rival holds any of it. What ways round there are is what single steps make of them, since each is one of theirs.
///
/// Looks each of n entries through a few times, where single steps look all of them through for each write. For each
/// ring that has to be broken it looks at the few of that ring, and goes over a word for each entry, unless those are
/// two for whom nobody else waits. Behind one that was squeezed it may also ask of each CPU of its target who must give
/// way yet and is allowed it. It looks all through anew where a ring leaves other CPUs than it found. So it does for
/// each ring with a shared container, and where one that others wait for, outside of rings, waited for one that moved.
///
/// Allocates nothing: what it needs to remember is in the agenda, which may have served other hand-overs before. One
/// that has room for other numbers of entries serves too, and costs more looks.
///
/// # Errors
/// `Failed` where a write failed: it is told and counted, and no other was made after it; the hand-over may go on.
pub fn finish_directly<K: Kernel, C: Cores>(
    handover: &mut DirectHandover,
    kernel: &mut K,
    cores: &C,
    agenda: &mut Agenda,
) -> Result<(), KernelFault>
    requires placed { ArePlaced (K.state kernel.old) handover.old.targets.entries }
    // Outside the reserved CPUs no CPU is requested for a live pinned container and for another live one. Nor does any
    // live container request none.
    requires safe { IsSafe (K.state kernel.old) handover.old.targets.reserved (holders_of handover.old.targets.entries) }
    ensures same { handover.new ≡ handover.old }
    // Each write is one by which a container takes its target, of which no rival holds any, or the one that a single
    // step makes. They go on until nobody must move, or up to the first that fails.
    ensures finishes { FinishesDirectly handover.old (C.least_of cores.now) (K.state kernel.old) result (K.state kernel.new) }
    // What was safe stays safe.
    ensures safe { IsSafe (K.state kernel.new) handover.old.targets.reserved (holders_of handover.old.targets.entries) }
    // At the end each live container has its target.
    ensures done { IsOk result → HaveTargets (K.state kernel.new) handover.old.targets.entries }
    // It makes at most one writing call for each write that fewer are left, and one for a failure.
    ensures made { SpendsDirectly handover.old (K.state kernel.old) (rise result) (K.state kernel.new) }
    // That is at most two for each entry, and the one that failed.
    ensures few { writes (K.state kernel.new) ≤ writes (K.state kernel.old) + 2 * length handover.old.targets.entries
        + rise result }
    // Each container requests none but what it did at first, its target, reserved CPUs and those that it is allowed. It
    // keeps all of its target that it requested at first.
    ensures on_way { (first : KernelState) → AreOnWay handover.old first (K.state kernel.old)
        → AreOnWay handover.old first (K.state kernel.new) }
    // No write puts one on the reserved CPUs alone but where it stands in a ring of which nobody can give way
    // otherwise.
    ensures squeezes { SqueezesInRings handover.old (C.least_of cores.now) (K.state kernel.old) result (K.state kernel.new) }
    // A failure is counted.
    ensures counted { (K.state kernel.new).failures ≡ (K.state kernel.old).failures + rise result }
    // Nothing else in the kernel changes.
    ensures rest { KeepsRest handover.old.targets (K.state kernel.old) (K.state kernel.new) }
    ensures placed { ArePlaced (K.state kernel.new) handover.old.targets.entries }
{
    finish_body(handover, kernel, cores, agenda)
}
