//! Rings that are broken one after another, by one look at all entries.
ghost use Rattle.std.specs.Prelude.{◌≡◌, ◌+◌, ◌≤◌, length, OnOk, IfOk};
ghost use Rattle.apply_plan.specs.Targets.{IsHandover};
ghost use Rattle.apply_plan.specs.MayWrite.{left_directly};
ghost use Rattle.apply_plan.specs.Directed.{Serves};
ghost use Rattle.direct_finish.specs.FinishesDirectly.{TakesFree, MayFollow};
ghost use Rattle.direct_finish.specs.Follows.{Leaves, Falls, IsReady};
ghost use Rattle.direct_finish.specs.Seen.{IsStanding, RestsIf, IsNextGiving, IsCalm, IsUnderWay, next_held, directed};
ghost use Rattle.direct_finish.specs.Settled.{AreBefores, IsSince};

use crate::befores::note_befores;
use crate::bounds::Bounds;
use crate::calm::{is_calm, next_giving};
use crate::queue::Queue;
use crate::settle::either;
use crate::sight::see;
use crate::since::Since;
use crate::standing::{Standing, put};
use crate::take::{take_at, write};
use crate::wanted::next_tried;
use apply_plan::{Cores, Entry, Giving, Overview, allowed_at, gets};
use cpu_set::IdSet;
use kernel_model::{Kernel, KernelFault, requested};

/// What live containers hold after one wrote CPUs that held these before. Where it is a shared one that is not known
/// any more, for others may hold the same.
fn held_now(now: Option<IdSet>, entry: &Entry, held: &IdSet, cpus: &IdSet) -> Option<IdSet>
    ensures { result ≡ next_held now entry.now.pinned held.now cpus.now }
{
    match now {
        Some(all) => {
            if entry.pinned {
                Some(all.minus(held).union(cpus))
            } else {
                None
            }
        }
        None => None,
    }
}

/// Whether one is squeezed that gives way so.
fn is_squeezed(giving: Giving) -> bool {
    match giving {
        Giving::Squeezed => true,
        _ => false,
    }
}

/// One gives way in a ring: the one that a single step would have do so.
fn give_way<K: Kernel, C: Cores>(
    kernel: &mut K,
    cores: &C,
    reserved: &IdSet,
    entries: &[Entry],
    allowed: &[IdSet],
    seen: &Overview,
    nexts: &[usize],
    standings: &mut [Standing],
    now: &mut Option<IdSet>,
    bounds: &mut Bounds,
    queue: &mut Queue,
    place: usize,
    giving: Giving,
) -> Result<(), KernelFault>
    requires valid { IsHandover (record { entries = entries.now; reserved = reserved.now }) }
    requires serves { Serves (directed entries.now reserved.now allowed.now) (C.least_of cores.now) }
    requires under_way { IsUnderWay (directed entries.now reserved.now allowed.now) (C.least_of cores.now) (K.state kernel.old) seen.now nexts.now
        standings.old now.old bounds.old }
    requires calm { IsCalm (record { entries = entries.now; reserved = reserved.now }) (K.state kernel.old) seen.now nexts.now standings.old
        now.old }
    requires turn { IsNextGiving standings.old place giving }
    ensures leaves { Leaves (MayFollow (directed entries.now reserved.now allowed.now) (C.least_of cores.now)) (K.state kernel.old) result
        (K.state kernel.new) }
    ensures falls { OnOk result (left_directly (record { entries = entries.now; reserved = reserved.now }) (K.state kernel.new) + 1
        ≤ left_directly (record { entries = entries.now; reserved = reserved.now }) (K.state kernel.old)) }
    ensures under_way { OnOk result (IsUnderWay (directed entries.now reserved.now allowed.now) (C.least_of cores.now) (K.state kernel.new)
        seen.now nexts.now standings.new now.new bounds.new) }
    ensures put { OnOk result (IsStanding standings.old standings.new place Standing.Moved) }
{
    let entry = &entries[place];
    let held = *requested(&*kernel, entry.group);
    let own = allowed_at(allowed, place);
    let cpus = gets(
        &*kernel, cores, reserved, entries, seen, &own, giving, entry,
    );
    write(kernel, entry, cpus)?;
    put(standings, place, Standing::Moved);
    *now = held_now(*now, entry, &held, &cpus);
    bounds.exchange(&held, &cpus.minus(reserved));
    queue.note_given(place, entry, &held, &cpus, is_squeezed(giving));
    Ok(())
}

/// The next one gives way in a ring, if it is told who that is. Tells whether one did.
fn give_next<K: Kernel, C: Cores>(
    kernel: &mut K,
    cores: &C,
    reserved: &IdSet,
    entries: &[Entry],
    allowed: &[IdSet],
    seen: &Overview,
    nexts: &[usize],
    befores: &[usize],
    standings: &mut [Standing],
    now: &mut Option<IdSet>,
    since: &mut Since,
    bounds: &mut Bounds,
    queue: &mut Queue,
) -> Result<bool, KernelFault>
    requires valid { IsHandover (record { entries = entries.now; reserved = reserved.now }) }
    requires serves { Serves (directed entries.now reserved.now allowed.now) (C.least_of cores.now) }
    requires under_way { IsUnderWay (directed entries.now reserved.now allowed.now) (C.least_of cores.now) (K.state kernel.old) seen.now nexts.now
        standings.old now.old bounds.old }
    requires befores { AreBefores nexts.now befores.now }
    requires behind { length befores.now ≡ length entries.now }
    requires since { IsSince nexts.now standings.old since.old }
    ensures leaves { Leaves (MayFollow (directed entries.now reserved.now allowed.now) (C.least_of cores.now)) (K.state kernel.old) result
        (K.state kernel.new) }
    ensures falls { IfOk result (Falls (record { entries = entries.now; reserved = reserved.now }) (K.state kernel.old)
        (K.state kernel.new)) }
    ensures under_way { OnOk result (IsUnderWay (directed entries.now reserved.now allowed.now) (C.least_of cores.now) (K.state kernel.new)
        seen.now nexts.now standings.new now.new bounds.new) }
    ensures since { OnOk result (IsSince nexts.now standings.new since.new) }
{
    if !is_calm(
        &*kernel, reserved, entries, seen, nexts, befores, standings, &*now, since,
    ) {
        return Ok(false);
    }
    let Some((place, giving)) = next_giving(standings, since) else {
        return Ok(false);
    };
    give_way(
        kernel, cores, reserved, entries, allowed, seen, nexts, standings, now, bounds, queue,
        place, giving,
    )?;
    since.note(place);
    Ok(true)
}

/// Gives the container at a place its target, where it must move and no rival can hold any of it, and notes that it
/// rests. Tells whether it did.
fn take_seen<K: Kernel, C: Cores>(
    kernel: &mut K,
    cores: &C,
    reserved: &IdSet,
    entries: &[Entry],
    allowed: &[IdSet],
    seen: &Overview,
    nexts: &[usize],
    standings: &mut [Standing],
    now: &mut Option<IdSet>,
    bounds: &mut Bounds,
    queue: &mut Queue,
    place: usize,
) -> Result<bool, KernelFault>
    requires valid { IsHandover (record { entries = entries.now; reserved = reserved.now }) }
    requires under_way { IsUnderWay (directed entries.now reserved.now allowed.now) (C.least_of cores.now) (K.state kernel.old) seen.now nexts.now
        standings.old now.old bounds.old }
    ensures leaves { Leaves (TakesFree (record { entries = entries.now; reserved = reserved.now })) (K.state kernel.old) result
        (K.state kernel.new) }
    ensures falls { IfOk result (Falls (record { entries = entries.now; reserved = reserved.now }) (K.state kernel.old)
        (K.state kernel.new)) }
    ensures under_way { OnOk result (IsUnderWay (directed entries.now reserved.now allowed.now) (C.least_of cores.now) (K.state kernel.new)
        seen.now nexts.now standings.new now.new bounds.new) }
    ensures put { IfOk result (RestsIf standings.old standings.new place) }
{
    if place >= entries.len() {
        return Ok(false);
    }
    let entry = &entries[place];
    let held = *requested(&*kernel, entry.group);
    let took = take_at(kernel, reserved, entries, bounds, queue, place)?;
    if took {
        put(standings, place, Standing::Rests);
        *now = held_now(*now, entry, &held, &entry.target);
    }
    Ok(took)
}

/// Tries those who asked for what was let go of, one after another, and tells whether somebody got its target.
fn settle_seen<K: Kernel, C: Cores>(
    kernel: &mut K,
    cores: &C,
    reserved: &IdSet,
    entries: &[Entry],
    allowed: &[IdSet],
    seen: &Overview,
    nexts: &[usize],
    standings: &mut [Standing],
    now: &mut Option<IdSet>,
    since: &mut Since,
    bounds: &mut Bounds,
    queue: &mut Queue,
) -> Result<bool, KernelFault>
    requires valid { IsHandover (record { entries = entries.now; reserved = reserved.now }) }
    requires under_way { IsUnderWay (directed entries.now reserved.now allowed.now) (C.least_of cores.now) (K.state kernel.old) seen.now nexts.now
        standings.old now.old bounds.old }
    requires since { IsSince nexts.now standings.old since.old }
    ensures leaves { Leaves (TakesFree (record { entries = entries.now; reserved = reserved.now })) (K.state kernel.old) result
        (K.state kernel.new) }
    ensures falls { IfOk result (Falls (record { entries = entries.now; reserved = reserved.now }) (K.state kernel.old)
        (K.state kernel.new)) }
    ensures under_way { OnOk result (IsUnderWay (directed entries.now reserved.now allowed.now) (C.least_of cores.now) (K.state kernel.new)
        seen.now nexts.now standings.new now.new bounds.new) }
    ensures since { OnOk result (IsSince nexts.now standings.new since.new) }
{
    let mut moved = false;
    for _turn in 0..u64::MAX {
        let Some(place) = next_tried(&*kernel, entries, allowed, standings, since.full, queue)
        else {
            return Ok(moved);
        };
        let took = take_seen(
            kernel, cores, reserved, entries, allowed, seen, nexts, standings, now, bounds, queue,
            place,
        )?;
        since.note_if(took, place);
        moved = either(moved, took);
    }
    Ok(moved)
}

/// Breaks rings one after another, as long as one look at all entries tells whose turn it is to give way, and gives
/// their targets to those who can get them then. Tells whether anything was written.
pub fn break_rings<K: Kernel, C: Cores>(
    kernel: &mut K,
    cores: &C,
    reserved: &IdSet,
    entries: &[Entry],
    allowed: &[IdSet],
    bounds: &mut Bounds,
    queue: &mut Queue,
    nexts: &mut [usize],
    marks: &mut [usize],
    standings: &mut [Standing],
) -> Result<bool, KernelFault>
    requires valid { IsHandover (record { entries = entries.now; reserved = reserved.now }) }
    requires serves { Serves (directed entries.now reserved.now allowed.now) (C.least_of cores.now) }
    requires ready { IsReady (record { entries = entries.now; reserved = reserved.now }) (K.state kernel.old) bounds.old }
    requires nexts { length nexts.old ≡ length entries.now }
    requires marks { length marks.old ≡ length entries.now }
    requires room { length standings.old ≡ length entries.now }
    ensures leaves { Leaves (MayFollow (directed entries.now reserved.now allowed.now) (C.least_of cores.now)) (K.state kernel.old) result
        (K.state kernel.new) }
    ensures falls { IfOk result (Falls (record { entries = entries.now; reserved = reserved.now }) (K.state kernel.old)
        (K.state kernel.new)) }
{
    let seen = see(
        &*kernel, cores, reserved, entries, allowed, nexts, marks, standings,
    );
    let mut now = Some(seen.held);
    note_befores(nexts, marks);
    let mut since = Since::nothing();
    queue.begin_rings(entries, standings);
    let mut moved = false;
    for _turn in 0..u64::MAX {
        let settled = settle_seen(
            kernel, cores, reserved, entries, allowed, &seen, nexts, standings, &mut now,
            &mut since, bounds, queue,
        )?;
        let gave = give_next(
            kernel, cores, reserved, entries, allowed, &seen, nexts, marks, standings, &mut now,
            &mut since, bounds, queue,
        )?;
        moved = either(moved, either(settled, gave));
        if !gave {
            return Ok(moved);
        }
    }
    Ok(moved)
}
