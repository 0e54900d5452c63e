//! Who waits for whom in a direct hand-over, and who of them stands in a ring.
ghost use Rattle.std.specs.Prelude.{◌≡◌, ℕ, ◌+◌, ◌<◌, ◌&&◌, ◌||◌, true, false, cond, length, get_or, slice_get};
ghost use Rattle.std.specs.FinSet as set;
ghost use Rattle.std.specs.List.{list_all};
ghost use Rattle.cpu_set.specs.declared.TheConstants.{CPU_LIMIT};
ghost use Rattle.cpuset_tree.specs.Groups.{has_group};
ghost use Rattle.proctable.specs.Processes.{is_alive};
ghost use Rattle.apply_plan.specs.Targets.{IsHandover, ArePlaced};
ghost use Rattle.apply_plan.specs.FirstHolders.{AreFirsts, IsLeastPlace};
ghost use Rattle.apply_plan.specs.Rings.{next};
ghost use Rattle.apply_plan.specs.NextTables.{AreNexts, ring_at, any_ring};
ghost use Rattle.apply_plan.specs.RingMarks.{TellRings, AreRings};

use crate::Entry;
use crate::ring_marks::{is_in_ring, mark_rings};
use cpu_set::{CPU_LIMIT, IdSet};
use kernel_model::{Kernel, requested};

const CPUS: usize = CPU_LIMIT as usize;

/// Writes a number at each of the CPUs.
fn mark(places: &mut [usize; CPUS], cpus: &IdSet, number: usize)
    requires room { length places.old ≡ CPU_LIMIT }
    ensures room { length places.new ≡ CPU_LIMIT }
    ensures each { (q : ℕ) → get_or places.new q 0 ≡ cond (set.contains cpus.now q) number (get_or places.old q 0) }
{
    let mut next = cpus.first();
    while let Some(cpu) = next {
        places[cpu as usize] = number;
        next = cpus.next_after(cpu);
    }
}

/// The least number at one of the CPUs, and the end where none is below it.
fn least_place(places: &[usize; CPUS], cpus: &IdSet, end: usize) -> usize
    requires { length places.now ≡ CPU_LIMIT }
    ensures { IsLeastPlace cpus.now places.now end result }
{
    let mut least = end;
    let mut next = cpus.first();
    while let Some(cpu) = next {
        least = least.min(places[cpu as usize]);
        next = cpus.next_after(cpu);
    }
    least
}

/// Whether a container is a live one, and counts: where not anyone does, pinned ones do.
fn counts<K: Kernel>(kernel: &K, any: bool, entry: &Entry) -> bool
    ensures { result ≡ ((any || entry.now.pinned) && is_alive (K.state kernel.now).table entry.now.pid) }
{
    (any || entry.pinned) && kernel.first_alive(entry.pid)
}

/// Notes the place of one more container at the CPUs that nobody before it holds.
fn note_holder<K: Kernel>(
    kernel: &K,
    reserved: &IdSet,
    entries: &[Entry],
    any: bool,
    place: usize,
    seen: &mut IdSet,
    places: &mut [usize; CPUS],
)
    requires placed { ArePlaced (K.state kernel.now) entries.now }
    requires within { place < length entries.now }
    requires room { length places.old ≡ CPU_LIMIT }
    requires before { AreFirsts (K.state kernel.now) reserved.now entries.now any place seen.old places.old }
    ensures room { length places.new ≡ CPU_LIMIT }
    ensures firsts { AreFirsts (K.state kernel.now) reserved.now entries.now any (place + 1) seen.new places.new }
{
    let entry = &entries[place];
    if !counts(kernel, any, entry) {
        return;
    }
    let news = requested(kernel, entry.group).minus(reserved).minus(seen);
    mark(places, &news, place);
    *seen = seen.union(&news);
}

/// Notes at each CPU outside the reserved ones the place of the first live container that holds it, and tells which
/// CPUs one holds.
fn note_holders<K: Kernel>(
    kernel: &K,
    reserved: &IdSet,
    entries: &[Entry],
    any: bool,
    places: &mut [usize; CPUS],
) -> IdSet
    requires placed { ArePlaced (K.state kernel.now) entries.now }
    requires room { length places.old ≡ CPU_LIMIT }
    ensures room { length places.new ≡ CPU_LIMIT }
    ensures firsts { AreFirsts (K.state kernel.now) reserved.now entries.now any (length entries.now) result places.new }
{
    let mut seen = IdSet::empty();
    for place in 0..entries.len() {
        note_holder(kernel, reserved, entries, any, place, &mut seen, places);
    }
    seen
}

/// The place of the one that a container waits for to get its target, and past the end where it waits for none, by the
/// table of those that count for it.
fn next_of<K: Kernel>(
    kernel: &K,
    reserved: &IdSet,
    entries: &[Entry],
    seen: &IdSet,
    places: &[usize; CPUS],
    entry: &Entry,
) -> usize
    requires group { has_group (K.state kernel.now).tree entry.now.group ≡ true }
    requires room { length places.now ≡ CPU_LIMIT }
    requires firsts { AreFirsts (K.state kernel.now) reserved.now entries.now entry.now.pinned (length entries.now) seen.now
        places.now }
    ensures { next (K.state kernel.now) reserved.now entries.now entry.now ≡ slice_get entries.now result }
{
    let lacking = entry.target.minus(requested(kernel, entry.group));
    let held = lacking.meet(seen);
    least_place(places, &held, entries.len())
}

/// The same, by both tables: for a pinned container anyone counts, for a shared one those that are pinned.
fn next_by<K: Kernel>(
    kernel: &K,
    reserved: &IdSet,
    entries: &[Entry],
    held: &IdSet,
    holders: &[usize; CPUS],
    owned: &IdSet,
    owners: &[usize; CPUS],
    entry: &Entry,
) -> usize
    requires group { has_group (K.state kernel.now).tree entry.now.group ≡ true }
    requires room { (length holders.now ≡ CPU_LIMIT) × (length owners.now ≡ CPU_LIMIT) }
    requires holders { AreFirsts (K.state kernel.now) reserved.now entries.now true (length entries.now) held.now holders.now }
    requires owners { AreFirsts (K.state kernel.now) reserved.now entries.now false (length entries.now) owned.now owners.now }
    ensures { next (K.state kernel.now) reserved.now entries.now entry.now ≡ slice_get entries.now result }
{
    if entry.pinned {
        next_of(kernel, reserved, entries, held, holders, entry)
    } else {
        next_of(kernel, reserved, entries, owned, owners, entry)
    }
}

/// Whether each container is pinned.
fn are_pinned(entries: &[Entry]) -> bool
    ensures { result ≡ list_all (λ e. e.pinned) entries.now }
{
    entries.iter().all(|entry| entry.pinned)
}

/// Tells for each entry the place of the one that it waits for, or one past the end where it waits for none, by both
/// tables.
fn look_nexts_up<K: Kernel>(
    kernel: &K,
    reserved: &IdSet,
    entries: &[Entry],
    held: &IdSet,
    holders: &[usize; CPUS],
    owned: &IdSet,
    owners: &[usize; CPUS],
    nexts: &mut [usize],
)
    requires placed { ArePlaced (K.state kernel.now) entries.now }
    requires tables { (length holders.now ≡ CPU_LIMIT) × (length owners.now ≡ CPU_LIMIT) }
    requires holders { AreFirsts (K.state kernel.now) reserved.now entries.now true (length entries.now) held.now holders.now }
    requires owners { AreFirsts (K.state kernel.now) reserved.now entries.now false (length entries.now) owned.now owners.now }
    requires room { length nexts.old ≡ length entries.now }
    ensures { AreNexts (K.state kernel.now) reserved.now entries.now nexts.new }
{
    for (place, entry) in entries.iter().enumerate() {
        nexts[place] = next_by(
            kernel, reserved, entries, held, holders, owned, owners, entry,
        );
    }
}

/// Tells for each entry the place of the one that it waits for, or one past the end where it waits for none.
///
/// A walk over all entries notes who holds each CPU first. Unless all are pinned, another one notes which pinned one
/// does. A last one looks the CPUs up that each lacks.
fn find_nexts<K: Kernel>(kernel: &K, reserved: &IdSet, entries: &[Entry], nexts: &mut [usize])
    requires placed { ArePlaced (K.state kernel.now) entries.now }
    requires room { length nexts.old ≡ length entries.now }
    ensures { AreNexts (K.state kernel.now) reserved.now entries.now nexts.new }
{
    let mut holders = [0; CPUS];
    let held = note_holders(kernel, reserved, entries, true, &mut holders);
    if are_pinned(entries) {
        look_nexts_up(
            kernel, reserved, entries, &held, &holders, &held, &holders, nexts,
        );
    } else {
        let mut owners = [0; CPUS];
        let owned = note_holders(kernel, reserved, entries, false, &mut owners);
        look_nexts_up(
            kernel, reserved, entries, &held, &holders, &owned, &owners, nexts,
        );
    }
}

/// Tells of each entry whether it stands in a ring. One of the tables is room for who waits for whom.
pub fn find_rings<K: Kernel>(
    kernel: &K,
    reserved: &IdSet,
    entries: &[Entry],
    nexts: &mut [usize],
    marks: &mut [usize],
)
    requires placed { ArePlaced (K.state kernel.now) entries.now }
    requires valid { IsHandover (record { entries = entries.now; reserved = reserved.now }) }
    requires room { length nexts.old ≡ length entries.now }
    requires marked { length marks.old ≡ length entries.now }
    ensures nexts { AreNexts (K.state kernel.now) reserved.now entries.now nexts.new }
    ensures marks { TellRings nexts.new marks.new }
    ensures rings { AreRings (K.state kernel.now) reserved.now entries.now marks.new }
{
    find_nexts(kernel, reserved, entries, nexts);
    mark_rings(nexts, marks);
}

/// Whether the one at a place waits for one that waits for one, and so on, up to one that waits for it.
pub fn stands_in_ring(nexts: &[usize], place: usize) -> bool
    requires { place < length nexts.now }
    ensures { result ≡ ring_at nexts.now place }
{
    let mut at = nexts[place];
    for _step in 0..nexts.len() {
        if at >= nexts.len() {
            return false;
        }
        if at == place {
            return true;
        }
        at = nexts[at];
    }
    false
}

/// Whether anybody stands in a ring, as the marks tell it.
pub fn rings_stand(nexts: &[usize], marks: &[usize]) -> bool
    requires { TellRings nexts.now marks.now }
    ensures { result ≡ any_ring nexts.now (length nexts.now) }
{
    for place in 0..marks.len() {
        if is_in_ring(marks, place) {
            return true;
        }
    }
    false
}
