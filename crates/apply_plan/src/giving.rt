//! Who gives way in a direct hand-over: one that stands in a ring, and of which others ask.
ghost use Rattle.std.specs.Prelude.{◌≡◌, ◌-◌, ◌<◌, ◌||◌, true, not, cond, min, max, length, get_or};
ghost use Rattle.cpu_set.specs.Ids.{is_empty};
ghost use Rattle.cpuset_tree.specs.Groups.{has_group};
ghost use Rattle.apply_plan.specs.Targets.{IsHandover, ArePlaced};
ghost use Rattle.apply_plan.specs.DirectWords.{blocks, way, places};
ghost use Rattle.apply_plan.specs.Directed.{allowed_in};
ghost use Rattle.apply_plan.specs.DirectWrite.{must_yield, has_room, has_place, shared_way, aside, gets};
ghost use Rattle.apply_plan.specs.Overviews.{IsOverview, Tells};
ghost use Rattle.apply_plan.specs.RingMarks.{AreRings};
ghost use Rattle.apply_plan.specs.Turns.{IsIn, gives_by, gets_by};
ghost use Rattle.std.specs.FinSet as set;

use crate::overview::Overview;
use crate::ring_marks::is_in_ring;
use crate::scan::Write;
use crate::{Cores, Entry};
use cpu_set::IdSet;
use kernel_model::{Kernel, requested};

/// Who gives way, in the order in which they are looked for.
#[derive(Clone, Copy, Debug, PartialEq, Eq)]
pub enum Giving {
    /// A shared one.
    Sharing,
    /// A pinned one that keeps an online CPU of its own, or has a place.
    Aside,
    /// Anyone, by way of the reserved CPUs.
    Squeezed,
}

/// Whether a live container holds some of what others ask of it, as the look over all entries tells it.
pub fn blocks<K: Kernel>(
    kernel: &K,
    reserved: &IdSet,
    entries: &[Entry],
    seen: &Overview,
    entry: &Entry,
) -> bool
    requires group { has_group (K.state kernel.now).tree entry.now.group ≡ true }
    requires valid { IsHandover (record { entries = entries.now; reserved = reserved.now }) }
    requires at { IsIn entries.now entry.now }
    requires seen { IsOverview (K.state kernel.now) reserved.now entries.now seen.now }
    ensures { result ≡ blocks (K.state kernel.now) reserved.now entries.now entry.now }
{
    kernel.first_alive(entry.pid)
        && !requested(kernel, entry.group)
            .meet(&seen.asks(entry))
            .is_subset(reserved)
}

/// What a container has on its way: what is not asked of what it holds, and what no rival holds of its target.
fn way<K: Kernel>(
    kernel: &K,
    reserved: &IdSet,
    entries: &[Entry],
    seen: &Overview,
    entry: &Entry,
) -> IdSet
    requires group { has_group (K.state kernel.now).tree entry.now.group ≡ true }
    requires tells { Tells (K.state kernel.now) reserved.now entries.now seen.now entry.now }
    ensures { result ≡ way (K.state kernel.now) reserved.now entries.now entry.now }
{
    let stays = requested(kernel, entry.group).minus(&seen.asks(entry).minus(reserved));
    stays.union(&entry.target.minus(&seen.others(entry)))
}

/// The places of a container that is allowed these CPUs: those that are online and not reserved, that no live one
/// holds, and that are not asked of it.
fn places<K: Kernel>(
    kernel: &K,
    reserved: &IdSet,
    entries: &[Entry],
    seen: &Overview,
    allowed: &IdSet,
    entry: &Entry,
) -> IdSet
    requires tells { Tells (K.state kernel.now) reserved.now entries.now seen.now entry.now }
    ensures { result ≡ places (K.state kernel.now) reserved.now entries.now allowed.now entry.now }
{
    let spare = kernel.online().minus(reserved).minus(&seen.held);
    allowed.meet(&spare).minus(&seen.asks(entry))
}

/// Whether others ask of a container, and it stands in a ring.
fn must_yield<K: Kernel>(
    kernel: &K,
    reserved: &IdSet,
    entries: &[Entry],
    seen: &Overview,
    marks: &[usize],
    place: usize,
    entry: &Entry,
) -> bool
    requires group { has_group (K.state kernel.now).tree entry.now.group ≡ true }
    requires valid { IsHandover (record { entries = entries.now; reserved = reserved.now }) }
    requires within { place < length entries.now }
    requires at { entry.now ≡ get_or entries.now place entry.now }
    requires seen { IsOverview (K.state kernel.now) reserved.now entries.now seen.now }
    requires rings { AreRings (K.state kernel.now) reserved.now entries.now marks.now }
    ensures { result ≡ must_yield (K.state kernel.now) reserved.now entries.now entry.now }
{
    is_in_ring(marks, place) && blocks(kernel, reserved, entries, seen, entry)
}

/// Whether a container has a place: whether one can be given of these, so where cores are given, the whole of a core.
fn has_place<C: Cores>(cores: &C, places: &IdSet) -> bool
    ensures { result ≡ not (is_empty (C.least_of cores.now places.now 1)) }
{
    !cores.least(places, 1).is_empty()
}

/// Whether a container has an online CPU of its own on its way, or a place.
fn has_either<K: Kernel, C: Cores>(
    kernel: &K,
    cores: &C,
    reserved: &IdSet,
    entries: &[Entry],
    seen: &Overview,
    allowed: &IdSet,
    entry: &Entry,
) -> bool
    requires group { has_group (K.state kernel.now).tree entry.now.group ≡ true }
    requires tells { Tells (K.state kernel.now) reserved.now entries.now seen.now entry.now }
    ensures { result ≡ (has_room (K.state kernel.now) reserved.now entries.now entry.now
        || has_place (K.state kernel.now) reserved.now entries.now (λ _. allowed.now) (C.least_of cores.now) entry.now) }
{
    !way(kernel, reserved, entries, seen, entry)
        .meet(&kernel.online())
        .is_subset(reserved)
        || has_place(
            cores,
            &places(kernel, reserved, entries, seen, allowed, entry),
        )
}

/// Whether it is a container's turn to give way.
pub fn gives<K: Kernel, C: Cores>(
    kernel: &K,
    cores: &C,
    reserved: &IdSet,
    entries: &[Entry],
    seen: &Overview,
    marks: &[usize],
    allowed: &IdSet,
    giving: Giving,
    place: usize,
    entry: &Entry,
) -> bool
    requires group { has_group (K.state kernel.now).tree entry.now.group ≡ true }
    requires valid { IsHandover (record { entries = entries.now; reserved = reserved.now }) }
    requires within { place < length entries.now }
    requires at { entry.now ≡ get_or entries.now place entry.now }
    requires seen { IsOverview (K.state kernel.now) reserved.now entries.now seen.now }
    requires rings { AreRings (K.state kernel.now) reserved.now entries.now marks.now }
    ensures { result ≡ gives_by (K.state kernel.now) reserved.now entries.now (λ _. allowed.now) (C.least_of cores.now) giving
        entry.now }
{
    match giving {
        Giving::Sharing => {
            !entry.pinned && must_yield(kernel, reserved, entries, seen, marks, place, entry)
        }
        Giving::Aside => {
            entry.pinned
                && must_yield(kernel, reserved, entries, seen, marks, place, entry)
                && has_either(kernel, cores, reserved, entries, seen, allowed, entry)
        }
        Giving::Squeezed => must_yield(kernel, reserved, entries, seen, marks, place, entry),
    }
}

/// What a shared container gets: its way, and the reserved CPUs where nothing of that is online.
fn shared_way(reserved: &IdSet, online: &IdSet, way: &IdSet) -> IdSet
    ensures { result ≡ cond (is_empty (set.intersection way.now online.now)) (set.union way.now reserved.now) way.now }
{
    if way.meet(online).is_empty() {
        way.union(reserved)
    } else {
        *way
    }
}

/// How many CPUs of its places a container gets that has this way: as many as it lacks of those that it holds or is to
/// have, whichever are fewer, and one at least where it has no room on its way.
fn count_of(target: &IdSet, held: &IdSet, way: &IdSet, room: bool) -> u32
    ensures { result ≡ cond room (min (set.len held.now) (set.len target.now) - set.len way.now)
        (max (min (set.len held.now) (set.len target.now) - set.len way.now) 1) }
{
    let lacks = held.count().min(target.count()).saturating_sub(way.count());
    if room { lacks } else { lacks.max(1) }
}

/// What a pinned container gets that steps aside: its way, and of its places what it lacks.
fn aside<K: Kernel, C: Cores>(
    kernel: &K,
    cores: &C,
    reserved: &IdSet,
    entries: &[Entry],
    seen: &Overview,
    allowed: &IdSet,
    entry: &Entry,
) -> IdSet
    requires group { has_group (K.state kernel.now).tree entry.now.group ≡ true }
    requires tells { Tells (K.state kernel.now) reserved.now entries.now seen.now entry.now }
    ensures { result ≡ aside (K.state kernel.now) reserved.now entries.now (λ _. allowed.now) (C.least_of cores.now) entry.now }
{
    let way = way(kernel, reserved, entries, seen, entry);
    let room = !way.meet(&kernel.online()).is_subset(reserved);
    let count = count_of(&entry.target, requested(kernel, entry.group), &way, room);
    let spots = places(kernel, reserved, entries, seen, allowed, entry).minus(&way);
    way.union(&cores.least(&spots, count))
}

/// What a container gets that gives way, as an overview tells what it has on its way, and its places.
pub fn gets<K: Kernel, C: Cores>(
    kernel: &K,
    cores: &C,
    reserved: &IdSet,
    entries: &[Entry],
    seen: &Overview,
    allowed: &IdSet,
    giving: Giving,
    entry: &Entry,
) -> IdSet
    requires group { has_group (K.state kernel.now).tree entry.now.group ≡ true }
    requires tells { Tells (K.state kernel.now) reserved.now entries.now seen.now entry.now }
    ensures { result ≡ gets_by (K.state kernel.now) reserved.now entries.now (λ _. allowed.now) (C.least_of cores.now) giving
        entry.now }
{
    match giving {
        Giving::Sharing => {
            let way = way(kernel, reserved, entries, seen, entry);
            shared_way(reserved, &kernel.online(), &way)
        }
        Giving::Aside => aside(kernel, cores, reserved, entries, seen, allowed, entry),
        Giving::Squeezed => way(kernel, reserved, entries, seen, entry).union(reserved),
    }
}

/// The CPUs that the entry at this place is allowed beside its target.
pub fn allowed_at(allowed: &[IdSet], place: usize) -> IdSet
    ensures { result ≡ get_or allowed.now place set.empty }
{
    match allowed.get(place) {
        Some(cpus) => *cpus,
        None => IdSet::empty(),
    }
}

/// The write by which the first whose turn it is gives way.
pub fn first_giving<K: Kernel, C: Cores>(
    kernel: &K,
    cores: &C,
    reserved: &IdSet,
    entries: &[Entry],
    allowed: &[IdSet],
    seen: &Overview,
    marks: &[usize],
    giving: Giving,
) -> Option<Write>
    requires placed { ArePlaced (K.state kernel.now) entries.now }
    requires valid { IsHandover (record { entries = entries.now; reserved = reserved.now }) }
    requires seen { IsOverview (K.state kernel.now) reserved.now entries.now seen.now }
    requires rings { AreRings (K.state kernel.now) reserved.now entries.now marks.now }
    ensures { result ≡ gets (gives_by (K.state kernel.now) reserved.now entries.now (allowed_in entries.now allowed.now) (C.least_of cores.now) giving)
        (gets_by (K.state kernel.now) reserved.now entries.now (allowed_in entries.now allowed.now) (C.least_of cores.now) giving)
        entries.now }
{
    for (place, entry) in entries.iter().enumerate() {
        let own = allowed_at(allowed, place);
        if gives(
            kernel, cores, reserved, entries, seen, marks, &own, giving, place, entry,
        ) {
            return Some(Write {
                group: entry.group,
                cpus: gets(kernel, cores, reserved, entries, seen, &own, giving, entry),
            });
        }
    }
    None
}
