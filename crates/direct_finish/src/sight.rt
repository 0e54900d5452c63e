//! A look at all entries for rings: how each one stands.
ghost use Rattle.std.specs.Prelude.{◌≡◌, ◌<◌, true, false, length, get_or, Some};
ghost use Rattle.cpuset_tree.specs.Groups.{has_group};
ghost use Rattle.apply_plan.specs.Targets.{IsHandover, ArePlaced};
ghost use Rattle.apply_plan.specs.DueWrite.{must_move};
ghost use Rattle.apply_plan.specs.DirectWords.{spare};
ghost use Rattle.apply_plan.specs.Rings.{in_ring};
ghost use Rattle.apply_plan.specs.Turns.{IsIn};
ghost use Rattle.apply_plan.specs.Overviews.{IsOverview};
ghost use Rattle.apply_plan.specs.RingMarks.{AreRings};
ghost use Rattle.direct_finish.specs.Seen.{StandsAs, StandAll, IsSeen, IsHeldNow, directed};

use crate::look::holds_more;
use crate::standing::{Standing, put};
use crate::take::must_move;
use apply_plan::{
    Cores, Entry, Giving, Overview, allowed_at, blocks, find_rings, gives, is_in_ring,
};
use cpu_set::IdSet;
use kernel_model::{Kernel, requested};

/// How one stands that must move, and waits for nobody.
fn free_standing<K: Kernel, C: Cores>(
    kernel: &K,
    cores: &C,
    reserved: &IdSet,
    entries: &[Entry],
    allowed: &[IdSet],
    left: &IdSet,
    entry: &Entry,
) -> Standing
    requires group { has_group (K.state kernel.now).tree entry.now.group ≡ true }
    requires left { left.now ≡ spare (K.state kernel.now) reserved.now entries.now }
    ensures { StandsAs (directed entries.now reserved.now allowed.now) (C.least_of cores.now) (K.state kernel.now) (K.state kernel.now)
        result entry.now }
{
    if holds_more(reserved, &entry.target, requested(kernel, entry.group)) {
        return Standing::Moved;
    }
    if !entry.pinned || left.is_subset(&entry.target) {
        return Standing::Guarded;
    }
    Standing::Moved
}

/// How one stands that waits for another one, and stands in no ring.
fn outer_standing<K: Kernel, C: Cores>(
    kernel: &K,
    cores: &C,
    reserved: &IdSet,
    entries: &[Entry],
    allowed: &[IdSet],
    seen: &Overview,
    entry: &Entry,
) -> Standing
    requires group { has_group (K.state kernel.now).tree entry.now.group ≡ true }
    requires valid { IsHandover (record { entries = entries.now; reserved = reserved.now }) }
    requires at { IsIn entries.now entry.now }
    requires seen { IsOverview (K.state kernel.now) reserved.now entries.now seen.now }
    requires none { in_ring (K.state kernel.now) reserved.now entries.now entry.now ≡ false }
    requires moves { must_move (K.state kernel.now) entry.now ≡ true }
    ensures { StandsAs (directed entries.now reserved.now allowed.now) (C.least_of cores.now) (K.state kernel.now) (K.state kernel.now)
        result entry.now }
{
    if !blocks(kernel, reserved, entries, seen, entry) {
        return Standing::Beside;
    }
    if entry.pinned && holds_more(reserved, &entry.target, requested(kernel, entry.group)) {
        return Standing::Waits;
    }
    Standing::Moved
}

/// How one stands that stands in a ring.
fn ring_standing<K: Kernel, C: Cores>(
    kernel: &K,
    cores: &C,
    reserved: &IdSet,
    entries: &[Entry],
    allowed: &[IdSet],
    seen: &Overview,
    marks: &[usize],
    place: usize,
    entry: &Entry,
) -> Standing
    requires group { has_group (K.state kernel.now).tree entry.now.group ≡ true }
    requires valid { IsHandover (record { entries = entries.now; reserved = reserved.now }) }
    requires within { place < length entries.now }
    requires at { entry.now ≡ get_or entries.now place entry.now }
    requires seen { IsOverview (K.state kernel.now) reserved.now entries.now seen.now }
    requires rings { AreRings (K.state kernel.now) reserved.now entries.now marks.now }
    requires moves { must_move (K.state kernel.now) entry.now ≡ true }
    ensures { StandsAs (directed entries.now reserved.now allowed.now) (C.least_of cores.now) (K.state kernel.now) (K.state kernel.now)
        result entry.now }
{
    if !entry.pinned || !entry.target.is_disjoint(reserved) {
        return Standing::Moved;
    }
    if !holds_more(reserved, &entry.target, requested(kernel, entry.group)) {
        return Standing::Moved;
    }
    let own = allowed_at(allowed, place);
    if gives(
        kernel,
        cores,
        reserved,
        entries,
        seen,
        marks,
        &own,
        Giving::Aside,
        place,
        entry,
    ) {
        return Standing::Roomy;
    }
    if gives(
        kernel,
        cores,
        reserved,
        entries,
        seen,
        marks,
        &own,
        Giving::Squeezed,
        place,
        entry,
    ) {
        return Standing::Full;
    }
    Standing::Moved
}

/// How the one at a place stands.
fn standing_of<K: Kernel, C: Cores>(
    kernel: &K,
    cores: &C,
    reserved: &IdSet,
    entries: &[Entry],
    allowed: &[IdSet],
    seen: &Overview,
    left: &IdSet,
    nexts: &[usize],
    marks: &[usize],
    place: usize,
    entry: &Entry,
) -> Standing
    requires group { has_group (K.state kernel.now).tree entry.now.group ≡ true }
    requires valid { IsHandover (record { entries = entries.now; reserved = reserved.now }) }
    requires within { place < length entries.now }
    requires at { entry.now ≡ get_or entries.now place entry.now }
    requires seen { IsOverview (K.state kernel.now) reserved.now entries.now seen.now }
    requires left { left.now ≡ spare (K.state kernel.now) reserved.now entries.now }
    requires nexts { length nexts.now ≡ length entries.now }
    requires rings { AreRings (K.state kernel.now) reserved.now entries.now marks.now }
    ensures { StandsAs (directed entries.now reserved.now allowed.now) (C.least_of cores.now) (K.state kernel.now) (K.state kernel.now)
        result entry.now }
{
    if !must_move(kernel, entry) {
        return Standing::Rests;
    }
    if nexts[place] >= entries.len() {
        return free_standing(kernel, cores, reserved, entries, allowed, left, entry);
    }
    if !is_in_ring(marks, place) {
        return outer_standing(kernel, cores, reserved, entries, allowed, seen, entry);
    }
    ring_standing(
        kernel, cores, reserved, entries, allowed, seen, marks, place, entry,
    )
}

/// Notes how each one stands.
fn note_all<K: Kernel, C: Cores>(
    kernel: &K,
    cores: &C,
    reserved: &IdSet,
    entries: &[Entry],
    allowed: &[IdSet],
    seen: &Overview,
    left: &IdSet,
    nexts: &[usize],
    marks: &[usize],
    standings: &mut [Standing],
)
    requires placed { ArePlaced (K.state kernel.now) entries.now }
    requires valid { IsHandover (record { entries = entries.now; reserved = reserved.now }) }
    requires seen { IsOverview (K.state kernel.now) reserved.now entries.now seen.now }
    requires left { left.now ≡ spare (K.state kernel.now) reserved.now entries.now }
    requires nexts { length nexts.now ≡ length entries.now }
    requires rings { AreRings (K.state kernel.now) reserved.now entries.now marks.now }
    requires room { length standings.old ≡ length entries.now }
    ensures room { length standings.new ≡ length entries.now }
    ensures all { StandAll (directed entries.now reserved.now allowed.now) (C.least_of cores.now) (K.state kernel.now) standings.new
        (length entries.now) }
{
    for (place, entry) in entries.iter().enumerate() {
        let standing = standing_of(
            kernel, cores, reserved, entries, allowed, seen, left, nexts, marks, place, entry,
        );
        put(standings, place, standing);
    }
}

/// Looks at all entries: what they hold and ask for together, who waits for whom, and how each one stands.
pub fn see<K: Kernel, C: Cores>(
    kernel: &K,
    cores: &C,
    reserved: &IdSet,
    entries: &[Entry],
    allowed: &[IdSet],
    nexts: &mut [usize],
    marks: &mut [usize],
    standings: &mut [Standing],
) -> Overview
    requires placed { ArePlaced (K.state kernel.now) entries.now }
    requires valid { IsHandover (record { entries = entries.now; reserved = reserved.now }) }
    requires nexts { length nexts.old ≡ length entries.now }
    requires marks { length marks.old ≡ length entries.now }
    requires room { length standings.old ≡ length entries.now }
    ensures seen { IsSeen (directed entries.now reserved.now allowed.now) (C.least_of cores.now) (K.state kernel.now) result nexts.new
        standings.new }
    ensures held { IsHeldNow (record { entries = entries.now; reserved = reserved.now }) (K.state kernel.now) (Some result.held) }
    ensures marks { length marks.new ≡ length entries.now }
{
    let seen = Overview::of(kernel, reserved, entries);
    let left = kernel.online().minus(reserved).minus(&seen.held);
    find_rings(kernel, reserved, entries, nexts, marks);
    note_all(
        kernel, cores, reserved, entries, allowed, &seen, &left, nexts, marks, standings,
    );
    seen
}
