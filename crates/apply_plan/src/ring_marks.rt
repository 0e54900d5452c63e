//! Who stands in a ring, told of all places at once from the table of who waits for whom (a functional graph).
//!
//! From each place that has no mark yet it follows who waits for whom, and marks each one on the way with the number of
//! this walk, up to the end or to one that has a mark. Only where that is a mark of the same walk a ring was closed: it
//! is followed once more and marked. So no place is looked at more than a few times.
ghost use Rattle.std.specs.Prelude.{◌≡◌, ℕ, ◌<◌, ◌≤◌, ◌&&◌, ◌||◌, ◌==◌, nat_lt, true, false, length, slice_index};
ghost use Rattle.apply_plan.specs.NextTables.{ring_at};
ghost use Rattle.apply_plan.specs.RingMarks.{IsPut, AreKept, IsClosed, AreMarked, IsFollowed, IsRingMarked, TellRings};

use crate::rings::stands_in_ring;

/// The mark of one of whom nothing is told yet.
const UNKNOWN: usize = 0;

/// The mark of one that stands in a ring.
const IN_RING: usize = 1;

/// The number of the walk from the first place; the others follow it.
const FIRST_WALK: usize = 2;

/// Writes a mark at one place.
fn put(marks: &mut [usize], place: usize, mark: usize)
    requires { place < length marks.old }
    ensures { IsPut marks.old marks.new place mark }
{
    marks[place] = mark;
}

/// Marks one that has no mark yet, and answers whom it waits for.
fn follow(nexts: &[usize], marks: &mut [usize], at: usize, number: usize) -> usize
    requires within { at < length nexts.now }
    requires number { 2 ≤ number }
    requires unknown { (slice_index marks.old at == 0) ≡ true }
    requires followed { IsFollowed nexts.now marks.old number at }
    ensures followed { IsFollowed nexts.now marks.new number result }
    ensures kept { AreKept marks.old marks.new }
    ensures here { (slice_index marks.new at == 0) ≡ false }
{
    put(marks, at, number);
    nexts[at]
}

/// Follows who waits for whom from a place that has no mark yet, up to the end or to one that has a mark, and answers
/// where that is.
fn follow_all(nexts: &[usize], marks: &mut [usize], place: usize, number: usize) -> usize
    requires within { place < length nexts.now }
    requires number { 2 ≤ number }
    requires unknown { (slice_index marks.old place == 0) ≡ true }
    requires marked { AreMarked nexts.now marks.old }
    ensures followed { IsFollowed nexts.now marks.new number result }
    ensures kept { AreKept marks.old marks.new }
    ensures here { (slice_index marks.new place == 0) ≡ false }
{
    let mut at = follow(nexts, marks, place, number);
    for _step in 0..nexts.len() {
        if at >= nexts.len() || marks[at] != UNKNOWN {
            return at;
        }
        at = follow(nexts, marks, at, number);
    }
    at
}

/// Marks a ring from one that stands in it.
fn mark_ring(nexts: &[usize], marks: &mut [usize], place: usize)
    requires within { place < length nexts.now }
    requires room { length marks.old ≡ length nexts.now }
    requires ring { ring_at nexts.now place ≡ true }
    requires closed { IsClosed nexts.now marks.old }
    ensures { IsRingMarked nexts.now marks.old marks.new place }
{
    let mut at = place;
    for _step in 0..nexts.len() {
        put(marks, at, IN_RING);
        at = nexts[at];
        if at == place {
            return;
        }
    }
}

/// Whether a walk that ended here may have closed a ring: where nothing was told of this one before the walk.
fn may_close(nexts: &[usize], marks: &[usize], at: usize, number: usize) -> bool
    requires { length marks.now ≡ length nexts.now }
    ensures { result ≡ (nat_lt at (length nexts.now) && ((slice_index marks.now at == number) || (slice_index marks.now at == 0))) }
{
    at < nexts.len() && (marks[at] == number || marks[at] == UNKNOWN)
}

/// Tells of those of a walk who stands in a ring: where it ended in one that it closed, those of that ring do.
fn tell(nexts: &[usize], marks: &mut [usize], at: usize, number: usize)
    requires number { 2 ≤ number }
    requires followed { IsFollowed nexts.now marks.old number at }
    ensures marked { AreMarked nexts.now marks.new }
    ensures kept { AreKept marks.old marks.new }
{
    if !may_close(nexts, marks, at, number) {
        return;
    }
    if stands_in_ring(nexts, at) {
        mark_ring(nexts, marks, at);
    }
}

/// Tells of the one at a place, and of those to whom it leads.
fn tell_from(nexts: &[usize], marks: &mut [usize], place: usize)
    requires within { place < length nexts.now }
    requires marked { AreMarked nexts.now marks.old }
    ensures marked { AreMarked nexts.now marks.new }
    ensures kept { AreKept marks.old marks.new }
    ensures here { (slice_index marks.new place == 0) ≡ false }
{
    if marks[place] != UNKNOWN {
        return;
    }
    let end = follow_all(nexts, marks, place, FIRST_WALK + place);
    tell(nexts, marks, end, FIRST_WALK + place);
}

/// Takes all marks away.
fn clear(marks: &mut [usize])
    ensures room { length marks.new ≡ length marks.old }
    ensures unknown { (p : ℕ) → slice_index marks.new p ≡ 0 }
{
    for place in 0..marks.len() {
        marks[place] = UNKNOWN;
    }
}

/// Tells of each place whether the one there stands in a ring.
pub fn mark_rings(nexts: &[usize], marks: &mut [usize])
    requires { length marks.old ≡ length nexts.now }
    ensures { TellRings nexts.now marks.new }
{
    clear(marks);
    for place in 0..nexts.len() {
        tell_from(nexts, marks, place);
    }
}

/// Whether the one at a place stands in a ring, as it was told.
pub fn is_in_ring(marks: &[usize], place: usize) -> bool
    requires { place < length marks.now }
    ensures { result ≡ (slice_index marks.now place == 1) }
{
    marks[place] == IN_RING
}
