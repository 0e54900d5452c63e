//! Whether what was seen of all entries still tells which write is due, and whose it is.
ghost use Rattle.std.specs.Prelude.{◌≡◌, ◌<◌, ◌≤◌, true, false, IsTrue, IfSome, length, get_or};
ghost use Rattle.cpuset_tree.specs.Groups.{has_group};
ghost use Rattle.apply_plan.specs.Targets.{ArePlaced};
ghost use Rattle.apply_plan.specs.DirectWords.{are_free};
ghost use Rattle.apply_plan.specs.Overviews.{all_held};
ghost use Rattle.direct_finish.specs.declared.standing.Standing.{Standing};
ghost use Rattle.direct_finish.specs.Seen.{AreAlike, IsCalmAt, AreCalm, IsHeldNow, IsHeldYet, IsCalm, is_due, IsNobodys, ArePast, IsNextGiving};
ghost use Rattle.direct_finish.specs.Settled.{AreBefores, IsSince, IsSameButCursors};

use crate::since::{Since, leads_on};
use crate::standing::{Standing, is_due};
use apply_plan::{Entry, Giving, Overview};
use cpu_set::IdSet;
use kernel_model::{Kernel, requested};

/// Whether some of what a pinned container lacks of its target is held, where live ones hold these CPUs.
fn lacks_held<K: Kernel>(
    kernel: &K,
    reserved: &IdSet,
    entries: &[Entry],
    held: &IdSet,
    entry: &Entry,
) -> bool
    requires group { has_group (K.state kernel.now).tree entry.now.group ≡ true }
    requires held { AreAlike reserved.now held.now (all_held (K.state kernel.now) reserved.now entries.now) }
    requires pinned { entry.now.pinned ≡ true }
    ensures { IsTrue result → are_free (K.state kernel.now) reserved.now entries.now entry.now entry.now.target ≡ false }
{
    let lacks = entry.target.minus(requested(kernel, entry.group));
    !lacks.meet(held).is_subset(reserved)
}

/// Whether some of what one lacks of its target is held, as far as that is known. Of a shared one what is held does not
/// tell it.
fn is_held_up<K: Kernel>(
    kernel: &K,
    reserved: &IdSet,
    entries: &[Entry],
    now: &Option<IdSet>,
    entry: &Entry,
) -> bool
    requires group { has_group (K.state kernel.now).tree entry.now.group ≡ true }
    requires held { IsHeldNow (record { entries = entries.now; reserved = reserved.now }) (K.state kernel.now) now.now }
    ensures { IsTrue result → are_free (K.state kernel.now) reserved.now entries.now entry.now entry.now.target ≡ false }
{
    match now {
        Some(held) => entry.pinned && lacks_held(kernel, reserved, entries, held, entry),
        None => false,
    }
}

/// Whether the one at a place rests or is guarded, or waits for one that waits; or, where it holds nothing for which
/// others ask, for anybody.
fn is_calm_at<K: Kernel>(
    kernel: &K,
    reserved: &IdSet,
    entries: &[Entry],
    nexts: &[usize],
    standings: &[Standing],
    now: &Option<IdSet>,
    place: usize,
) -> bool
    requires placed { ArePlaced (K.state kernel.now) entries.now }
    requires held { IsHeldNow (record { entries = entries.now; reserved = reserved.now }) (K.state kernel.now) now.now }
    requires room { length nexts.now ≡ length standings.now }
    requires all { length entries.now ≡ length standings.now }
    requires within { place < length standings.now }
    ensures { (s : Standing) → s ≡ get_or standings.now place s → IsTrue result
        → IsCalmAt (record { entries = entries.now; reserved = reserved.now }) (K.state kernel.now) nexts.now standings.now place s }
{
    match standings[place] {
        Standing::Roomy => leads_on(nexts, standings, place),
        Standing::Full => leads_on(nexts, standings, place),
        Standing::Waits => leads_on(nexts, standings, place),
        Standing::Beside => {
            leads_on(nexts, standings, place)
                || is_held_up(kernel, reserved, entries, now, &entries[place])
        }
        Standing::Rests => true,
        Standing::Guarded => true,
        Standing::Moved => false,
    }
}

/// Whether each one does.
fn are_calm<K: Kernel>(
    kernel: &K,
    reserved: &IdSet,
    entries: &[Entry],
    nexts: &[usize],
    standings: &[Standing],
    now: &Option<IdSet>,
) -> bool
    requires placed { ArePlaced (K.state kernel.now) entries.now }
    requires held { IsHeldNow (record { entries = entries.now; reserved = reserved.now }) (K.state kernel.now) now.now }
    requires room { length nexts.now ≡ length standings.now }
    requires all { length entries.now ≡ length standings.now }
    ensures { IsTrue result → AreCalm (record { entries = entries.now; reserved = reserved.now }) (K.state kernel.now) nexts.now standings.now }
{
    for place in 0..standings.len() {
        if !is_calm_at(kernel, reserved, entries, nexts, standings, now, place) {
            return false;
        }
    }
    true
}

/// Whether live containers hold the same CPUs as when they were looked at, outside the reserved ones.
fn holds_yet(reserved: &IdSet, seen: &Overview, now: Option<IdSet>) -> bool
    ensures { IsTrue result → IsHeldYet reserved.now seen.now now }
{
    match now {
        Some(held) => held.minus(reserved) == seen.held.minus(reserved),
        None => false,
    }
}

/// Whether what was seen still tells which write is due: whoever was written since has its target, each other one waits
/// for what it waited for, or holds nothing for which others ask and waits for anybody, and the same CPUs are held.
pub fn is_calm<K: Kernel>(
    kernel: &K,
    reserved: &IdSet,
    entries: &[Entry],
    seen: &Overview,
    nexts: &[usize],
    befores: &[usize],
    standings: &[Standing],
    now: &Option<IdSet>,
    since: &mut Since,
) -> bool
    requires placed { ArePlaced (K.state kernel.now) entries.now }
    requires held { IsHeldNow (record { entries = entries.now; reserved = reserved.now }) (K.state kernel.now) now.now }
    requires room { length nexts.now ≡ length standings.now }
    requires all { length entries.now ≡ length standings.now }
    requires befores { AreBefores nexts.now befores.now }
    requires behind { length befores.now ≡ length standings.now }
    requires since { IsSince nexts.now standings.now since.old }
    ensures calm { IsTrue result → IsCalm (record { entries = entries.now; reserved = reserved.now }) (K.state kernel.now) seen.now nexts.now
        standings.now now.now }
    ensures since { IsSince nexts.now standings.now since.new }
{
    if !holds_yet(reserved, seen, *now) {
        return false;
    }
    if since.lead_on(nexts, befores, standings) {
        return true;
    }
    are_calm(kernel, reserved, entries, nexts, standings, now)
}

/// The place of the first from a place on whose turn it is to give way, and past the end where it is nobody's.
fn first_due(standings: &[Standing], aside: bool, from: usize) -> usize
    requires past { IsNobodys aside standings.now from }
    ensures within { result ≤ length standings.now }
    ensures before { IsNobodys aside standings.now result }
    ensures here { (s : Standing) → result < length standings.now → s ≡ get_or standings.now result s → is_due aside s ≡ true }
{
    for place in from..standings.len() {
        if is_due(aside, standings[place]) {
            return place;
        }
    }
    standings.len()
}

/// The place of the one that gives way next in a ring, and how it does: the first that keeps CPUs of its own, or else
/// the first that is squeezed.
pub fn next_giving(standings: &[Standing], since: &mut Since) -> Option<(usize, Giving)>
    requires past { ArePast standings.now since.old }
    ensures past { ArePast standings.now since.new }
    ensures same { IsSameButCursors since.old since.new }
    ensures turn { IfSome result (λ p. IsNextGiving standings.now p.0 p.1) }
{
    let roomy = first_due(standings, true, since.roomy);
    since.roomy = roomy;
    if roomy < standings.len() {
        return Some((roomy, Giving::Aside));
    }
    let full = first_due(standings, false, since.full);
    since.full = full;
    if full < standings.len() {
        return Some((full, Giving::Squeezed));
    }
    None
}
