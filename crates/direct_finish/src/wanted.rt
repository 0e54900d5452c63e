//! Whom to try next while rings are broken. It decides how soon a hand-over is over, and nothing else.
ghost use Rattle.apply_plan.specs.Targets.{ArePlaced};

use crate::queue::Queue;
use crate::standing::{Standing, is_due};
use apply_plan::{Entry, allowed_at};
use cpu_set::IdSet;
use kernel_model::{Kernel, requested};

/// Whether some who must give way are allowed the CPU. Before the place nobody must.
fn is_wanted(allowed: &[IdSet], standings: &[Standing], from: usize, cpu: u16) -> bool {
    for place in from..standings.len() {
        if is_due(false, standings[place])
            && place < allowed.len()
            && allowed[place].contains(cpu)
        {
            return true;
        }
    }
    false
}

/// Whether some who must give way are allowed some of the CPUs. Before the place nobody must.
fn are_wanted(allowed: &[IdSet], standings: &[Standing], from: usize, cpus: &IdSet) -> bool {
    let mut next = cpus.first();
    while let Some(cpu) = next {
        if is_wanted(allowed, standings, from, cpu) {
            return true;
        }
        next = cpus.next_after(cpu);
    }
    false
}

/// What those who must give way could get as places: what they are allowed, and neither hold nor are to have.
fn all_wanted<K: Kernel>(
    kernel: &K,
    entries: &[Entry],
    allowed: &[IdSet],
    standings: &[Standing],
    from: usize,
) -> IdSet
    requires { ArePlaced (K.state kernel.now) entries.now }
{
    let mut wanted = IdSet::empty();
    for place in from..entries.len() {
        if place < standings.len() && is_due(false, standings[place]) {
            let entry = &entries[place];
            let beside = allowed_at(allowed, place).minus(&entry.target);
            wanted = wanted.union(&beside.minus(requested(kernel, entry.group)));
        }
    }
    wanted
}

/// The place of the next one to be tried: of those who asked for what was let go of, or else of the one that was
/// squeezed, unless others may need its target as a place. Before the place that is told nobody must give way.
///
/// What others could need is put together once a walk over them found nobody. They only get fewer.
pub fn next_tried<K: Kernel>(
    kernel: &K,
    entries: &[Entry],
    allowed: &[IdSet],
    standings: &[Standing],
    from: usize,
    queue: &mut Queue,
) -> Option<usize>
    requires { ArePlaced (K.state kernel.now) entries.now }
{
    if let Some(place) = queue.next_freed() {
        return Some(place);
    }
    let place = queue.take_squeezed()?;
    if place >= entries.len() {
        return None;
    }
    let target = &entries[place].target;
    if queue.wants_none(target) {
        return Some(place);
    }
    if are_wanted(allowed, standings, from, target) {
        return None;
    }
    if !queue.knows_wanted() {
        queue.note_wanted(all_wanted(kernel, entries, allowed, standings, from));
    }
    Some(place)
}
