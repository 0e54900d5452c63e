//! The test that no CPU is in two sets.
ghost use Rattle.std.specs.Prelude.{◌≡◌, ◌↔◌, ◌<◌, IsTrue, length, slice_index_or};
ghost use Rattle.std.specs.FinSet as set;
ghost use Rattle.cpu_set.specs.Ids.{Ids, IsDisjoint};
ghost use Rattle.certificate.specs.Limits.{are_apart};

use crate::only_cpu::only_cpu;
use cpu_set::IdSet;
use tagged_sets::TaggedSets;

/// Whether no CPU is in two of the sets.
pub(crate) fn are_apart<T: Copy>(sets: &TaggedSets<T>) -> bool
    ensures { result ≡ are_apart (λ p. p.1) sets.now }
{
    let mut seen = IdSet::empty();
    for at in 0..sets.len() {
        if !add_apart(&mut seen, sets, at) {
            return false;
        }
    }
    true
}

/// Adds the CPUs of a set to those seen, if none of them was seen before.
fn add_apart<T: Copy>(seen: &mut IdSet, sets: &TaggedSets<T>, at: usize) -> bool
    requires { at < length sets.now }
    ensures apart { (d : T × Ids) → IsTrue result ↔ IsDisjoint seen.old (slice_index_or sets.now at d).1 }
    ensures added { (d : T × Ids) → IsTrue result → seen.new ≡ set.union seen.old (slice_index_or sets.now at d).1 }
{
    if let Some(cpu) = only_cpu(sets.ranges(at)) {
        let is_new = !seen.contains(cpu);
        seen.insert(cpu);
        return is_new;
    }
    let cpus = sets.cpus(at);
    let are_new = seen.is_disjoint(&cpus);
    *seen = seen.union(&cpus);
    are_new
}
