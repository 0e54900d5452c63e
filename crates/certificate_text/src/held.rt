//! The sets and values of a plan's rows, as they are read: each set with its value.
ghost use Rattle.std.specs.Prelude.{◌≡◌, ◌<◌, IfOk, OnErr, length};
ghost use Rattle.certificate_text.specs.Held.{sets_of, values_of};

use cpu_set::IdSet;
use std::alloc::{AllocError, Global};
use tagged_sets::TaggedSets;

/// The sets in a list, each whole, and their values in another.
pub fn lists_of(alloc: Global, held: &TaggedSets<u64>) -> Result<(Vec<IdSet>, Vec<u64>), AllocError>
    ensures sets { IfOk result (λ lists. lists.0.items ≡ sets_of held.now) }
    ensures values { IfOk result (λ lists. lists.1.items ≡ values_of held.now) }
    ensures err { OnErr result (0 < length held.now) }
{
    let mut sets = Vec::with_capacity(alloc, held.len())?;
    let mut values = Vec::with_capacity(alloc, held.len())?;
    for at in 0..held.len() {
        sets.push(held.cpus(at))?;
        values.push(held.tag(at))?;
    }
    Ok((sets, values))
}
