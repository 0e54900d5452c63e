//! A number for each child, by which most looks for a name that no child has end soon.
ghost use Rattle.std.specs.Prelude.{◌≡◌, ◌<◌, ◌==◌, length, slice_index_or, OnOk};
ghost use Rattle.std.specs.List.{list_any};
ghost use Rattle.cpuset_tree.specs.Kept.{mark_of, AreSameBut};

use crate::Group;
use std::alloc::AllocError;

/// What a mark is multiplied by for each byte: a prime that spreads names that differ in one byte.
const MARK_FACTOR: u32 = 16_777_619;

/// How many marks there are.
const MARKS: u64 = 1 << 32;

/// The mark of a parent's child of this name. Few others have the same.
pub fn mark_of(parent: Group, name: &str) -> u32
    ensures { result ≡ mark_of parent name.now }
{
    let mut mark = (parent.serial % MARKS) as u32;
    for byte in name.as_bytes() {
        mark = mark
            .wrapping_mul(MARK_FACTOR)
            .wrapping_add(u32::from(*byte));
    }
    mark
}

/// Whether a mark is among these. It looks at all of them, which takes fewer steps than to stop where it is found.
pub fn has_mark(marks: &[u32], mark: u32) -> bool
    ensures { result ≡ list_any (λ m. m == mark) marks.now }
{
    let mut found = false;
    for other in marks {
        found |= *other == mark;
    }
    found
}

/// Writes the mark of the group under a key.
pub fn note_mark(marks: &mut Vec<u32>, key: usize, mark: u32) -> Result<(), AllocError>
    ensures within { OnOk result (key < length marks.new.items) }
    ensures noted { OnOk result (slice_index_or marks.new.items key 0 ≡ mark) }
    ensures others { AreSameBut key marks.old.items marks.new.items }
{
    while marks.len() <= key {
        marks.push(0)?;
    }
    marks[key] = mark;
    Ok(())
}

/// Forgets the mark of the group that was under a key.
pub fn forget_mark(marks: &mut Vec<u32>, key: usize)
    ensures forgotten { slice_index_or marks.new.items key 0 ≡ 0 }
    ensures others { AreSameBut key marks.old.items marks.new.items }
{
    if let Some(mark) = marks.get_mut(key) {
        *mark = 0;
    }
}
