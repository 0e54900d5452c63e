//! Who is needed in a shortage, by who holds what.
ghost use Rattle.std.specs.Prelude.{◌≡◌, ℕ, ◌≤◌, true, false, List, length, slice_index, OnOk, IfOk};
ghost use Rattle.std.specs.FinSet as set;
ghost use Rattle.cpu_set.specs.Members.{IsCpu};
ghost use Rattle.certificate.specs.RowView.{RowView};
ghost use Rattle.hall.specs.Needed.{AreKnown, IsOpenToKnown};
ghost use Rattle.blame.specs.Marking.{IsOwned, IsMarking, IsMore, AreQueued, is_marked};

use certificate::{MAX_ROWS, Row};
use cpu_set::{CPU_LIMIT, IdSet};
use std::alloc::{AllocError, Global};

/// Who holds which CPU, where each member of a shortage but one, the root, has what it asks for.
#[derive(Debug, Drop)]
pub(crate) struct PartPlan {
    /// For each CPU the row that holds it; the number of rows where none does.
    pub(crate) own: Vec<usize>,
    pub(crate) root: usize,
    /// How many CPUs the root lacks.
    pub(crate) lacking: u32,
}

/// Marks rows that are needed, from those on that are known to be: who holds as many CPUs as the root lacks, of those
/// that marked rows may have.
///
/// A breadth-first search, in which each CPU is looked at once, and what each marked row may have: O(rows × words of a
/// set + CPUs).
pub(crate) fn mark(
    alloc: Global,
    rows: &[Row],
    part: &PartPlan,
    known: &mut [bool],
) -> Result<(), AllocError>
    requires own { length part.now.own.items ≡ CPU_LIMIT }
    requires long { length known.old ≡ length rows.now }
    requires few { length rows.now ≤ MAX_ROWS }
    ensures { OnOk result ((members : List ℕ)
        → IsOwned rows.now members part.now.own.items part.now.root part.now.lacking
        → AreKnown rows.now members part.now.root (is_marked known.old)
        → AreKnown rows.now members part.now.root (is_marked known.new)) }
{
    let mut of_row = vec![in alloc; 0u32; known.len()]?;
    let mut queue = places_of(alloc, known)?;
    mark_from(rows, part, known, of_row.as_mut_slice(), &mut queue)
}

/// Looks at what the rows in the queue may have, which gets longer meanwhile.
fn mark_from(
    rows: &[Row],
    part: &PartPlan,
    known: &mut [bool],
    of_row: &mut [u32],
    queue: &mut Vec<usize>,
) -> Result<(), AllocError>
    requires own { length part.now.own.items ≡ CPU_LIMIT }
    requires long { length known.old ≡ length rows.now }
    requires few { length rows.now ≤ MAX_ROWS }
    requires as_long { length of_row.old ≡ length known.old }
    requires none { (k : ℕ) → slice_index of_row.old k ≡ 0 }
    requires queued { AreQueued known.old queue.old.items }
    ensures { OnOk result ((members : List ℕ)
        → IsOwned rows.now members part.now.own.items part.now.root part.now.lacking
        → AreKnown rows.now members part.now.root (is_marked known.old)
        → AreKnown rows.now members part.now.root (is_marked known.new)) }
{
    let mut seen = IdSet::empty();
    for step in 0..rows.len() {
        let count = queue.len();
        if step >= count {
            return Ok(());
        }
        let next = queue[step];
        let row = &rows[next];
        let cpus = row.offers.cpus();
        see_row(&cpus, part, known, &mut seen, of_row, queue)?;
    }
    Ok(())
}

/// The rows that are marked.
fn places_of(alloc: Global, known: &[bool]) -> Result<Vec<usize>, AllocError>
    ensures { IfOk result (λ queue. AreQueued known.now queue.items) }
{
    let mut queue = Vec::new(alloc);
    for row in 0..known.len() {
        if known[row] {
            queue.push(row)?;
        }
    }
    Ok(queue)
}

/// Looks at the CPUs that a marked row may have.
fn see_row(
    cpus: &IdSet,
    part: &PartPlan,
    known: &mut [bool],
    seen: &mut IdSet,
    of_row: &mut [u32],
    queue: &mut Vec<usize>,
) -> Result<(), AllocError>
    requires own { length part.now.own.items ≡ CPU_LIMIT }
    requires as_long { length of_row.old ≡ length known.old }
    ensures marking { OnOk result ((rows : List RowView) (members : List ℕ)
        → IsOwned rows members part.now.own.items part.now.root part.now.lacking
        → IsMarking rows members part.now.own.items part.now.root known.old seen.old of_row.old
        → ((c : ℕ) → set.contains cpus.now c ≡ true → IsOpenToKnown rows (is_marked known.old) c)
        → IsMarking rows members part.now.own.items part.now.root known.new seen.new of_row.new) }
    ensures more { OnOk result (IsMore known.old known.new) }
    ensures queued { OnOk result (AreQueued known.old queue.old.items → AreQueued known.new queue.new.items) }
{
    let mut left = cpus.minus(seen);
    while let Some(cpu) = left.first() {
        left.remove(cpu);
        see_cpu(cpu, part, known, seen, of_row, queue)?;
    }
    Ok(())
}

/// Looks at a CPU that a marked row may have: its holder is marked where it holds enough of those seen.
fn see_cpu(
    cpu: u16,
    part: &PartPlan,
    known: &mut [bool],
    seen: &mut IdSet,
    of_row: &mut [u32],
    queue: &mut Vec<usize>,
) -> Result<(), AllocError>
    requires cpu { IsCpu cpu }
    requires own { length part.now.own.items ≡ CPU_LIMIT }
    requires as_long { length of_row.old ≡ length known.old }
    requires unseen { set.contains seen.old cpu ≡ false }
    ensures marking { OnOk result ((rows : List RowView) (members : List ℕ)
        → IsOwned rows members part.now.own.items part.now.root part.now.lacking
        → IsMarking rows members part.now.own.items part.now.root known.old seen.old of_row.old
        → IsOpenToKnown rows (is_marked known.old) cpu
        → IsMarking rows members part.now.own.items part.now.root known.new seen.new of_row.new) }
    ensures more { OnOk result (IsMore known.old known.new) }
    ensures queued { OnOk result (AreQueued known.old queue.old.items → AreQueued known.new queue.new.items) }
    ensures seen { OnOk result (seen.new ≡ set.insert seen.old cpu) }
{
    hall::laws::holders_are_needed();
    seen.insert(cpu);
    let row = part.own[cpu as usize];
    if row >= known.len() {
        return Ok(());
    }
    of_row[row] = of_row[row].saturating_add(1);
    if known[row] || of_row[row] < part.lacking {
        return Ok(());
    }
    queue.push(row)?;
    known[row] = true;
    Ok(())
}
