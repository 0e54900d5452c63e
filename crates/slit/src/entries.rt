//! The entries of a table: their faults, and the distance in a row and column.
ghost use Rattle.std.specs.Prelude.{◌≡◌, ◌<◌, ◌≤◌, ◌*◌, ℕ, length, OnOk};
ghost use Rattle.std.specs.Result.{result_err};
ghost use Rattle.slit.specs.AreDistances.{IsEntry, IsRow};
ghost use Rattle.slit.specs.Table.{distance, table};
ghost use Rattle.slit.specs.EntriesFault.{entry_fault, table_row_fault, entries_fault};

use crate::{LOCAL, MAX_LOCALITIES, SlitFault};

/// The first fault of the `count` times `count` entries, by rows.
pub(crate) fn check_entries(entries: &[u8], count: usize) -> Result<(), SlitFault>
    requires few { count ≤ MAX_LOCALITIES }
    requires square { length entries.now ≡ count * count }
    ensures fault { entries_fault (table count entries.now) ≡ result_err result }
    ensures ok { OnOk result ((i : ℕ) → i < count → IsRow (table count entries.now) i) }
{
    for row in 0..count {
        check_row(entries, count, row)?;
    }
    Ok(())
}

/// The first fault of one row.
fn check_row(entries: &[u8], count: usize, row: usize) -> Result<(), SlitFault>
    requires few { count ≤ MAX_LOCALITIES }
    requires square { length entries.now ≡ count * count }
    requires row { row < count }
    ensures fault { table_row_fault (table count entries.now) row ≡ result_err result }
    ensures ok { OnOk result (IsRow (table count entries.now) row) }
{
    for column in 0..count {
        check_entry(entry_at(entries, count, row, column), row, column)?;
    }
    Ok(())
}

/// The fault of one entry.
fn check_entry(entry: u8, row: usize, column: usize) -> Result<(), SlitFault>
    ensures fault { entry_fault row column entry ≡ result_err result }
    ensures ok { OnOk result (IsEntry row column entry) }
{
    if entry < LOCAL {
        return Err(SlitFault::ReservedValue(row, column));
    }
    if row == column && entry > LOCAL {
        return Err(SlitFault::BadDiagonal(row));
    }
    Ok(())
}

/// The entry in this row and column.
pub(crate) fn entry_at(entries: &[u8], count: usize, row: usize, column: usize) -> u8
    requires few { count ≤ MAX_LOCALITIES }
    requires square { length entries.now ≡ count * count }
    requires row { row < count }
    requires column { column < count }
    ensures { result ≡ distance (table count entries.now) row column }
{
    entries[row * count + column]
}
