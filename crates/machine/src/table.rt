//! The distances between the nodes, as the member `distances` or a SLIT has them.
ghost use Rattle.std.specs.Prelude.{◌≡◌, ◌<◌, ◌≤◌, ◌+◌, ◌++◌, ◌==◌, true, Some, None, IfOk, OnOk, length, map, is_some};
ghost use Rattle.std.specs.Prelude.{option_map};
ghost use Rattle.std.specs.Result.{result_err};
ghost use Rattle.std.specs.List.{list_all, flat_map};
ghost use Rattle.serde_json.specs.Find.{as_array};
ghost use Rattle.serde_json.specs.View.{view};
ghost use Rattle.slit.specs.AreDistances.{IsEntry};
ghost use Rattle.json_text.specs.Members.{seen};
ghost use Rattle.machine.specs.Members.{items_of};
ghost use Rattle.json_text.specs.Numbers.{unsigned_of};
ghost use Rattle.machine.specs.Distances.{said_distance, row_entries, distances_in, AreEntries, IsRowAllowed};
ghost use Rattle.machine.specs.Distances.{AreRowsAllowed};
ghost use Rattle.machine.specs.DistancesFault.{entry_fault, distance_row_fault, rows_fault, shape_fault, distances_fault};

use crate::fault::MachineFault;
use crate::field::Field;
use crate::lookup::array;
use crate::{LOCAL, NODE_LIMIT, UNREACHABLE};
use arrayvec::ArrayVec;
use serde_json::Value;
use slit::Slit;

/// As many entries as there may be.
const ENTRY_LIMIT: usize = NODE_LIMIT * NODE_LIMIT;

/// The distances between so many nodes by rows, from one of the two places where they may be given.
#[tactic(auto, unfolding(crate::specs::DistancesFault::distances_fault))]
pub(crate) fn read_distances(
    found: Option<&Value>,
    slit: Option<&Slit>,
    count: usize,
) -> Result<ArrayVec<u8, ENTRY_LIMIT>, MachineFault>
    requires { count ≤ NODE_LIMIT }
    ensures fault { distances_fault (option_map (λ s. s.now) slit.entry) (seen found.entry) count ≡ result_err result }
    ensures entries { IfOk result (λ v. v.items ≡ distances_in (option_map (λ s. s.now) slit.entry)
        (seen found.entry)) }
    ensures are { IfOk result (λ v. AreEntries count v.items) }
{
    match (found, slit) {
        (Some(_), Some(_)) => Err(MachineFault::BothDistances),
        (None, None) => Err(MachineFault::NoDistances),
        (None, Some(slit)) => from_slit(slit, count),
        (Some(rows), None) => from_rows(rows, count),
    }
}

/// The distances of a SLIT, which has to be of so many localities.
#[tactic(auto, unfolding(crate::specs::DistancesFault::distances_fault))]
fn from_slit(slit: &Slit, count: usize) -> Result<ArrayVec<u8, ENTRY_LIMIT>, MachineFault>
    requires { count ≤ NODE_LIMIT }
    ensures fault { distances_fault (Some slit.now) None count ≡ result_err result }
    ensures entries { IfOk result (λ v. v.items ≡ slit.now.entries) }
    ensures are { IfOk result (λ v. AreEntries count v.items) }
{
    if slit.localities() != count {
        return Err(MachineFault::WrongSize);
    }
    let mut entries = ArrayVec::new();
    entries.try_extend_from_slice(slit.distances()).unwrap();
    Ok(entries)
}

/// The distances of the member: rows of as many entries as there are nodes.
#[tactic(auto, unfolding(crate::specs::DistancesFault::distances_fault))]
fn from_rows(rows: &Value, count: usize) -> Result<ArrayVec<u8, ENTRY_LIMIT>, MachineFault>
    requires { count ≤ NODE_LIMIT }
    ensures fault { distances_fault None (Some (view rows.now)) count ≡ result_err result }
    ensures entries { IfOk result (λ v. v.items ≡ distances_in None (Some (view rows.now))) }
    ensures are { IfOk result (λ v. AreEntries count v.items) }
{
    let rows = array(Some(rows), Field::Distances)?;
    check_shape(rows, count)?;
    read_rows(rows, count)
}

/// Checks that there are so many rows, and so many entries in each.
#[tactic(auto, using(crate::proofs::ItemLaws::item_counts, crate::proofs::ItemLaws::item_tests), unfolding(crate::specs::DistancesFault::shape_fault))]
fn check_shape(rows: &[Value], count: usize) -> Result<(), MachineFault>
    ensures fault { shape_fault count (map view rows.now) ≡ result_err result }
    ensures rows { OnOk result (length rows.now ≡ count) }
    ensures columns { OnOk result (list_all (λ row. length (items_of row) == count) (map view rows.now) ≡ true) }
{
    if !are_arrays(rows) {
        return Err(MachineFault::BadField(Field::Distances));
    }
    if rows.len() != count || !are_as_long(rows, count) {
        return Err(MachineFault::WrongSize);
    }
    Ok(())
}

/// Whether each row is an array.
fn are_arrays(rows: &[Value]) -> bool
    ensures { result ≡ list_all (λ row. is_some (as_array (view row))) rows.now }
{
    rows.iter().all(|row| row.is_array())
}

/// Whether each row has so many entries.
fn are_as_long(rows: &[Value], count: usize) -> bool
    ensures { result ≡ list_all (λ row. length (items_of (view row)) == count) rows.now }
{
    rows.iter().all(|row| cells(row).len() == count)
}

/// The entries of a row that is an array, none of another value.
#[tactic(auto, using(crate::proofs::ItemLaws::item_lists, crate::proofs::ItemLaws::item_counts))]
fn cells(row: &Value) -> &[Value]
    ensures cells { map view result.now ≡ items_of (view row.now) }
    ensures len { length result.now ≡ length (items_of (view row.now)) }
{
    match row.as_array() {
        Some(cells) => cells.as_slice(),
        None => &[],
    }
}

/// The entries of so many rows of as many entries, one row after the other.
fn read_rows(rows: &[Value], count: usize) -> Result<ArrayVec<u8, ENTRY_LIMIT>, MachineFault>
    requires few { count ≤ NODE_LIMIT }
    requires rows { length rows.now ≡ count }
    requires columns { list_all (λ row. length (items_of row) == count) (map view rows.now) ≡ true }
    ensures fault { rows_fault (map view rows.now) ≡ result_err result }
    ensures entries { IfOk result (λ v. v.items ≡ flat_map row_entries (map view rows.now)) }
    ensures allowed { OnOk result (AreRowsAllowed (map view rows.now)) }
{
    let mut entries = ArrayVec::new();
    for (i, row) in rows.iter().enumerate() {
        read_row(&mut entries, cells(row), i)?;
    }
    Ok(entries)
}

/// Adds the entries of a row.
fn read_row(
    entries: &mut ArrayVec<u8, ENTRY_LIMIT>,
    cells: &[Value],
    i: usize,
) -> Result<(), MachineFault>
    requires { length entries.old.items + length cells.now ≤ ENTRY_LIMIT }
    ensures fault { distance_row_fault i (map view cells.now) ≡ result_err result }
    ensures added { OnOk result (entries.new.items ≡ entries.old.items ++ map said_distance (map view cells.now)) }
    ensures allowed { OnOk result (IsRowAllowed i (map view cells.now)) }
{
    for (j, cell) in cells.iter().enumerate() {
        let entry = read_entry(cell, i, j)?;
        entries.push(entry);
    }
    Ok(())
}

/// The entry in row `i` and column `j`.
fn read_entry(cell: &Value, i: usize, j: usize) -> Result<u8, MachineFault>
    ensures fault { entry_fault i j (unsigned_of (view cell.now)) ≡ result_err result }
    ensures entry { IfOk result (λ d. d ≡ said_distance (view cell.now)) }
    ensures allowed { IfOk result (IsEntry i j) }
{
    let Some(number) = cell.as_u64() else {
        return Err(MachineFault::BadField(Field::Distances));
    };
    if i == j && number != u64::from(LOCAL) {
        return Err(MachineFault::BadDistance(i, j));
    }
    if number < u64::from(LOCAL) || number > u64::from(UNREACHABLE) {
        return Err(MachineFault::BadDistance(i, j));
    }
    Ok(number as u8)
}
