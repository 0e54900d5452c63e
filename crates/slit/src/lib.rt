//! The firmware's table of distances between the localities (NUMA nodes) of a machine: ACPI's System
//! Locality Information Table (SLIT).
//!
//! The table is a header of 36 bytes, the number N of localities in 8 bytes, and N * N distances of one
//! byte each, by rows: entry (i, j) is the relative distance from locality i to locality j. A locality's
//! distance to itself is 10, the others are relative to that, 0 to 9 are reserved, and 255 says that the
//! locality can't be reached. The two ways between two localities may differ.
//!
//! Numbers of several bytes are little-endian. The revision and the names in the header are not looked
//! at, and bytes past the table's length are ignored.
//!
//! On a running Linux the same distances stand as text in `/sys/devices/system/node/node*/distance`, which need no
//! table.
//!
//! # Proved
//!
//! - The standard's numbers (44, 10, 255) stand in the definitions.
#![tactic(auto)]

mod entries;
mod fault;
mod header;
pub mod laws;
mod slit;

pub use fault::SlitFault;
pub use slit::Slit;

/// The most localities that a table may have.
pub const MAX_LOCALITIES: usize = 128;

/// The distance of a locality to itself, to which all others are relative.
pub const LOCAL: u8 = 10;

/// The distance that says that the other locality can't be reached.
pub const UNREACHABLE: u8 = 255;
