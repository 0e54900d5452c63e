ghost use Rattle.std.specs.Prelude.{◌≡◌, ◌<◌, Ok, IfOk};
ghost use Rattle.slit.specs.Table.{Table, distance};

use crate::SlitFault;
use crate::entries::{check_entries, entry_at};
use crate::header::{check_header, entries_of};
use faults::OrMemory;
use std::alloc::Global;
use std::marker::Model;

/// The distances between the localities of a machine, as its firmware tells them.
#[derive(Debug, Drop)]
pub struct Slit {
    count: usize,
    distances: Vec<u8>,
}

impl Model for Slit {
    ghost use Rattle.slit.specs.Table.{Table, table};
    ghost use Rattle.slit.specs.AreDistances.{AreDistances};

    ghost Value = { Table };

    ghost view = { λ s. table s.count s.distances.items };

    ghost invariant = { λ s. AreDistances (table s.count s.distances.items) };
}

impl Slit {
    ghost use Rattle.slit.specs.AreDistances.{AreDistances};
    ghost use Rattle.slit.specs.Describes.{Describes};
    ghost use Rattle.slit.specs.SlitFaultOf.{slit_fault};
    ghost use Rattle.faults.specs.Answers.{Reports, Gives, ChecksFirst};

    /// The table that the bytes are.
    ///
    /// # Errors
    /// An allocation failure, or the first fault in the order of [`SlitFault`]: of the header, and then entry by entry
    /// in rows. It allocates only where there is no fault.
    pub fn read(alloc: Global, bytes: &[u8]) -> Result<Slit, OrMemory<SlitFault>>
        // The first fault of the bytes, with row and column.
        ensures fault { Reports result (slit_fault bytes.now) }
        // If the bytes are at fault, it makes no allocation.
        ensures memory { ChecksFirst result (slit_fault bytes.now) }
        // A table that is returned is the one that the bytes describe.
        ensures table { IfOk result (Describes bytes.now) }
        // Bytes that describe a table are answered by it, unless an allocation failed.
        ensures only { (t : Table) → Describes bytes.now t → Gives result (Ok t) }
    {
        let count = check_header(bytes)?;
        let entries = entries_of(bytes, count);
        check_entries(entries, count)?;
        let distances = Vec::from_slice(alloc, entries)?;
        Ok(Slit { count, distances })
    }

    /// The number of localities, 1 to [`MAX_LOCALITIES`](crate::MAX_LOCALITIES).
    pub fn localities(&self) -> usize
        ensures localities { result ≡ self.now.localities }
        ensures sound { AreDistances self.now }
    {
        self.count
    }

    /// The distances by rows: those from locality 0 to each locality, then those from locality 1, and so on.
    pub fn distances(&self) -> &[u8]
        ensures distances { result.now ≡ self.now.entries }
        ensures sound { AreDistances self.now }
    {
        &self.distances
    }

    /// The distance from locality `i` to locality `j`: the byte in row `i` and column `j`.
    pub fn distance(&self, i: usize, j: usize) -> u8
        requires i_is_locality { i < self.now.localities }
        requires j_is_locality { j < self.now.localities }
        ensures { result ≡ distance self.now i j }
    {
        entry_at(&self.distances, self.count, i, j)
    }
}
