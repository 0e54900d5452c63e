//! The limits of a table, with their numbers, and the faults of a small one. Nothing here runs.
ghost use Rattle.std.specs.Prelude.{◌≡◌, [], ◌∷◌, take, slice_set};
ghost use Rattle.slit.specs.Describes.{table_of};
ghost use Rattle.slit.specs.SlitFaultOf.{slit_fault};
ghost use Rattle.slit.specs.Table.{distance};
ghost use Rattle.slit.specs.Worked.{small_table, two_sockets};

use crate::{LOCAL, MAX_LOCALITIES, SlitFault, UNREACHABLE};

/// A table has at most 128 localities; of the standard's distances 10 is a locality's to itself, and 255
/// says that there is no way.
pub fn the_limits()
    ensures localities { MAX_LOCALITIES ≡ 128 }
    ensures local { LOCAL ≡ 10 }
    ensures unreachable { UNREACHABLE ≡ 255 }
{}

/// Worked rows of docs/formats.md, "Distance tables": the definitions, evaluated on a table of two localities, and on
/// the same table with a byte changed.
#[tactic(auto, unfolding(crate::specs::Describes::table_of, crate::specs::EntriesFault::entries_fault, crate::specs::EntriesFault::table_row_fault, crate::specs::Header::count_of, crate::specs::Header::size_of, crate::specs::HeaderFault::header_fault, faults::specs::First::first_below))]
pub fn worked()
    ensures no_fault { slit_fault two_sockets ≡ None }
    ensures localities { (table_of two_sockets).localities ≡ 2 }
    ensures entry { distance (table_of two_sockets) 0 1 ≡ 21 }
    ensures too_short { slit_fault (take 43 two_sockets) ≡ Some SlitFault.TooShort }
    ensures bad_signature { slit_fault (slice_set two_sockets 3 90) ≡ Some SlitFault.BadSignature }
    ensures bad_count { slit_fault (slice_set two_sockets 36 0) ≡ Some SlitFault.BadCount }
    ensures bad_length { slit_fault (slice_set two_sockets 4 49) ≡ Some SlitFault.BadLength }
    ensures bad_sum { slit_fault (slice_set two_sockets 8 2) ≡ Some SlitFault.BadSum }
    ensures reserved { slit_fault (small_table 95 (10 ∷ 9 ∷ 21 ∷ 10 ∷ [])) ≡ Some (SlitFault.ReservedValue 0 1) }
    ensures bad_diagonal { slit_fault (small_table 82 (10 ∷ 21 ∷ 21 ∷ 11 ∷ [])) ≡ Some (SlitFault.BadDiagonal 1) }
{}
