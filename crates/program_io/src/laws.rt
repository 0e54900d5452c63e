//! The limits of inputs and pages, with their numbers. Nothing here runs.
ghost use Rattle.std.specs.Prelude.{◌≡◌};

use crate::page::ROOM;
use crate::reading::{MOST_BYTES, MOST_READS, PIECE};

/// An input has at most 67,108,864 bytes, and at most 1,000,000 reads to come to its end, each of 8,192 bytes at most.
/// A page has room for 8,192 bytes.
pub fn the_limits()
    ensures bytes { MOST_BYTES ≡ 67108864 }
    ensures reads { MOST_READS ≡ 1000000 }
    ensures piece { PIECE ≡ 8192 }
    ensures room { ROOM ≡ 8192 }
{}
