//! The limit of a config, with its number. Nothing here runs.
ghost use Rattle.std.specs.Prelude.{◌≡◌};

use crate::MAX_BYTES;

/// A config has at most 1,048,576 bytes.
pub fn the_limits()
    ensures bytes { MAX_BYTES ≡ 1_048_576 }
{}
