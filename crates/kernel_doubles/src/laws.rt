//! That a fuse counts writes: a law over the definitions alone. Nothing here runs.
ghost use Rattle.kernel_doubles.specs.Fuse.{FusesCountWrites};

/// Each fuse counts writes.
pub fn fuse()
    ensures { FusesCountWrites }
{}
