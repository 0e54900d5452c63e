//! Types that stand for the place of a kernel's writes.
ghost use Rattle.cgroup_tree.specs.Site.{Site, nowhere};

use std::marker::Brand;

/// A type that stands for where the writes of a mirrored kernel are made, and for how it began: contracts name these by
/// it. No code holds them.
pub trait Sited {
    /// Where, and how.
    ghost site: { Site };
}

impl Sited for Brand {
    ghost site = { nowhere };
}
