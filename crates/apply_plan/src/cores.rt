ghost use Rattle.std.specs.Prelude.{◌≡◌};
ghost use Rattle.apply_plan.specs.Directed.{Least, IsLeast};

use cpu_set::IdSet;

/// How CPUs are given out as places: singly, or by whole cores where a machine has such.
pub trait Cores {
    ghost least_of: { Self → Least };

    /// The least CPUs of a set: so many, or as many as make whole cores up, as far as there are some. Where CPUs are
    /// given by cores, those of a core of which the set has a part alone are not given.
    fn least(&self, cpus: &IdSet, count: u32) -> IdSet
        ensures { result ≡ least_of self.now cpus.now count };

    /// They are CPUs of the set, and some where one of it can be given and some are asked for. Nothing here runs.
    fn gives_least(&self)
        ensures { IsLeast (least_of self.now) };
}
