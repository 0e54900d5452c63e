//! Places: on which CPUs a container runs while it gives way to others.
ghost use Rattle.std.specs.Prelude.{◌≡◌};
ghost use Rattle.node.specs.LeastCores.{first_of, least_cores};

use apply_plan::Cores;
use cpu_set::IdSet;
use machine::Machine;

/// The first members of a set, so many, or all if it has fewer.
fn first_of(set: &IdSet, count: u32) -> IdSet
    ensures { result ≡ first_of count set.now }
{
    let mut taken = IdSet::empty();
    let mut left = count;
    let mut next = set.first();
    while let Some(n) = next {
        if left == 0 {
            return taken;
        }
        taken.insert(n);
        left -= 1;
        next = set.next_after(n);
    }
    taken
}

/// The cores of a machine, by which places are given out.
#[derive(Clone, Copy)]
pub struct PlaceCores<'a> {
    pub machine: &'a Machine,
}

impl Cores for PlaceCores<'_> {
    ghost least_of = { λ cores. least_cores cores.machine.now };

    fn least(&self, cpus: &IdSet, count: u32) -> IdSet {
        let cores = self.machine.cores_in(cpus);
        let wanted = count.div_ceil(self.machine.threads());
        self.machine.cpus_of_cores(&first_of(&cores, wanted))
    }

    fn gives_least(&self) {
        let _ = self.machine.threads();
    }
}
