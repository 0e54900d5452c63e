//! Which CPUs a container may get: what it names, where it may, less what is reserved.
ghost use Rattle.std.specs.Prelude.{◌≡◌, ℕ};
ghost use Rattle.std.specs.FinSet as set;
ghost use Rattle.machine.specs.Weight.{AreHomes};
ghost use Rattle.demand.specs.Allowed.{is_free, allowed_by};

use cpu_set::IdSet;
use machine::Machine;

/// The CPUs that are not reserved, of those that are named, or of all where none is.
#[tactic(auto, using(crate::proofs::FreeCpus::free_cpus))]
fn free(machine: &Machine, named: &IdSet) -> IdSet
    ensures { (c : ℕ) → set.contains result c ≡ is_free machine.now named.now c }
{
    let unreserved = machine.present().minus(&machine.reserved());
    if named.is_empty() {
        return unreserved;
    }
    unreserved.meet(named)
}

/// The CPUs that a container may get, given those that it names and its home nodes: whole cores of them.
#[tactic(auto, using(crate::proofs::FreeCpus::allowed_meet))]
pub fn allowed(machine: &Machine, named: &IdSet, homes: &IdSet) -> IdSet
    requires { AreHomes machine.now homes.now }
    ensures { result ≡ allowed_by machine.now named.now homes.now }
{
    let free = free(machine, named);
    free.stays_below_the_limit();
    machine.whole_in(free.meet(&machine.in_reach(homes)))
}
