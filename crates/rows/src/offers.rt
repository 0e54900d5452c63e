//! The offers of a row.
ghost use Rattle.std.specs.Prelude.{◌≡◌, IfOk};
ghost use Rattle.machine.specs.Weight.{AreHomes};
ghost use Rattle.rows.specs.Reach.{AreInReach};
ghost use Rattle.rows.specs.Offers.{offers_by_distance};

use crate::chains::chains_of;
use crate::parts::push_some;
use certificate::Offers;
use cpu_set::IdSet;
use machine::Machine;
use std::alloc::{AllocError, Global};

/// An offer for each weight that one of the CPUs has for a container with these homes, the least weight first.
///
/// The farthest nodes, which are often most of them, are not looked at: what is left is theirs.
pub(crate) fn offers_by_distance(
    alloc: Global,
    machine: &Machine,
    homes: &IdSet,
    cpus: &IdSet,
) -> Result<Offers, AllocError>
    requires reach { AreInReach machine.now homes.now cpus.now }
    requires homes { AreHomes machine.now homes.now }
    ensures { IfOk result (λ offers. offers ≡ offers_by_distance machine.now homes.now cpus.now) }
{
    let chains = chains_of(machine.weights(homes));
    let farthest = chains.farthest();
    let mut left = *cpus;
    let mut offers = Offers::new(alloc);
    for weight in 0..farthest {
        if chains.has(weight) {
            let here = chains.cpus_at(machine, weight).meet(cpus);
            left = left.minus(&here);
            push_some(&mut offers, u32::from(weight), here)?;
        }
    }
    push_some(&mut offers, u32::from(farthest), left)?;
    Ok(offers)
}
