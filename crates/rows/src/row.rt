//! The row of one container.
ghost use Rattle.std.specs.Prelude.{◌≡◌, option_map, All, IsTrue, IfOk, IfSome};
ghost use Rattle.certificate.specs.Limits.{row_fits};
ghost use Rattle.demand.specs.FitsMachine.{FitsMachine};
ghost use Rattle.machine.specs.Cores.{cores_in};
ghost use Rattle.rows.specs.RowOf.{available, row_of};
ghost use Rattle.rows.specs.CachedOffers.{IsCached};
ghost use Rattle.rows.specs.Scaled.{scaled};

use crate::cache::{CachedOffers, parts_among};
use certificate::Row;
use cpu_set::IdSet;
use demand::{Demand, Kind};
use machine::Machine;
use std::alloc::{AllocError, Global};

/// The row of a container that asks for CPUs of its own while these CPUs are online, and that holds some already. A
/// shared one has none.
///
/// It asks for cores, and offers those of which the container may get all CPUs and all are online, each by its lowest
/// CPU. Each weighs as much as the distance from its node to the nearest home, and one move where the container does
/// not hold all of its CPUs, as one [`Cost`](certificate::Cost). There is one offer for each weight, the least weight
/// first. Offers that are cached are taken from there, and new ones are added. O(c + n * h) of c cached offers, n nodes
/// and h homes.
///
/// # Errors
/// An allocation failure.
pub fn scaled_row_of(
    alloc: Global,
    machine: &Machine,
    online: &IdSet,
    id: &str,
    demand: &Demand,
    held: &IdSet,
    cache: &mut Vec<CachedOffers>,
) -> Result<Option<Row>, AllocError>
    requires fits { FitsMachine machine.now demand.now }
    requires cache { All (IsCached machine.now) cache.old.items }
    // The row that is made asks for as many cores as the demand has. The row of its distances has one offer for each
    // distance, rising. It is over the cores that the container may get as a whole and that are online as a whole. In
    // the row that is made each weight is the distance, and a move if the container does not hold all CPUs of the core.
    // A shared container has no row.
    ensures row { IfOk result (λ row. row ≡ option_map (scaled (cores_in machine.now held.now))
        (row_of machine.now online.now id.now demand.now)) }
    // The row is within the limits of the checks.
    ensures fits { IfOk result (λ row. IfSome row (λ r. IsTrue (row_fits r))) }
    // In the list that it leaves, each entry has the offers of the cores in its CPUs for its homes. It may have their
    // parts, for one that holds the CPUs that it names.
    ensures cache { All (IsCached machine.now) cache.new.items }
{
    let Kind::Pinned(count) = demand.kind else {
        return Ok(None);
    };
    let cpus = available(demand, online);
    Ok(Some(Row {
        id: String::from_str(alloc, id)?,
        demand: count / machine.threads(),
        offers: parts_among(alloc, machine, &demand.homes, &cpus, held, cache)?,
    }))
}

/// The CPUs that the container may get now.
fn available(demand: &Demand, online: &IdSet) -> IdSet
    ensures { result ≡ available online.now demand.now }
{
    demand.allowed.meet(online)
}
