//! Offers that were worked out, for containers that have their homes and CPUs in common.
ghost use Rattle.std.specs.Prelude.{◌≡◌, All, IsTrue, IfOk, IfSome};
ghost use Rattle.std.specs.List.{flat_map, list_all};
ghost use Rattle.machine.specs.Cores.{cores_in};
ghost use Rattle.machine.specs.Layout.{Layout};
ghost use Rattle.machine.specs.Weight.{AreHomes};
ghost use Rattle.rows.specs.Reach.{AreInReach};
ghost use Rattle.rows.specs.Offers.{has_some, offers_by_distance};
ghost use Rattle.rows.specs.Scaled.{are_distances, parted};
ghost use Rattle.rows.specs.CachedOffers.{IsCached, IsCachedFor};

use crate::offers::offers_by_distance;
use crate::parts::parts_of;
use certificate::Offers;
use cpu_set::IdSet;
use machine::Machine;
use std::alloc::{AllocError, Global};

/// CPUs with their offers for a container with these homes.
#[derive(Drop)]
pub struct CachedOffers {
    pub homes: IdSet,
    pub cpus: IdSet,
    pub offers: Offers,
    /// The offers in parts, as the first container had them that asked for parts.
    pub parts: Option<CachedParts>,
}

/// Offers in parts, for a container that holds these CPUs.
#[derive(Drop)]
pub struct CachedParts {
    pub held: IdSet,
    pub offers: Offers,
}

/// The entry of these CPUs for these homes. Most others lack the least of the homes, or the first or the last of the
/// CPUs, so few are compared whole.
fn find<'a>(cache: &'a [CachedOffers], homes: &IdSet, cpus: &IdSet) -> Option<&'a CachedOffers>
    ensures { (m : Layout) → All (IsCached m) cache.now
        → IfSome result (λ cached. IsCachedFor m homes.now cpus.now cached.now) }
{
    let home = homes.first();
    let first = cpus.first();
    let last = cpus.last();
    for cached in cache {
        let is_near = has(&cached.homes, home)
            && has(&cached.cpus, first)
            && has(&cached.cpus, last);
        if is_near && cached.cpus == *cpus && cached.homes == *homes {
            return Some(cached);
        }
    }
    None
}

/// Whether the set has the number, where there is one.
fn has(ids: &IdSet, id: Option<u16>) -> bool {
    match id {
        Some(id) => ids.contains(id),
        None => true,
    }
}

/// The offers of the cores in these CPUs for these homes in parts, for a container that holds some CPUs. They are
/// worked out once for containers that hold the same, as all do that no plan has met.
pub(crate) fn parts_among(
    alloc: Global,
    machine: &Machine,
    homes: &IdSet,
    cpus: &IdSet,
    held: &IdSet,
    cache: &mut Vec<CachedOffers>,
) -> Result<Offers, AllocError>
    requires reach { AreInReach machine.now homes.now cpus.now }
    requires homes { AreHomes machine.now homes.now }
    requires cache { All (IsCached machine.now) cache.old.items }
    ensures parts { IfOk result (λ parts. parts ≡ flat_map (parted (cores_in machine.now held.now))
        (offers_by_distance machine.now homes.now (cores_in machine.now cpus.now))) }
    ensures cache { All (IsCached machine.now) cache.new.items }
{
    if let Some(cached) = find(cache.as_slice(), homes, cpus) {
        return parts_for(alloc, machine, cached, held);
    }
    let offers = core_offers(alloc, machine, homes, cpus)?;
    let parts = core_parts(alloc, machine, &offers, held)?;
    let kept = CachedParts {
        held: *held,
        offers: parts.copy(alloc)?,
    };
    cache.push(CachedOffers {
        homes: *homes,
        cpus: *cpus,
        offers,
        parts: Some(kept),
    })?;
    Ok(parts)
}

/// The offers of the cores in these CPUs for these homes.
fn core_offers(
    alloc: Global,
    machine: &Machine,
    homes: &IdSet,
    cpus: &IdSet,
) -> Result<Offers, AllocError>
    requires reach { AreInReach machine.now homes.now cpus.now }
    requires homes { AreHomes machine.now homes.now }
    ensures { IfOk result (λ offers. offers ≡ offers_by_distance machine.now homes.now (cores_in machine.now cpus.now)) }
{
    if machine.is_single() {
        return offers_by_distance(alloc, machine, homes, cpus);
    }
    offers_by_distance(alloc, machine, homes, &machine.cores_in(cpus))
}

/// Offers in parts, for a container that holds these CPUs.
fn core_parts(
    alloc: Global,
    machine: &Machine,
    offers: &Offers,
    held: &IdSet,
) -> Result<Offers, AllocError>
    requires distances { IsTrue (are_distances offers.now) }
    requires some { IsTrue (list_all has_some offers.now) }
    ensures { IfOk result (λ parts. parts ≡ flat_map (parted (cores_in machine.now held.now)) offers.now) }
{
    if machine.is_single() {
        return parts_of(alloc, offers, held);
    }
    parts_of(alloc, offers, &machine.cores_in(held))
}

/// The offers of an entry in parts, for a container that holds these CPUs.
fn parts_for(
    alloc: Global,
    machine: &Machine,
    cached: &CachedOffers,
    held: &IdSet,
) -> Result<Offers, AllocError>
    requires { IsCached machine.now cached.now }
    ensures { IfOk result (λ parts. parts ≡ flat_map (parted (cores_in machine.now held.now)) cached.now.offers) }
{
    match &cached.parts {
        Some(kept) if kept.held == *held => kept.offers.copy(alloc),
        _ => core_parts(alloc, machine, &cached.offers, held),
    }
}
