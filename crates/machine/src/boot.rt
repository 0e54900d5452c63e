//! The reserved CPUs, and those that are online at boot.
ghost use Rattle.std.specs.Prelude.{◌≡◌, ◌≢◌, true, IfOk};
ghost use Rattle.std.specs.Result.{result_err};
ghost use Rattle.std.specs.FinSet as set;
ghost use Rattle.json_text.specs.Members.{seen};
ghost use Rattle.machine.specs.Listed.{listed_in};
ghost use Rattle.machine.specs.BootFaults.{required_fault, optional_fault, reserved_fault, offline_fault};

use crate::fault::MachineFault;
use crate::field::Field;
use crate::lookup::list;
use cpu_set::IdSet;
use serde_json::Value;

/// The reserved CPUs, of which there is at least one, all of them present.
#[tactic(auto, unfolding(crate::specs::BootFaults::reserved_fault))]
pub(crate) fn read_reserved(found: Option<&Value>, present: &IdSet) -> Result<IdSet, MachineFault>
    ensures fault { reserved_fault (seen found.entry) present.now ≡ result_err result }
    ensures cpus { IfOk result (λ reserved. reserved ≡ listed_in (seen found.entry)) }
    ensures some { IfOk result (λ reserved. reserved ≢ set.empty) }
    ensures present { IfOk result (λ reserved. set.is_subset reserved present.now ≡ true) }
{
    let reserved = required_list(found, Field::Reserved)?;
    if reserved.is_empty() || !reserved.is_subset(present) {
        return Err(MachineFault::BadReserved);
    }
    Ok(reserved)
}

/// The CPUs that are offline at boot, all of them present, and none of them reserved.
#[tactic(auto, unfolding(crate::specs::BootFaults::offline_fault))]
pub(crate) fn read_offline(
    found: Option<&Value>,
    present: &IdSet,
    reserved: &IdSet,
) -> Result<IdSet, MachineFault>
    ensures fault { offline_fault (seen found.entry) present.now reserved.now ≡ result_err result }
    ensures cpus { IfOk result (λ offline. offline ≡ listed_in (seen found.entry)) }
    ensures within { IfOk result (λ offline. set.is_subset offline (set.difference present.now reserved.now) ≡ true) }
{
    let offline = optional_list(found, Field::Offline)?;
    if !offline.is_subset(&present.minus(reserved)) {
        return Err(MachineFault::BadOffline);
    }
    Ok(offline)
}

/// The CPUs of a member that has to be there.
fn required_list(found: Option<&Value>, field: Field) -> Result<IdSet, MachineFault>
    ensures fault { required_fault field (seen found.entry) ≡ result_err result }
    ensures cpus { IfOk result (λ cpus. cpus ≡ listed_in (seen found.entry)) }
{
    match found {
        Some(value) => list(value, field),
        None => Err(MachineFault::BadField(field)),
    }
}

/// The CPUs of a member, none where it is absent.
fn optional_list(found: Option<&Value>, field: Field) -> Result<IdSet, MachineFault>
    ensures fault { optional_fault field (seen found.entry) ≡ result_err result }
    ensures cpus { IfOk result (λ cpus. cpus ≡ listed_in (seen found.entry)) }
{
    match found {
        Some(value) => list(value, field),
        None => Ok(IdSet::empty()),
    }
}
