ghost use Rattle.std.specs.Prelude.{◌≡◌, ◌||◌, IfOk, is_some, not};
ghost use Rattle.cpu_set.specs.Ids.{is_empty};
ghost use Rattle.demand.specs.DemandFaultOf.{demand_fault};
ghost use Rattle.std.specs.Result.{result_err};

use crate::allowed::allowed;
use crate::fault::DemandFault;
use crate::{lists, quota};
use config_json::CpuSection;
use cpu_set::IdSet;
use machine::Machine;

/// Whether a container gets CPUs of its own.
#[derive(Clone, Copy, Debug, PartialEq, Eq)]
pub enum Kind {
    /// It asks for this many CPUs, 1 to [`CPU_LIMIT`](cpu_set::CPU_LIMIT).
    Pinned(u32),
    /// It asks for none, and runs where no other container is pinned.
    Shared,
}

/// What one container asks for.
#[derive(Clone, Copy, Debug)]
pub struct Demand {
    /// How many CPUs of its own, if any.
    pub kind: Kind,
    /// The CPUs that it may get; none of a shared container.
    pub allowed: IdSet,
    /// The nodes where its memory lies, one or more.
    pub homes: IdSet,
}

impl Demand {
    ghost use Rattle.demand.specs.IsDemand.{IsDemand};
    ghost use Rattle.demand.specs.FitsMachine.{FitsMachine};

    /// What a container with this CPU section asks for on this machine.
    ///
    /// Its homes are the nodes that `mems` names, or all where it names none. It may get the CPUs that
    /// are present, named by `cpus` if that names any, not reserved, and with a way to a home, of those
    /// cores that have such CPUs alone. A quota above zero asks for as many CPUs as it takes to run it in
    /// one period, rounded up to whole cores; a period that
    /// is absent or zero is [`DEFAULT_PERIOD`](crate::DEFAULT_PERIOD). With no such quota a container
    /// that names a CPU asks for all that it may get, and one that names none is shared.
    ///
    /// # Errors
    /// The first fault in this order: `BadCpus`, `NoSuchCpu`, `BadMems`, `NoSuchNode`, `QuotaTooLarge`,
    /// `NothingAllowed`.
    #[tactic(auto, using(crate::proofs::Asked::last_check))]
    pub fn of(section: &CpuSection, machine: &Machine) -> Result<Demand, DemandFault>
        // The first fault.
        ensures fault { demand_fault machine.now section.now ≡ result_err result }
        // A quota q in a period p asks for the d CPUs of whole cores of t CPUs with (d - t) * p < q <= d * p.
        ensures demand { IfOk result (λ d. IsDemand machine.now section.now d) }
        // A pinned demand is 1 to `CPU_LIMIT`, and that of whole cores. Its allowed CPUs are some, present, not
        // reserved, in reach of a home, and whole cores. A shared demand has no allowed CPUs.
        ensures fits { IfOk result (λ d. FitsMachine machine.now d) }
    {
        let cpus = lists::cpus(section.cpus.as_ref().map(|text| text.as_str()), machine)?;
        let mems = lists::nodes(section.mems.as_ref().map(|text| text.as_str()), machine)?;
        let homes = lists::homes(&mems, machine);
        let count = quota::count(section.quota, section.period, machine.threads())?;
        if !is_pinned(count, &cpus) {
            return Ok(Demand {
                kind: Kind::Shared,
                allowed: IdSet::empty(),
                homes,
            });
        }
        let allowed = allowed(machine, &cpus, &homes);
        if allowed.is_empty() {
            return Err(DemandFault::NothingAllowed);
        }
        Ok(Demand {
            kind: Kind::Pinned(count.unwrap_or(allowed.count())),
            allowed,
            homes,
        })
    }
}

/// Whether a container gets CPUs of its own: its quota is a limit, or it names a CPU.
#[tactic(auto, using(crate::proofs::HomeNodes::home_nodes))]
fn is_pinned(count: Option<u32>, cpus: &IdSet) -> bool
    ensures { result ≡ (is_some count || not (is_empty cpus.now)) }
{
    count.is_some() || !cpus.is_empty()
}
