//! What a config asks for, where it may have that, and its first fault: laws over the definitions alone. Nothing here
//! runs.
ghost use Rattle.std.specs.Prelude.{◌≡◌, [], ◌∷◌, codes, pos, negsuc};
ghost use Rattle.std.specs.FinSet as set;
ghost use Rattle.demand.specs.Allowed.{allowed_of};
ghost use Rattle.demand.specs.AsksFor.{AsksFor, IsOneCount};
ghost use Rattle.demand.specs.DemandFaultOf.{demand_fault, quota_fault};
ghost use Rattle.demand.specs.Homes.{homes_of};
ghost use Rattle.demand.specs.Quota.{limit_of, period_of};
ghost use Rattle.demand.specs.Worked.{two_nodes, with_cpus, with_mems};

use crate::{DEFAULT_PERIOD, DemandFault};
use cpu_list::ListErrorKind;

/// No quota asks for two different counts of CPUs in one period, whatever the cores.
pub fn no_quota_asks_for_two_counts()
    ensures { IsOneCount }
{}

/// A period is 100,000 microseconds long if a config gives none or zero.
pub fn the_limits()
    ensures period { DEFAULT_PERIOD ≡ 100_000 }
{}

/// Worked rows of docs/formats.md, "Bundles": the definitions, evaluated on a machine of two nodes.
pub fn worked()
    ensures rounded_up { AsksFor 150000 100000 1 2 }
    ensures whole_cores { AsksFor 250000 100000 2 4 }
    ensures no_limit { limit_of (Some (negsuc 0)) ≡ None }
    ensures no_period { period_of (Some 0) ≡ 100000 }
    ensures largest { quota_fault 1 (Some (pos 409600000)) None ≡ None }
    ensures too_large { quota_fault 1 (Some (pos 409600001)) None ≡ Some DemandFault.QuotaTooLarge }
    ensures homes { homes_of two_nodes (Some (codes "1")) ≡ set.from_list (1 ∷ []) }
    ensures all_homes { homes_of two_nodes None ≡ set.from_list (0 ∷ 1 ∷ []) }
    ensures allowed { allowed_of two_nodes (with_cpus (codes "0-2")) ≡ set.from_list (1 ∷ 2 ∷ []) }
    ensures bad_cpus { demand_fault two_nodes (with_cpus (codes "4-2"))
        ≡ Some (DemandFault.BadCpus (record { at = 0; kind = ListErrorKind.Descending })) }
    ensures no_such_cpu { demand_fault two_nodes (with_cpus (codes "2,9")) ≡ Some (DemandFault.NoSuchCpu 9) }
    ensures no_such_node { demand_fault two_nodes (with_mems (codes "0,2")) ≡ Some (DemandFault.NoSuchNode 2) }
    ensures nothing_allowed { demand_fault two_nodes (with_cpus (codes "0")) ≡ Some DemandFault.NothingAllowed }
{}
