//! How many CPUs a quota and its period ask for.
ghost use Rattle.std.specs.Prelude.{◌≡◌, ◌*◌, ◌<◌, ◌≤◌, ◌^◌, IfOk, IfSome, IfNone, is_some};
ghost use Rattle.demand.specs.AsksFor.{AsksFor};
ghost use Rattle.demand.specs.Quota.{limit_of, period_of, most_cpus, IsCount};
ghost use Rattle.demand.specs.DemandFaultOf.{quota_fault};
ghost use Rattle.std.specs.Result.{result_err};

use crate::fault::DemandFault;
use cpu_set::CPU_LIMIT;

/// The length of a period where a config gives none or zero, in microseconds: that of `cpu.max` in the
/// kernel's cgroup-v2 documentation.
pub const DEFAULT_PERIOD: u64 = 100_000;

/// The quota as a limit, where it is one.
fn limit_of(quota: Option<i64>) -> Option<u64>
    ensures value { result ≡ limit_of quota }
    ensures positive { IfSome result (λ n. 0 < n) }
    ensures signed { IfSome result (λ n. n < 2 ^ 63) }
{
    match quota {
        Some(quota) if quota > 0 => Some(quota.unsigned_abs()),
        _ => None,
    }
}

/// The length of the period.
fn period_of(period: Option<u64>) -> u64
    ensures value { result ≡ period_of period }
    ensures positive { 0 < result }
{
    match period {
        None | Some(0) => DEFAULT_PERIOD,
        Some(period) => period,
    }
}

/// How many CPUs a quota asks for, unless it asks for more than there can be: the time that it gives in
/// whole periods, rounded up to whole cores of so many CPUs.
fn cpus_asked(quota: u64, period: u64, threads: u32) -> Option<u32>
    requires quota { 0 < quota }
    requires signed { quota < 2 ^ 63 }
    requires period { 0 < period }
    requires threads { 1 ≤ threads }
    ensures some { IfSome result (λ n. AsksFor quota period threads n) }
    ensures few { IfSome result (λ n. n ≤ CPU_LIMIT) }
    ensures fits { IfSome result (λ n. quota ≤ most_cpus threads * period) }
    ensures none { IfNone result (most_cpus threads * period < quota) }
{
    let threads = threads as u64;
    let count = quota.div_ceil(period).div_ceil(threads) * threads;
    if count > CPU_LIMIT as u64 {
        None
    } else {
        Some(count as u32)
    }
}

/// How many CPUs a container's quota asks for, where each core has so many; none where it is no limit.
#[tactic(auto, unfolding(crate::specs::DemandFaultOf::quota_fault))]
pub fn count(
    quota: Option<i64>,
    period: Option<u64>,
    threads: u32,
) -> Result<Option<u32>, DemandFault>
    requires { 1 ≤ threads }
    ensures fault { quota_fault threads quota period ≡ result_err result }
    ensures count { IfOk result (λ n. IsCount threads (limit_of quota) (period_of period) n) }
    ensures some { IfOk result (λ n. is_some n ≡ is_some (limit_of quota)) }
{
    let Some(limit) = limit_of(quota) else {
        return Ok(None);
    };
    match cpus_asked(limit, period_of(period), threads) {
        Some(count) => Ok(Some(count)),
        None => Err(DemandFault::QuotaTooLarge),
    }
}
