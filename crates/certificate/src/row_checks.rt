//! The checks of a plan's sets: each row by itself, and no CPU in two rows.
ghost use Rattle.std.specs.Prelude.{◌≡◌, length, All, OnOk, IfErr};
ghost use Rattle.std.specs.Result.{result_err};
ghost use Rattle.cpu_set.specs.Members.{InRange};
ghost use Rattle.cpu_set.specs.Least.{least_that};
ghost use Rattle.certificate.specs.IsCause.{IsRowsCause};
ghost use Rattle.certificate.specs.PlanFault.{is_not_allowed, row_fault, rows_fault, apart_fault};

use crate::{CheckFault, Row};
use cpu_set::IdSet;

/// Whether each row holds as many CPUs as it asks for, all of them allowed; else the first row's fault.
pub(crate) fn check_rows(rows: &[Row], sets: &[IdSet]) -> Result<(), CheckFault>
    requires { length sets.now ≡ length rows.now }
    ensures fault { rows_fault rows.now sets.now ≡ result_err result }
    ensures in_range { OnOk result (All InRange sets.now) }
    ensures cause { IfErr result (λ fault. IsRowsCause rows.now sets.now fault) }
{
    for (k, row) in rows.iter().enumerate() {
        check_row(k, row, &sets[k])?;
    }
    Ok(())
}

/// Row `k` and the set that it holds.
#[tactic(auto, unfolding(crate::specs::PlanFault::row_fault))]
fn check_row(k: usize, row: &Row, held: &IdSet) -> Result<(), CheckFault>
    ensures fault { row_fault k row.now held.now ≡ result_err result }
    ensures in_range { InRange held.now }
{
    if held.count() != row.demand {
        return Err(CheckFault::WrongCount { row: k });
    }
    match first_not_allowed(row, held) {
        Some(cpu) => Err(CheckFault::NotAllowed { row: k, cpu }),
        None => Ok(()),
    }
}

/// The least CPU of the set that no offer of the row has.
fn first_not_allowed(row: &Row, held: &IdSet) -> Option<u16>
    ensures { result ≡ least_that (is_not_allowed row.now held.now) }
{
    held.minus(&row.offers.cpus()).first()
}

/// Whether no CPU is in two of the sets; else the first set that has a CPU of an earlier one.
pub(crate) fn check_apart(sets: &[IdSet]) -> Result<(), CheckFault>
    ensures { apart_fault sets.now ≡ result_err result }
{
    let mut held = IdSet::empty();
    for own in sets {
        if let Some(cpu) = own.meet(&held).first() {
            return Err(CheckFault::HeldTwice { cpu });
        }
        held = held.union(own);
    }
    Ok(())
}
