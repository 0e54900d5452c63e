//! Rows and CPUs that are alike.
ghost use Rattle.std.specs.Prelude.{IsTrue};
ghost use Rattle.certificate.specs.Limits.{rows_fit};

use crate::problems::problems_of;
use anyhow::{Result, bail};
use certificate::{Problem, rows_fit};
use std::alloc::{AllocError, Global};
use twins::{Classes, group, kinds_of};

/// `twins`: prints, for each problem of certificates, which of its rows have the same offers, and the classes of its
/// CPUs.
pub fn each<R: AllocGlobal + Print>(rt: &R, texts: &[u8]) -> Result<()> {
    let problems = problems_of(rt.alloc(), texts)?;
    for problem in &problems {
        one(rt, problem)?;
    }
    Ok(())
}

fn one<R: AllocGlobal + Print>(rt: &R, problem: &Problem) -> Result<()> {
    if !rows_fit(problem.rows.as_slice()) {
        bail!("the rows are past their limits");
    }
    let kinds = kinds_of(rt.alloc(), problem.rows.as_slice())?;
    println!(rt; "kinds {kinds:?}")?;
    let classes = classes_of(rt.alloc(), problem)?;
    for class in classes.sets.as_slice() {
        let list = cpu_list::print(rt.alloc(), class)?;
        println!(rt; "class {list}")?;
    }
    Ok(())
}

fn classes_of(alloc: Global, problem: &Problem) -> Result<Classes, AllocError>
    requires { IsTrue (rows_fit problem.now) }
{
    let rows = problem.rows.as_slice();
    let kinds = kinds_of(alloc, rows)?;
    group(alloc, problem, &kinds)
}
