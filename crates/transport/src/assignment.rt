//! Who holds how many CPUs of which class, with the dual variables: what one search leaves to the next.
ghost use Rattle.std.specs.Prelude.{◌≡◌, [], map, replicate, IfOk, ◌+◌, ◌<◌, ◌≤◌, ◌^◌, IsTrue, OnOk};
ghost use Rattle.transport.specs.Assigning.{IsFirst};
ghost use Rattle.twins.specs.Holdings.{share_of};
ghost use Rattle.transport.specs.Shares.{HasNoShare, IsShareGiven, IsShareTaken};

use crate::Instance;
use certificate::Row;
use std::alloc::{AllocError, Global};
use twins::{Holders, Share};

/// What stands between two searches.
#[derive(Debug, Drop)]
pub struct Assignment {
    /// The value of each row.
    pub values: Vec<u64>,
    /// The price of each class.
    pub prices: Vec<u64>,
    /// How many CPUs of each class no row holds.
    pub residual: Vec<u32>,
    /// How many CPUs each row still wants.
    pub deficit: Vec<u32>,
    /// Who holds CPUs of each class.
    pub holdings: Vec<Holders>,
}

impl Assignment {
    /// The state in which no row holds a CPU.
    pub(crate) fn first(
        alloc: Global,
        instance: &Instance,
        sizes: &[u32],
    ) -> Result<Assignment, AllocError>
        ensures { IfOk result (IsFirst instance.now.rows.now sizes.now) }
    {
        let deficit = demands_of(alloc, instance.rows)?;
        let holdings = no_holders(alloc, sizes.len())?;
        let values = vec![in alloc; 0u64; instance.rows.len()]?;
        let prices = vec![in alloc; 0u64; sizes.len()]?;
        let residual = sizes.to_vec(alloc)?;
        Ok(Assignment {
            values,
            prices,
            residual,
            deficit,
            holdings,
        })
    }
}

/// How many CPUs each row asks for.
fn demands_of(alloc: Global, rows: &[Row]) -> Result<Vec<u32>, AllocError>
    ensures { IfOk result (λ demands. demands.items ≡ map (λ r. r.demand) rows.now) }
{
    let mut demands = Vec::new(alloc);
    for row in rows {
        demands.push(row.demand)?;
    }
    Ok(demands)
}

/// Classes of which no row holds a CPU.
fn no_holders(alloc: Global, classes: usize) -> Result<Vec<Holders>, AllocError>
    ensures { IfOk result (λ holdings. holdings.items ≡ replicate classes []) }
{
    let mut holdings = Vec::new(alloc);
    for _ in 0..classes {
        holdings.push(Holders {
            shares: Vec::new(alloc),
        })?;
    }
    Ok(holdings)
}

/// Gives a row some CPUs of the class. A row that holds no CPUs yet is not looked for.
pub(crate) fn give(
    shares: &mut Vec<Share>,
    row: usize,
    amount: u32,
    is_new: bool,
) -> Result<(), AllocError>
    requires fits { share_of row shares.old.items + amount < 2 ^ 32 }
    requires none { IsTrue is_new → HasNoShare row shares.old.items }
    ensures { OnOk result (IsShareGiven shares.old.items shares.new.items row amount) }
{
    if is_new {
        return add(shares, row, amount);
    }
    for at in 0..shares.len() {
        let share = shares[at];
        if share.row == row {
            shares[at] = Share {
                row,
                amount: share.amount + amount,
            };
            return Ok(());
        }
    }
    add(shares, row, amount)
}

/// Adds a share of the class, for a row that has none.
fn add(shares: &mut Vec<Share>, row: usize, amount: u32) -> Result<(), AllocError>
    requires { HasNoShare row shares.old.items }
    ensures { OnOk result (IsShareGiven shares.old.items shares.new.items row amount) }
{
    shares.push(Share { row, amount })?;
    Ok(())
}

/// Takes some CPUs of the class from a row.
pub(crate) fn take(shares: &mut Vec<Share>, row: usize, amount: u32)
    requires { amount ≤ share_of row shares.old.items }
    ensures { IsShareTaken shares.old.items shares.new.items row amount }
{
    let mut left = amount;
    for at in 0..shares.len() {
        let share = shares[at];
        if share.row == row {
            let taken = left.min(share.amount);
            shares[at] = Share {
                row,
                amount: share.amount - taken,
            };
            left -= taken;
        }
    }
}
