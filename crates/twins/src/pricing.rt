//! The prices of classes, as prices of their CPUs.
ghost use Rattle.std.specs.Prelude.{◌≡◌, IfOk, OnOk, length};
ghost use Rattle.twins.specs.IsPriced.{class_prices, with_price};

use crate::Classes;
use certificate::{Price, PriceList};
use cpu_set::IdSet;
use std::alloc::{AllocError, Global};

/// A price for each class whose price is not 0. For a class of the price 0 none is written.
///
/// # Errors
/// An allocation failure.
pub fn prices_of(alloc: Global, classes: &Classes, prices: &[u64]) -> Result<PriceList, AllocError>
    requires { length prices.now ≡ length classes.now }
    ensures { IfOk result (λ of_cpu. of_cpu ≡ class_prices classes.now prices.now) }
{
    prices_of_body(alloc, classes.sets.as_slice(), prices)
}

fn prices_of_body(alloc: Global, sets: &[IdSet], prices: &[u64]) -> Result<PriceList, AllocError>
    requires { length prices.now ≡ length sets.now }
    ensures { IfOk result (λ of_cpu. of_cpu ≡ class_prices sets.now prices.now) }
{
    let mut of_cpu = PriceList::new(alloc);
    for g in 0..sets.len() {
        add(&mut of_cpu, prices[g], sets[g])?;
    }
    Ok(of_cpu)
}

/// Adds the price of a set, unless it is 0.
fn add(of_cpu: &mut PriceList, amount: u64, cpus: IdSet) -> Result<(), AllocError>
    ensures { OnOk result (of_cpu.new ≡ with_price of_cpu.old amount cpus) }
{
    if amount == 0 {
        return Ok(());
    }
    of_cpu.push(Price { amount, cpus })?;
    Ok(())
}
