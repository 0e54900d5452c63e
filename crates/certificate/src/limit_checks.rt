//! The test that a problem, a plan and its prices, or the members of a shortage, can be checked at all.
ghost use Rattle.std.specs.Prelude.{◌≡◌, nat_le, nat_lt};
ghost use Rattle.std.specs.List.{list_all};
ghost use Rattle.certificate.specs.Limits.{offers_fit, row_fits, rows_fit, prices_fit, values_fit, is_within_limits};
ghost use Rattle.certificate.specs.Limits.{is_rising, is_shortage_within_limits};

use crate::{MAX_AMOUNT, MAX_DEMAND, MAX_ROWS, MAX_WEIGHT, Offers, PriceList, Prices, Row};
use cpu_set::IdSet;

/// Whether a plan and its prices can be checked at all: nothing is past its limit, no CPU has two
/// weights in a row or two prices, and there is one set and one value for each row.
#[tactic(auto, unfolding(crate::specs::Limits::is_within_limits))]
pub(crate) fn is_within_limits(rows: &[Row], sets: &[IdSet], prices: &Prices) -> bool
    ensures { result ≡ is_within_limits rows.now sets.now prices.now }
{
    let values = prices.values.as_slice();
    rows_fit(rows)
        && sets.len() == rows.len()
        && values.len() == rows.len()
        && values_fit(values)
        && prices_fit(&prices.of_cpu)
}

/// Whether a shortage can be checked at all: no row is past its limit, and the members are numbers of
/// rows in rising order.
#[tactic(auto, unfolding(crate::specs::Limits::is_shortage_within_limits))]
pub(crate) fn is_shortage_within_limits(rows: &[Row], members: &[usize]) -> bool
    ensures { result ≡ is_shortage_within_limits rows.now members.now }
{
    rows_fit(rows) && is_rising(members) && are_below(members, rows.len())
}

fn is_rising(members: &[usize]) -> bool
    ensures { result ≡ is_rising members.now }
{
    members.is_sorted_by(|k, next| *k < *next)
}

fn are_below(members: &[usize], count: usize) -> bool
    ensures { result ≡ list_all (λ k. nat_lt k count) members.now }
{
    members.iter().all(|k| *k < count)
}

/// Whether rows are within their limits, as the solver wants them to be. There are at most [`MAX_ROWS`] of them, and
/// each asks for 1 to [`MAX_DEMAND`] CPUs. No weight is above [`MAX_WEIGHT`], and no CPU is in two offers of a row.
///
/// O(w) of w offers in all. Allocates nothing.
#[tactic(auto, unfolding(crate::specs::Limits::rows_fit))]
pub fn rows_fit(rows: &[Row]) -> bool
    ensures { result ≡ rows_fit rows.now }
{
    rows.len() <= MAX_ROWS && each_row_fits(rows)
}

fn each_row_fits(rows: &[Row]) -> bool
    ensures { result ≡ list_all row_fits rows.now }
{
    rows.iter().all(|row| row_fits(row))
}

#[tactic(auto, unfolding(crate::specs::Limits::row_fits))]
fn row_fits(row: &Row) -> bool
    ensures { result ≡ row_fits row.now }
{
    1 <= row.demand && row.demand <= MAX_DEMAND && offers_fit(&row.offers)
}

#[tactic(auto, unfolding(crate::specs::Limits::offers_fit))]
fn offers_fit(offers: &Offers) -> bool
    ensures { result ≡ offers_fit offers.now }
{
    weights_fit(offers) && offers.are_apart()
}

fn weights_fit(offers: &Offers) -> bool
    ensures { result ≡ list_all (λ o. nat_le o.weight MAX_WEIGHT) offers.now }
{
    for at in 0..offers.len() {
        if offers.weight(at) > MAX_WEIGHT {
            return false;
        }
    }
    true
}

fn values_fit(values: &[u64]) -> bool
    ensures { result ≡ values_fit values.now }
{
    values.iter().all(|value| *value <= MAX_AMOUNT)
}

#[tactic(auto, unfolding(crate::specs::Limits::prices_fit))]
fn prices_fit(prices: &PriceList) -> bool
    ensures { result ≡ prices_fit prices.now }
{
    amounts_fit(prices) && prices.are_apart()
}

fn amounts_fit(prices: &PriceList) -> bool
    ensures { result ≡ list_all (λ p. nat_le p.amount MAX_AMOUNT) prices.now }
{
    for at in 0..prices.len() {
        if prices.amount(at) > MAX_AMOUNT {
            return false;
        }
    }
    true
}
