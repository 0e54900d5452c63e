//! The check that no row's value is above weight and price of a CPU that it may have.
ghost use Rattle.std.specs.Prelude.{◌≡◌, ◌<◌, ◌&&◌, nat_le, nat_lt, All, IsTrue, List, length, slice_index_or};
ghost use Rattle.std.specs.List.{list_all, list_any};
ghost use Rattle.std.specs.Result.{result_err};
ghost use Rattle.cpu_set.specs.Least.{least_that};
ghost use Rattle.cpu_set.specs.Ranges.{in_ranges};
ghost use Rattle.certificate.specs.Limits.{row_fits, prices_fit};
ghost use Rattle.certificate.specs.AreAmounts.{AreAmounts};
ghost use Rattle.certificate.specs.Lesser.{lesser};
ghost use Rattle.certificate.specs.PlanFault.{is_too_high, values_fault};
ghost use Rattle.certificate.specs.IsOfferTooHigh.{is_offer_too_high};
ghost use Rattle.certificate.specs.declared.rows.Offer.{Offer};
ghost use Rattle.certificate.specs.declared.price_lists.Price.{Price};

use crate::amounts::note_prices;
use crate::{CheckFault, Offers, PriceList, Row};
use cpu_set::CPU_LIMIT;

/// Whether each row's value is within weight and price of each CPU that the row may have; else the
/// least CPU of the first row where it is above them.
pub(crate) fn check_values(
    rows: &[Row],
    values: &[u64],
    prices: &PriceList,
) -> Result<(), CheckFault>
    requires fit { IsTrue (list_all row_fits rows.now) }
    requires prices_fit { IsTrue (prices_fit prices.now) }
    requires same { length values.now ≡ length rows.now }
    ensures { values_fault rows.now values.now prices.now ≡ result_err result }
{
    let mut amounts = [0; CPU_LIMIT as usize];
    note_prices(prices, &mut amounts);
    for (k, row) in rows.iter().enumerate() {
        if let Some(cpu) = first_too_high(row, values[k], &amounts) {
            return Err(CheckFault::ValueTooHigh { row: k, cpu });
        }
    }
    Ok(())
}

/// The least CPU at which the value is above the row's weight and the price together.
fn first_too_high(row: &Row, value: u64, amounts: &[u64]) -> Option<u16>
    requires fits { IsTrue (row_fits row.now) }
    requires long { length amounts.now ≡ CPU_LIMIT }
    ensures { (prices : List Price) → AreAmounts prices amounts.now
        → result ≡ least_that (is_too_high prices row.now value) }
{
    first_in_offers(&row.offers, value, amounts)
}

/// The least CPU of the offers whose weight and price together are below the value.
fn first_in_offers(offers: &Offers, value: u64, amounts: &[u64]) -> Option<u16>
    requires { length amounts.now ≡ CPU_LIMIT }
    ensures { (prices : List Price) → AreAmounts prices amounts.now
        → result ≡ least_that (λ cpu. list_any (λ o. is_offer_too_high prices value o cpu) offers.now) }
{
    let mut least = None;
    for at in 0..offers.len() {
        least = lesser(least, first_in_offer(offers, at, value, amounts));
    }
    least
}

/// The lesser of two numbers, or the one that there is.
fn lesser(one: Option<u16>, other: Option<u16>) -> Option<u16>
    ensures { result ≡ lesser one other }
{
    match one {
        None => other,
        Some(a) => match other {
            None => Some(a),
            Some(b) => Some(if a <= b { a } else { b }),
        },
    }
}

/// The least CPU of one offer whose weight and price together are below the value.
fn first_in_offer(offers: &Offers, at: usize, value: u64, amounts: &[u64]) -> Option<u16>
    requires there { at < length offers.now }
    requires long { length amounts.now ≡ CPU_LIMIT }
    ensures { (prices : List Price) (d : Offer) → AreAmounts prices amounts.now
        → result ≡ least_that (is_offer_too_high prices value (slice_index_or offers.now at d)) }
{
    let weight = u64::from(offers.weight(at));
    if value <= weight {
        return None;
    }
    let cpus = offers.ranges(at);
    first_cheaper(cpus, value - weight, amounts)
}

/// The least CPU in some ranges whose price is below the amount.
fn first_cheaper(ranges: &[(u16, u16)], amount: u64, amounts: &[u64]) -> Option<u16>
    requires below { All (λ r. r.1 < CPU_LIMIT) ranges.now }
    requires long { length amounts.now ≡ CPU_LIMIT }
    ensures { result ≡ least_that (λ cpu. in_ranges ranges.now cpu
        && nat_lt (slice_index_or amounts.now cpu 0) amount) }
{
    let mut least = None;
    for range in ranges {
        let (first, last) = *range;
        least = lesser(least, first_in_range(first, last, amount, amounts));
    }
    least
}

/// The least CPU from the first up to the last whose price is below the amount.
fn first_in_range(first: u16, last: u16, amount: u64, amounts: &[u64]) -> Option<u16>
    requires below { last < CPU_LIMIT }
    requires long { length amounts.now ≡ CPU_LIMIT }
    ensures { result ≡ least_that (λ cpu. (nat_le first cpu && nat_le cpu last)
        && nat_lt (slice_index_or amounts.now cpu 0) amount) }
{
    for cpu in first..last + 1 {
        if amounts[cpu as usize] < amount {
            return Some(cpu);
        }
    }
    None
}
