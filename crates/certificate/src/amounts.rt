//! The price of each CPU, in a table.
ghost use Rattle.std.specs.Prelude.{◌≡◌, ℕ, ◌<◌, ◌&&◌, nat_le, cond, All, IsTrue, [], length, slice_index_or};
ghost use Rattle.cpu_set.specs.Ranges.{in_ranges};
ghost use Rattle.certificate.specs.Limits.{prices_fit};
ghost use Rattle.certificate.specs.AreAmounts.{AreAmounts};

use crate::PriceList;

/// Notes the price of each CPU; each has the price 0 before.
pub(crate) fn note_prices(prices: &PriceList, amounts: &mut [u64])
    requires fit { IsTrue (prices_fit prices.now) }
    requires none { AreAmounts [] amounts.old }
    ensures { AreAmounts prices.now amounts.new }
{
    for at in 0..prices.len() {
        note_ranges(prices.ranges(at), prices.amount(at), amounts);
    }
}

/// Notes an amount at each place in some ranges.
fn note_ranges(ranges: &[(u16, u16)], amount: u64, amounts: &mut [u64])
    requires { All (λ r. r.1 < length amounts.old) ranges.now }
    ensures long { length amounts.new ≡ length amounts.old }
    ensures noted { (c d : ℕ) → c < length amounts.old
        → slice_index_or amounts.new c d ≡ cond (in_ranges ranges.now c) amount (slice_index_or amounts.old c d) }
{
    for range in ranges {
        let (first, last) = *range;
        note_range(first as usize, last as usize, amount, amounts);
    }
}

/// Notes an amount from the first place up to the last.
fn note_range(first: usize, last: usize, amount: u64, amounts: &mut [u64])
    requires { last < length amounts.old }
    ensures long { length amounts.new ≡ length amounts.old }
    ensures noted { (c d : ℕ) → c < length amounts.old
        → slice_index_or amounts.new c d ≡ cond (nat_le first c
        && nat_le c last) amount (slice_index_or amounts.old c d) }
{
    for at in first..last + 1 {
        amounts[at] = amount;
    }
}
