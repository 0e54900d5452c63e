//! What a plan costs, and what its rows are worth.
ghost use Rattle.std.specs.Prelude.{◌≡◌, ℕ, ◌<◌, ◌≤◌, ◌*◌, IsTrue, List, length, slice_index_or, sum_by, unwrap_or};
ghost use Rattle.std.specs.List.{list_all};
ghost use Rattle.std.specs.FinSet as set;
ghost use Rattle.cpu_set.specs.Ids.{Ids};
ghost use Rattle.cpu_set.specs.Members.{InRange, members};
ghost use Rattle.certificate.specs.Weight.{weight_in};
ghost use Rattle.certificate.specs.Cost.{row_cost, cost};
ghost use Rattle.certificate.specs.IsBound.{worth};
ghost use Rattle.certificate.specs.IsProved.{IsProved};
ghost use Rattle.certificate.specs.Price.{all_prices};
ghost use Rattle.certificate.specs.Limits.{offers_fit, row_fits, values_fit, prices_fit};
ghost use Rattle.certificate.specs.declared.rows.Offer.{Offer};

use crate::only_cpu::only_cpu;
use crate::{MAX_AMOUNT, MAX_DEMAND, MAX_ROWS, MAX_WEIGHT, Offers, PriceList, Prices, Row};
use cpu_set::{CPU_LIMIT, IdSet};

/// What a plan costs: the weights of the CPUs that its rows hold, summed. A CPU without a weight in its row
/// counts nothing. Allocates nothing.
pub(crate) fn plan_cost(rows: &[Row], sets: &[IdSet]) -> u64
    requires few { length rows.now ≤ MAX_ROWS }
    requires fit { IsTrue (list_all row_fits rows.now) }
    requires same { length sets.now ≡ length rows.now }
    ensures cost { result ≡ cost rows.now sets.now }
    ensures small { result ≤ MAX_ROWS * (CPU_LIMIT * MAX_WEIGHT) }
{
    let mut total = 0;
    for (k, row) in rows.iter().enumerate() {
        total += row_cost(row, &sets[k]);
    }
    total
}

fn row_cost(row: &Row, held: &IdSet) -> u64
    requires { IsTrue (row_fits row.now) }
    ensures cost { result ≡ row_cost row.now held.now }
    ensures small { result ≤ CPU_LIMIT * MAX_WEIGHT }
{
    offers_cost(&row.offers, held)
}

/// The weights of the CPUs held, summed offer by offer: no CPU is in two.
fn offers_cost(offers: &Offers, held: &IdSet) -> u64
    requires { IsTrue (offers_fit offers.now) }
    ensures cost { result ≡ sum_by (λ cpu. unwrap_or (weight_in offers.now cpu) 0) (members held.now) }
    ensures small { result ≤ CPU_LIMIT * MAX_WEIGHT }
{
    let mut cost = 0;
    for at in 0..offers.len() {
        cost += u64::from(offers.weight(at)) * u64::from(held_count(offers, at, held));
    }
    cost
}

/// How many CPUs of the offer at a place are held.
fn held_count(offers: &Offers, at: usize, held: &IdSet) -> u32
    requires { at < length offers.now }
    ensures is_len { (d : Offer) → result ≡ set.len (set.intersection held.now (slice_index_or offers.now at d).cpus) }
    ensures in_range { (d : Offer) → InRange (set.intersection held.now (slice_index_or offers.now at d).cpus) }
{
    if let Some(cpu) = only_cpu(offers.ranges(at)) {
        return u32::from(held.contains(cpu));
    }
    let offer = offers.offer(at);
    shared_count(held, &offer.cpus)
}

/// How many CPUs both sets have; most have none.
fn shared_count(held: &IdSet, cpus: &IdSet) -> u32
    ensures is_len { result ≡ set.len (set.intersection held.now cpus.now) }
    ensures in_range { InRange (set.intersection held.now cpus.now) }
{
    let shared = held.meet(cpus);
    if shared.is_empty() {
        return 0;
    }
    shared.count()
}

/// What a plan costs that values and prices prove to cost the least: what its rows are worth, less the prices of all
/// CPUs. Allocates nothing, and a step for each row and price.
pub fn proved_cost(rows: &[Row], prices: &Prices) -> u64
    requires { (sets : List Ids) × (total : ℕ) × IsProved rows.now sets prices.now total }
    ensures { (sets : List Ids) (total : ℕ) → IsProved rows.now sets prices.now total → result ≡ total }
{
    let values = prices.values.as_slice();
    worth(rows, values) - price_sum(&prices.of_cpu)
}

/// The prices of all CPUs, summed price by price: no CPU has two.
pub(crate) fn price_sum(prices: &PriceList) -> u64
    requires { IsTrue (prices_fit prices.now) }
    ensures sum { result ≡ all_prices prices.now }
    ensures small { result ≤ CPU_LIMIT * MAX_AMOUNT }
{
    let mut sum = 0;
    for at in 0..prices.len() {
        let price = prices.price(at);
        sum += price.amount * u64::from(price.cpus.count());
    }
    sum
}

/// Demand times value, summed over the rows.
pub(crate) fn worth(rows: &[Row], values: &[u64]) -> u64
    requires few { length rows.now ≤ MAX_ROWS }
    requires fit { IsTrue (list_all row_fits rows.now) }
    requires values { IsTrue (values_fit values.now) }
    requires same { length values.now ≡ length rows.now }
    ensures { result ≡ worth rows.now values.now }
{
    let mut worth = 0;
    for (k, row) in rows.iter().enumerate() {
        worth += u64::from(row.demand) * values[k];
    }
    worth
}
