ghost use Rattle.std.specs.Prelude.{◌≡◌, ℕ, ◌<◌, ◌++◌, [], ◌∷◌, All, OnOk, OnErr, length, slice_index_or};
ghost use Rattle.std.specs.FinSet as set;
ghost use Rattle.cpu_set.specs.Members.{InRange};
ghost use Rattle.cpu_set.specs.Ranges.{in_ranges};
ghost use Rattle.certificate.specs.Limits.{are_apart};
ghost use Rattle.tagged_sets.specs.Tagged.{ranges_of_set};

use crate::set_checks::are_apart;
use cpu_set::{CPU_LIMIT, IdSet};
use std::alloc::{AllocError, Global};
use std::marker::Model;
use tagged_sets::TaggedSets;

/// The numbers by which a plan shows that no plan costs less.
#[derive(Debug, Drop)]
pub struct Prices {
    /// The value of each row, in the rows' order: at most weight and price together of each CPU that
    /// the row may have.
    /// None is above [`MAX_AMOUNT`](crate::MAX_AMOUNT).
    pub values: Vec<u64>,
    /// The prices of CPUs. A CPU in none of them has the price 0.
    pub of_cpu: PriceList,
}

/// CPUs of one price.
#[derive(Clone, Copy, Debug)]
pub struct Price {
    /// At most [`MAX_AMOUNT`](crate::MAX_AMOUNT), counted as weights are.
    pub amount: u64,
    pub cpus: IdSet,
}

impl Model for Prices {
    ghost use Rattle.certificate.specs.PricesView.{PricesView, prices_code};

    ghost Value = { PricesView };

    ghost coded = { prices_code };

    ghost view = { λ a. record { values = a.values.items; of_cpu = a.of_cpu } };
}

/// The prices of CPUs, in the order in which they came.
///
/// A price takes as much memory as its CPUs have ranges.
#[derive(Debug, Drop)]
pub struct PriceList {
    // The CPUs of each price, with its amount.
    sets: TaggedSets<u64>,
}

impl Model for PriceList {
    ghost use Rattle.std.specs.Prelude.{List};
    ghost use Rattle.certificate.specs.PricesView.{price_list_code};
    ghost use Rattle.certificate.specs.declared.price_lists.Price.{Price};
    ghost use Rattle.certificate.specs.PricesOf.{prices_of};

    ghost Value = { List Price };

    ghost coded = { price_list_code };

    ghost view = { λ a. prices_of a.sets };
}

impl PriceList {
    /// No prices. Allocates nothing.
    pub fn new(alloc: Global) -> PriceList
        ensures { result ≡ [] }
    {
        PriceList {
            sets: TaggedSets::new(alloc),
        }
    }

    /// Adds a price after the others.
    ///
    /// # Errors
    /// An allocation failure, which changes nothing.
    pub fn push(&mut self, price: Price) -> Result<(), AllocError>
        ensures ok { OnOk result (self.new ≡ self.old ++ price ∷ []) }
        ensures err { OnErr result (self.new ≡ self.old) }
    {
        self.sets.push(price.amount, &price.cpus)
    }

    /// How many prices there are.
    pub fn len(&self) -> usize
        ensures { result ≡ length self.now }
    {
        self.sets.len()
    }

    /// The price at a place; the first that came is at 0.
    pub fn price(&self, at: usize) -> Price
        requires { at < length self.now }
        ensures { result ≡ slice_index_or self.now at result }
    {
        Price {
            amount: self.sets.tag(at),
            cpus: self.sets.cpus(at),
        }
    }

    /// The amount of the price at a place.
    pub fn amount(&self, at: usize) -> u64
        requires { at < length self.now }
        ensures { (d : Price) → result ≡ (slice_index_or self.now at d).amount }
    {
        self.sets.tag(at)
    }

    /// The CPUs of the price at a place, as ranges from a first CPU up to a last. They rise, and each is as long as
    /// possible.
    pub fn ranges(&self, at: usize) -> &[(u16, u16)]
        requires { at < length self.now }
        ensures ranges { (d : Price) → result.now ≡ ranges_of_set (slice_index_or self.now at d).cpus }
        ensures members { (d : Price) (cpu : ℕ) → in_ranges result.now cpu
            ≡ set.contains (slice_index_or self.now at d).cpus cpu }
        ensures below { All (λ r. r.1 < CPU_LIMIT) result.now }
        ensures in_range { (d : Price) → InRange (slice_index_or self.now at d).cpus }
    {
        self.sets.ranges(at)
    }

    /// Whether no CPU has two of them.
    pub(crate) fn are_apart(&self) -> bool
        ensures { result ≡ are_apart (λ p. p.cpus) self.now }
    {
        are_apart(&self.sets)
    }
}
