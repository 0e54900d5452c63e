ghost use Rattle.std.specs.Prelude.{◌≡◌, ◌↔◌, ℕ, ◌+◌, ◌<◌, ◌++◌, [], ◌∷◌, All, IsTrue, IfOk, IfSome, OnOk, OnErr, is_some};
ghost use Rattle.std.specs.Prelude.{length, slice_index_or};
ghost use Rattle.std.specs.FinSet as set;
ghost use Rattle.certificate.specs.Weight.{weight_in};
ghost use Rattle.cpu_set.specs.Members.{InRange};
ghost use Rattle.cpu_set.specs.Ranges.{in_ranges};
ghost use Rattle.certificate.specs.Limits.{are_apart};
ghost use Rattle.certificate.specs.RisingOffers.{AreRising};
ghost use Rattle.tagged_sets.specs.Tagged.{IsOfSet, ranges_of_set, set_of_ranges};

use crate::Offer;
use crate::set_checks::are_apart;
use cpu_set::{CPU_LIMIT, IdSet};
use std::alloc::{AllocError, Global};
use std::marker::Model;
use tagged_sets::TaggedSets;

/// The offers of a row, in the order in which they came, and whether their weights rise.
///
/// An offer takes as much memory as its CPUs have ranges.
#[derive(Debug, Drop)]
pub struct Offers {
    // The CPUs of each offer, with its weight.
    sets: TaggedSets<u32>,
    is_rising: bool,
}

impl Model for Offers {
    ghost use Rattle.std.specs.Prelude.{◌↔◌, IsTrue, List};
    ghost use Rattle.certificate.specs.RowView.{offers_code};
    ghost use Rattle.certificate.specs.declared.rows.Offer.{Offer};
    ghost use Rattle.certificate.specs.RisingOffers.{AreRising};
    ghost use Rattle.certificate.specs.OffersOf.{as_offers};

    ghost Value = { List Offer };

    ghost coded = { offers_code };

    ghost view = { λ a. as_offers a.sets };

    ghost invariant = { λ a. IsTrue a.is_rising ↔ AreRising (as_offers a.sets) };
}

impl Offers {
    /// No offers. Allocates nothing.
    pub fn new(alloc: Global) -> Offers
        ensures { result ≡ [] }
    {
        Offers {
            sets: TaggedSets::new(alloc),
            is_rising: true,
        }
    }

    /// Adds an offer after the others.
    ///
    /// # Errors
    /// An allocation failure, which changes nothing.
    pub fn push(&mut self, offer: Offer) -> Result<(), AllocError>
        ensures ok { OnOk result (self.new ≡ self.old ++ offer ∷ []) }
        ensures err { OnErr result (self.new ≡ self.old) }
    {
        let rises = u64::from(offer.weight) >= self.least();
        self.sets.push(offer.weight, &offer.cpus)?;
        self.is_rising = self.is_rising && rises;
        Ok(())
    }

    /// Adds an offer of other ones after the others, with a weight of its own: its ranges are copied as they stand.
    /// O(r) of its r ranges.
    ///
    /// # Errors
    /// An allocation failure, which changes nothing.
    pub fn push_from(&mut self, weight: u32, other: &Offers, at: usize) -> Result<(), AllocError>
        requires { at < length other.now }
        ensures ok { (d : Offer) → OnOk result (self.new ≡ self.old
            ++ (record { weight = weight; cpus = (slice_index_or other.now at d).cpus }) ∷ []) }
        ensures err { OnErr result (self.new ≡ self.old) }
    {
        let rises = u64::from(weight) >= self.least();
        self.sets.push_from(weight, &other.sets, at)?;
        self.is_rising = self.is_rising && rises;
        Ok(())
    }

    /// Adds the offer of the CPUs in these ranges after the others. O(r) of r ranges.
    ///
    /// # Errors
    /// An allocation failure, which changes nothing.
    pub fn push_ranges(&mut self, weight: u32, ranges: &[(u16, u16)]) -> Result<(), AllocError>
        requires { IsOfSet ranges.now }
        ensures ok { OnOk result (self.new ≡ self.old
            ++ (record { weight = weight; cpus = set_of_ranges ranges.now }) ∷ []) }
        ensures err { OnErr result (self.new ≡ self.old) }
    {
        let least = self.least();
        self.sets.push_ranges(weight, ranges)?;
        self.is_rising = self.is_rising && u64::from(weight) >= least;
        Ok(())
    }

    /// Adds an offer of other ones, less the CPUs of `without`, after the others, with a weight of its own. No set is
    /// made: O(r + c + w) of its r ranges, where c are cut out of them and a set has w words.
    ///
    /// # Errors
    /// An allocation failure, which changes nothing.
    pub fn push_without(
        &mut self,
        weight: u32,
        other: &Offers,
        at: usize,
        without: &IdSet,
    ) -> Result<(), AllocError>
        requires { at < length other.now }
        ensures ok { (d : Offer) → OnOk result (self.new ≡ self.old ++ (record {
          weight = weight;
          cpus = set.difference (slice_index_or other.now at d).cpus without.now;
        }) ∷ []) }
        ensures err { OnErr result (self.new ≡ self.old) }
    {
        let rises = self.least() <= u64::from(weight);
        self.sets.push_without(weight, &other.sets, at, without)?;
        self.is_rising = self.is_rising && rises;
        Ok(())
    }

    /// The least weight with which the next offer weighs more than the last.
    fn least(&self) -> u64
        ensures none { length self.now ≡ 0 → result ≡ 0 }
        ensures last { (i : ℕ) (d : Offer) → i + 1 ≡ length self.now
            → result ≡ (slice_index_or self.now i d).weight + 1 }
    {
        if self.len() == 0 {
            return 0;
        }
        u64::from(self.weight(self.len() - 1)) + 1
    }

    /// The same offers once more.
    ///
    /// # Errors
    /// An allocation failure.
    pub fn copy(&self, alloc: Global) -> Result<Offers, AllocError>
        ensures { IfOk result (λ same. same ≡ self.now) }
    {
        let sets = self.sets.copy(alloc)?;
        Ok(Offers {
            sets,
            is_rising: self.is_rising,
        })
    }

    /// How many offers there are.
    pub fn len(&self) -> usize
        ensures { result ≡ length self.now }
    {
        self.sets.len()
    }

    /// The offer at a place; the first that came is at 0.
    pub fn offer(&self, at: usize) -> Offer
        requires { at < length self.now }
        ensures { result ≡ slice_index_or self.now at result }
    {
        Offer {
            weight: self.sets.tag(at),
            cpus: self.sets.cpus(at),
        }
    }

    /// The weight of the offer at a place.
    pub fn weight(&self, at: usize) -> u32
        requires { at < length self.now }
        ensures { (d : Offer) → result ≡ (slice_index_or self.now at d).weight }
    {
        self.sets.tag(at)
    }

    /// The CPUs of the offer at a place, as ranges from a first CPU up to a last. They rise, and each is as long as
    /// possible.
    pub fn ranges(&self, at: usize) -> &[(u16, u16)]
        requires { at < length self.now }
        ensures ranges { (d : Offer) → result.now ≡ ranges_of_set (slice_index_or self.now at d).cpus }
        ensures members { (d : Offer) (cpu : ℕ) → in_ranges result.now cpu
            ≡ set.contains (slice_index_or self.now at d).cpus cpu }
        ensures below { All (λ r. r.1 < CPU_LIMIT) result.now }
        ensures in_range { (d : Offer) → InRange (slice_index_or self.now at d).cpus }
    {
        self.sets.ranges(at)
    }

    /// Whether the CPUs of an offer are kept as a set. Where none are, [`Offers::wide`] has nothing to lend.
    pub fn has_wide(&self) -> bool {
        self.sets.has_wide()
    }

    /// The CPUs of the offer at a place, where they are kept as a set, as most of more than 64 ranges are.
    pub fn wide(&self, at: usize) -> Option<&IdSet>
        requires { at < length self.now }
        ensures { (d : Offer) → IfSome result (λ cpus. cpus.now ≡ (slice_index_or self.now at d).cpus) }
    {
        self.sets.wide(at)
    }

    /// The offers in a list, each with a whole set.
    ///
    /// # Errors
    /// An allocation failure.
    pub fn to_vec(&self, alloc: Global) -> Result<Vec<Offer>, AllocError>
        ensures { IfOk result (λ list. list.items ≡ self.now) }
    {
        let mut list = Vec::with_capacity(alloc, self.len())?;
        for at in 0..self.len() {
            list.push(self.offer(at))?;
        }
        Ok(list)
    }

    /// The CPUs that are in one of the offers.
    pub fn cpus(&self) -> IdSet
        ensures { (cpu : ℕ) → set.contains result cpu ≡ is_some (weight_in self.now cpu) }
    {
        self.sets.all()
    }

    /// Whether each offer weighs more than all before it.
    pub fn are_rising(&self) -> bool
        ensures { IsTrue result ↔ AreRising self.now }
    {
        self.is_rising
    }

    /// Whether both are the same offers in the same order.
    pub fn is_same(&self, other: &Offers) -> bool
        ensures { IsTrue result ↔ (self.now ≡ other.now) }
    {
        self.sets.is_same(&other.sets)
    }

    /// Whether no CPU is in two of them.
    pub(crate) fn are_apart(&self) -> bool
        ensures { result ≡ are_apart (λ o. o.cpus) self.now }
    {
        are_apart(&self.sets)
    }
}
