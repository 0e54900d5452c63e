//! The offers of a row's line.
ghost use Rattle.std.specs.Prelude.{◌≡◌, false, IsTrue, MatchOption, IfOk, IfErr, List, [], ◌∷◌, ◌++◌};
ghost use Rattle.std.specs.List.{AllZip};
ghost use Rattle.certificate.specs.declared.rows.Offer.{Offer};
ghost use Rattle.faults.specs.declared.or_memory.OrMemory.TheVariants.{Memory};
ghost use Rattle.cpu_set.specs.Ids.{Ids};
ghost use Rattle.certificate_text.specs.Line.{IsOfferWord, words};
ghost use Rattle.certificate_text.specs.ListWord.{IsListWord};
ghost use Rattle.certificate_text.specs.OnBad.{OnBad};
ghost use Rattle.tagged_sets.specs.Tagged.{IsOfSet, set_of_ranges};

use crate::bad_line::BadLine;
use crate::decimal::read_u32;
use crate::list_word::read_cpus;
use crate::split_once::split_once;
use crate::word_pairs::split_pair;
use certificate::{Offer, Offers};
use cpu_list::read_rising;
use cpu_set::CPU_LIMIT;
use faults::OrMemory;
use std::alloc::Global;

/// The offers that the words of the text spell, one each. Where an allocation fails the other words are read all the
/// same, so that a bad one is told as such.
pub fn read_offers(alloc: Global, text: &[u8]) -> Result<Offers, OrMemory<BadLine>>
    ensures ok { IfOk result (λ offers. AllZip IsOfferWord (words text.now) offers) }
    ensures bad { OnBad result ((os : List Offer) → AllZip IsOfferWord (words text.now) os → ⊥) }
    ensures memory { IfErr result (λ fault. fault ≡ Memory → (os : List Offer)
        × AllZip IsOfferWord (words text.now) os) }
{
    let mut offers = Offers::new(alloc);
    let mut ranges = Vec::new(alloc);
    let mut lacks = false;
    let mut rest = text;
    while let Some((word, after)) = split_once(rest, b' ') {
        let Some(lacks_more) = add_offer(&mut offers, word, &mut ranges, lacks) else {
            return Err(OrMemory::Fault(BadLine));
        };
        lacks = lacks_more;
        rest = after;
    }
    let Some(lacks_more) = add_offer(&mut offers, rest, &mut ranges, lacks) else {
        return Err(OrMemory::Fault(BadLine));
    };
    if lacks_more {
        return Err(OrMemory::Memory);
    }
    Ok(offers)
}

/// Adds the offer that the word WEIGHT:LIST spells, unless the allocation of one failed before; says whether it was, or
/// is for this one. A plain list is read as its ranges, into `ranges`: most lists are plain, and no set is made of
/// them.
fn add_offer(
    offers: &mut Offers,
    word: &[u8],
    ranges: &mut Vec<(u16, u16)>,
    lacks: bool,
) -> Option<bool>
    ensures { MatchOption result ((o : Offer) → IsOfferWord word.now o → ⊥)
        (λ lacks_more. (o : Offer) × IsOfferWord word.now o
        × (lacks_more ≡ false → (lacks ≡ false) × (offers.new ≡ offers.old ++ o ∷ []))) }
{
    let (weight, list) = split_pair(word, b':')?;
    let weight = read_u32(weight)?;
    if reads_rising(list, ranges) {
        return Some(add_ranges(offers, weight, ranges.as_slice(), lacks));
    }
    add_set(offers, weight, list, lacks)
}

/// Reads a plain list as its ranges, of one CPU at least; says whether it is one.
fn reads_rising(list: &[u8], ranges: &mut Vec<(u16, u16)>) -> bool
    ensures of_set { IsTrue result → IsOfSet ranges.new.items }
    ensures names { IsTrue result → IsListWord list.now (set_of_ranges ranges.new.items) }
{
    let Ok(is_rising) = read_rising(list, CPU_LIMIT, ranges) else {
        return false;
    };
    is_rising && !ranges.is_empty()
}

/// Adds the offer of these ranges, as [`add_offer`] does.
fn add_ranges(offers: &mut Offers, weight: u32, ranges: &[(u16, u16)], lacks: bool) -> bool
    requires { IsOfSet ranges.now }
    ensures { result ≡ false → (lacks ≡ false) × (offers.new ≡ offers.old
        ++ record { weight = weight; cpus = set_of_ranges ranges.now } ∷ []) }
{
    lacks || offers.push_ranges(weight, ranges).is_err()
}

/// Adds the offer of the CPUs that a list names, as [`add_offer`] does. Not inlined, so that no room for its set is
/// cleared for each other offer.
#[inline(never)]
fn add_set(offers: &mut Offers, weight: u32, list: &[u8], lacks: bool) -> Option<bool>
    ensures { MatchOption result ((cpus : Ids) → IsListWord list.now cpus → ⊥)
        (λ lacks_more. (cpus : Ids) × IsListWord list.now cpus × (lacks_more ≡ false → (lacks ≡ false)
        × (offers.new ≡ offers.old ++ record { weight = weight; cpus = cpus } ∷ []))) }
{
    let cpus = read_cpus(list)?;
    Some(add(offers, Offer { weight, cpus }, lacks))
}

/// Adds an offer, as [`add_offer`] does.
fn add(offers: &mut Offers, offer: Offer, lacks: bool) -> bool
    ensures { result ≡ false → (lacks ≡ false) × (offers.new ≡ offers.old ++ offer ∷ []) }
{
    lacks || offers.push(offer).is_err()
}
