ghost use Rattle.std.specs.Prelude.{◌≡◌, ℕ, ◌+◌, ◌*◌, ◌/◌, ◌%◌, ◌<◌, ◌≤◌, ◌↔◌, ◌||◌, ◌&&◌, ◌==◌, nat_le, length};
ghost use Rattle.std.specs.Prelude.{IsTrue, IfSome, MatchOption};
ghost use Rattle.std.specs.Int.{bit_at};
ghost use Rattle.std.specs.FinSet as set;
ghost use Rattle.cpu_set.specs.Ids.{IsDisjoint, NoneFrom, IsFirstFrom, IsLast};
ghost use Rattle.cpu_set.specs.Members.{IsCpu, InRange, IsComplement, members};
ghost use Rattle.cpu_set.specs.Words.{AreWords, set_of_words};

use crate::CPU_LIMIT;
use crate::ranges::Ranges;
use crate::word::{bits_between, bits_of_range, first_bit};
use std::fmt;
use std::marker::Model;
use std::simd::prelude::*;

pub(crate) const WORD_BITS: usize = 64;

pub(crate) const WORDS: usize = CPU_LIMIT as usize / WORD_BITS;

/// A set of numbers below [`CPU_LIMIT`]: CPUs, or nodes. Number n is bit `n % 64` of word `n / 64`.
#[derive(Clone, Copy)]
pub struct IdSet {
    words: [u64; WORDS],
}

impl Model for IdSet {
    ghost use Rattle.cpu_set.specs.Ids.{Ids, ids_code};
    ghost use Rattle.cpu_set.specs.Words.{AreWords, set_of_words, words_of_set};
    ghost use Rattle.cpu_set.specs.WordLaws.{words_of_set-set_of_words};

    ghost Value = { Ids };

    ghost coded = { ids_code };

    ghost view = { λ a. set_of_words a.words };

    ghost invariant = { λ a. AreWords a.words };

    ghost inverse = { λ s. record { words = words_of_set s } };

    ghost inverse_ok = { λ a h. (λ i. record { words = words_of_set-set_of_words a.words h i }) };
}

impl IdSet {
    /// The set with no number.
    pub fn empty() -> IdSet
        ensures { result ≡ set.empty }
    {
        IdSet { words: [0; WORDS] }
    }

    /// Whether the set has the number; no set has one at or above the limit.
    pub fn contains(&self, n: u16) -> bool
        ensures { result ≡ set.contains self.now n }
    {
        n < CPU_LIMIT && (self.words[n as usize / WORD_BITS] >> (n % 64)) & 1 == 1
    }

    /// Adds a number; one that is there stays.
    pub fn insert(&mut self, n: u16)
        requires { IsCpu n }
        ensures { self.new ≡ set.insert self.old n }
    {
        let at = n as usize / WORD_BITS;
        self.words[at] = self.words[at] | (1 << (n % 64));
    }

    /// Takes a number out, where it is there.
    pub fn remove(&mut self, n: u16)
        requires { IsCpu n }
        ensures { self.new ≡ set.remove self.old n }
    {
        let at = n as usize / WORD_BITS;
        self.words[at] = self.words[at] & !(1 << (n % 64));
    }

    /// Adds the numbers from `first` up to `last`.
    pub fn insert_range(&mut self, first: u16, last: u16)
        requires { IsCpu last }
        ensures { (n : ℕ) → set.contains self.new n ≡ (set.contains self.old n || (nat_le first n && nat_le n last)) }
    {
        let at = first as usize / WORD_BITS;
        if at == last as usize / WORD_BITS {
            self.words[at] = self.words[at] | bits_between(first % 64, last % 64);
        } else {
            self.insert_in_words(first, last);
        }
    }

    // Adds the numbers from `first` up to `last`, word by word.
    fn insert_in_words(&mut self, first: u16, last: u16)
        requires { IsCpu last }
        ensures { (n : ℕ) → set.contains self.new n ≡ (set.contains self.old n || (nat_le first n && nat_le n last)) }
    {
        for k in first as usize / WORD_BITS..last as usize / WORD_BITS + 1 {
            self.words[k] = self.words[k] | bits_of_range((k * WORD_BITS) as u16, first, last);
        }
    }

    /// The numbers that are in one of the two sets, or in both.
    pub fn union(&self, other: &IdSet) -> IdSet
        ensures { result ≡ set.union self.now other.now }
    {
        IdSet::of_lanes(self.lanes() | other.lanes())
    }

    /// The numbers that are in both sets.
    pub fn meet(&self, other: &IdSet) -> IdSet
        ensures { result ≡ set.intersection self.now other.now }
    {
        IdSet::of_lanes(self.lanes() & other.lanes())
    }

    /// The numbers of this set that are not in the other.
    pub fn minus(&self, other: &IdSet) -> IdSet
        ensures { result ≡ set.difference self.now other.now }
    {
        IdSet::of_lanes(self.lanes() & !other.lanes())
    }

    /// The numbers below the limit that are not in the set.
    pub fn complement(&self) -> IdSet
        ensures { IsComplement self.now result }
    {
        IdSet::of_lanes(!self.lanes())
    }

    /// Whether no number is in both sets.
    pub fn is_disjoint(&self, other: &IdSet) -> bool
        ensures { IsTrue result ↔ IsDisjoint self.now other.now }
    {
        has_none(self.lanes() & other.lanes())
    }

    /// Whether each number of this set is in the other.
    pub fn is_subset(&self, other: &IdSet) -> bool
        ensures { result ≡ set.is_subset self.now other.now }
    {
        has_none(self.lanes() & !other.lanes())
    }

    /// Whether the set has no number.
    pub fn is_empty(&self) -> bool
        ensures { IsTrue result ↔ (self.now ≡ set.empty) }
    {
        has_none(self.lanes())
    }

    /// How many numbers the set has.
    pub fn count(&self) -> u32
        ensures is_len { result ≡ set.len self.now }
        ensures small { result ≤ CPU_LIMIT }
        ensures in_range { InRange self.now }
        ensures members { result ≡ length (members self.now) }
    {
        self.lanes().count_ones().strict_reduce_sum() as u32
    }

    /// All numbers of the set are below the limit.
    pub fn stays_below_the_limit(&self)
        ensures { InRange self.now }
    {
        let _ = self.lanes();
    }

    /// The least number of the set.
    pub fn first(&self) -> Option<u16>
        ensures first { MatchOption result (NoneFrom self.now 0) (λ n. IsFirstFrom self.now 0 n) }
        ensures in_range { IfSome result (λ n. IsCpu n) }
    {
        self.first_in_words(0)
    }

    /// The greatest number of the set.
    pub fn last(&self) -> Option<u16>
        // None if the set is empty.
        ensures last { MatchOption result (NoneFrom self.now 0) (λ n. IsLast self.now n) }
        ensures in_range { IfSome result (λ n. IsCpu n) }
    {
        let mut k = WORDS;
        while k > 0 {
            k -= 1;
            let word = self.words[k];
            if word != 0 {
                return Some((k * WORD_BITS) as u16 + (63 - word.leading_zeros()) as u16);
            }
        }
        None
    }

    /// The least number of the set above `n`.
    pub fn next_after(&self, n: u16) -> Option<u16>
        ensures first { MatchOption result (NoneFrom self.now (n + 1)) (λ m. IsFirstFrom self.now (n + 1) m) }
        ensures in_range { IfSome result (λ m. IsCpu m) }
    {
        let words = &self.words;
        let from = n as usize + 1;
        if from >= CPU_LIMIT as usize {
            return None;
        }
        let k = from / WORD_BITS;
        match first_bit(words[k], (from % WORD_BITS) as u32) {
            Some(i) => Some((k * WORD_BITS) as u16 + i as u16),
            None => self.first_in_words(k + 1),
        }
    }

    /// The least number of the set above `n` that is not in another. One that is far away costs a step for each 64
    /// numbers.
    pub fn next_outside(&self, n: u16, other: &IdSet) -> Option<u16>
        ensures first { MatchOption result (NoneFrom (set.difference self.now other.now) (n + 1))
            (λ m. IsFirstFrom (set.difference self.now other.now) (n + 1) m) }
        ensures in_range { IfSome result (λ m. IsCpu m) }
    {
        let words = &self.words;
        let least = n as usize + 1;
        if least >= CPU_LIMIT as usize {
            return None;
        }
        let k = least / WORD_BITS;
        match first_bit(words[k] & !other.words[k], (least % WORD_BITS) as u32) {
            Some(i) => Some((k * WORD_BITS) as u16 + i as u16),
            None => self.first_outside_in_words(k + 1, other),
        }
    }

    // The least number in the words from this one on that is not in another set.
    fn first_outside_in_words(&self, from: usize, other: &IdSet) -> Option<u16>
        ensures first { MatchOption result (NoneFrom (set.difference self.now other.now) (from * 64))
            (λ n. IsFirstFrom (set.difference self.now other.now) (from * 64) n) }
        ensures in_range { IfSome result (λ n. IsCpu n) }
    {
        for k in from..WORDS {
            let word = self.words[k] & !other.words[k];
            if word != 0 {
                return Some((k * WORD_BITS) as u16 + word.trailing_zeros() as u16);
            }
        }
        None
    }

    // The numbers from 64 times this place on as bits.
    pub(crate) fn word(&self, at: usize) -> u64
        requires { at < WORDS }
        ensures { (q : ℕ) → q / 64 ≡ at → (bit_at result (q % 64) == 1) ≡ set.contains self.now q }
    {
        self.words[at]
    }

    // The least number in the words from this one on.
    fn first_in_words(&self, from: usize) -> Option<u16>
        ensures first { MatchOption result (NoneFrom self.now (from * 64)) (λ n. IsFirstFrom self.now (from * 64) n) }
        ensures in_range { IfSome result (λ n. IsCpu n) }
    {
        for k in from..WORDS {
            let word = self.words[k];
            if word != 0 {
                return Some((k * WORD_BITS) as u16 + word.trailing_zeros() as u16);
            }
        }
        None
    }

    // Inlined, since a call copies all words to the stack before they are used.
    #[inline(always)]
    fn lanes(&self) -> Simd<u64, WORDS>
        ensures words { AreWords result }
        ensures numbers { set_of_words result ≡ self.now }
    {
        Simd::from_array(self.words)
    }

    #[inline(always)]
    fn of_lanes(lanes: Simd<u64, WORDS>) -> IdSet
        requires { AreWords lanes }
        ensures { result ≡ set_of_words lanes }
    {
        IdSet {
            words: lanes.to_array(),
        }
    }
}

#[inline(always)]
fn has_none(lanes: Simd<u64, WORDS>) -> bool
    requires { AreWords lanes }
    ensures { IsTrue result ↔ (set_of_words lanes ≡ set.empty) }
{
    lanes.reduce_or() == 0
}

// As a list, `{0-2,7}`.
impl fmt::Debug for IdSet {
    fn fmt<W: fmt::Write>(&self, f: &mut fmt::Formatter<W>) -> fmt::Result {
        let mut separator = '{';
        for (first, last) in Ranges::of(self) {
            if first == last {
                write!(f, "{separator}{first}")?;
            } else {
                write!(f, "{separator}{first}-{last}")?;
            }
            separator = ',';
        }
        f.write_str(if self.is_empty() { "{}" } else { "}" })
    }
}

impl PartialEq for IdSet {
    ghost use Rattle.std.specs.Cmp.{partial_equiv_from_equiv, decided};
    ghost use Rattle.cpu_set.specs.Ids.{is_same};
    ghost use Rattle.cpu_set.specs.PointwiseLaws.{is_same_decides};

    ghost eq = { is_same };

    ghost laws = { partial_equiv_from_equiv (decided is_same is_same_decides) };

    fn eq(&self, other: &IdSet) -> bool {
        has_none(self.lanes() ^ other.lanes())
    }
}

impl Eq for IdSet {
    ghost use Rattle.std.specs.Cmp.{decided};
    ghost use Rattle.cpu_set.specs.Ids.{is_same};
    ghost use Rattle.cpu_set.specs.PointwiseLaws.{is_same_decides};

    ghost laws = { decided is_same is_same_decides };
}
