ghost use Rattle.std.specs.Prelude.{◌≡◌, ℕ, ◌+◌, ◌/◌, ◌&&◌, ◌||◌, ◌==◌, true, false, not, IsTrue, IfSome, MatchOption};
ghost use Rattle.std.specs.FinSet as set;
ghost use Rattle.cpu_set.specs.Ids.{NoneFrom, IsFirstFrom};
ghost use Rattle.cpu_set.specs.Members.{IsCpu};

use crate::id_set::IdSet;
use std::marker::Model;

/// Numbers that lie together: some of the 64 from a multiple of 64 on. Small, so that many of them take little memory,
/// and each call takes a few steps, where those of [`IdSet`] go through all numbers.
#[derive(Debug, Drop)]
pub struct WordSet {
    at: usize,
    bits: u64,
}

impl Model for WordSet {
    ghost use Rattle.cpu_set.specs.Ids.{Ids, ids_code};
    ghost use Rattle.cpu_set.specs.WordSets.{IsWordSet, set_of_word};

    ghost Value = { Ids };

    ghost coded = { ids_code };

    ghost view = { λ a. set_of_word a.at a.bits };

    ghost invariant = { λ a. IsWordSet a.at a.bits };
}

impl WordSet {
    /// The set of one number.
    pub fn of(n: u16) -> WordSet
        requires { IsCpu n }
        ensures { (q : ℕ) → set.contains result q ≡ (q == n) }
    {
        WordSet {
            at: n as usize / 64,
            bits: 1 << (n % 64),
        }
    }

    /// Adds a number, if it lies together with those of the set and above them; says whether it was added.
    pub fn extend(&mut self, n: u16) -> bool
        requires { IsCpu n }
        ensures added { IsTrue result → (q : ℕ) → set.contains self.new q ≡ (set.contains self.old q || (q == n)) }
        ensures above { IsTrue result → NoneFrom self.old n }
        // If it returns false, nothing changed.
        ensures same { result ≡ false → self.new ≡ self.old }
        // If the set has a member, the number then lies in another word, or not behind all of the members. Why an empty
        // set refuses a number, nothing says.
        ensures refused { result ≡ false → (m : ℕ) → set.contains self.old m ≡ true → m / 64 ≡ n / 64
            → NoneFrom self.old n → ⊥ }
    {
        let place = n % 64;
        if n as usize / 64 != self.at || self.bits >> place != 0 {
            return false;
        }
        self.bits = self.bits | (1 << place);
        true
    }

    /// The numbers that are not in the set.
    pub fn minus(&self, other: &IdSet) -> WordSet
        ensures { (q : ℕ) → set.contains result q ≡ (set.contains self.now q && not (set.contains other.now q)) }
    {
        WordSet {
            at: self.at,
            bits: self.bits & !other.word(self.at),
        }
    }

    /// Takes out the least number.
    pub fn take_first(&mut self) -> Option<u16>
        ensures first { MatchOption result (NoneFrom self.old 0) (λ n. IsFirstFrom self.old 0 n) }
        ensures left { MatchOption result (self.new ≡ self.old) (λ n. self.new ≡ set.remove self.old n) }
        ensures in_range { IfSome result (λ n. IsCpu n) }
    {
        if self.bits == 0 {
            return None;
        }
        let i = self.bits.trailing_zeros();
        self.bits = self.bits & !(1 << i);
        Some((self.at * 64 + i as usize) as u16)
    }
}
