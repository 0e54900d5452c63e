//! A set, with where its numbers lie.
ghost use Rattle.std.specs.Prelude.{◌≡◌, IfSome, MatchOption};
ghost use Rattle.std.specs.FinSet as set;
ghost use Rattle.cpu_set.specs.Ids.{NoneFrom, IsFirstFrom};
ghost use Rattle.cpu_set.specs.Members.{IsCpu};

use crate::id_set::{IdSet, WORD_BITS};
use std::marker::Model;

/// A set that many others are compared with, with the words in which its numbers lie: where these are few, a look takes
/// as many steps, and those of [`IdSet`] go through all numbers.
#[derive(Debug, Drop)]
pub struct Spanned {
    set: IdSet,
    // Its numbers lie in the words from the first up to the one before the other.
    from: usize,
    upto: usize,
}

impl Model for Spanned {
    ghost use Rattle.cpu_set.specs.Ids.{Ids, ids_code};
    ghost use Rattle.cpu_set.specs.WordSets.{AreWithin};

    ghost Value = { Ids };

    ghost coded = { ids_code };

    ghost view = { λ a. a.set };

    ghost invariant = { λ a. AreWithin a.from a.upto a.set };
}

impl Spanned {
    /// This set.
    pub fn of(set: &IdSet) -> Spanned
        ensures { result ≡ set.now }
    {
        let (from, upto) = match (set.first(), set.last()) {
            (Some(first), Some(last)) => {
                (first as usize / WORD_BITS, last as usize / WORD_BITS + 1)
            }
            _ => (0, 0),
        };
        Spanned {
            set: *set,
            from,
            upto,
        }
    }

    /// The least number that is in the other set too.
    pub fn first_common(&self, other: &IdSet) -> Option<u16>
        ensures first { MatchOption result (NoneFrom (set.intersection self.now other.now) 0)
            (λ n. IsFirstFrom (set.intersection self.now other.now) 0 n) }
        ensures in_range { IfSome result (λ n. IsCpu n) }
    {
        for k in self.from..self.upto {
            let word = self.set.word(k) & other.word(k);
            if word != 0 {
                return Some((k * WORD_BITS) as u16 + word.trailing_zeros() as u16);
            }
        }
        None
    }
}
