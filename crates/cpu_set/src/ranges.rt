//! The ranges of a set, one after another.
ghost use Rattle.std.specs.Prelude.{◌≡◌};
ghost use Rattle.cpu_set.specs.Members.{members};
ghost use Rattle.cpu_set.specs.Ranges.{ranges_of};

use crate::CPU_LIMIT;
use crate::id_set::IdSet;
use std::marker::Model;

/// The ranges of a set that are left, rising and as long as possible.
#[derive(Drop)]
pub struct Ranges {
    set: IdSet,
    absent: IdSet,
    next: Option<u16>,
}

impl Model for Ranges {
    ghost use Rattle.std.specs.Prelude.{ℕ, List};
    ghost use Rattle.cpu_set.specs.RangesFrom.{ranges_left, AreLeft};

    ghost Value = { List (ℕ × ℕ) };

    ghost view = { λ a. ranges_left a.set a.next };

    ghost invariant = { λ a. AreLeft a.set a.absent a.next };
}

impl Ranges {
    /// All ranges of the set.
    pub fn of(set: &IdSet) -> Ranges
        // They rise, and each is as long as possible.
        ensures { result ≡ ranges_of (members set.now) }
    {
        Ranges {
            set: *set,
            absent: set.complement(),
            next: set.first(),
        }
    }
}

impl Iterator for Ranges {
    ghost use Rattle.std.specs.Iterator.{YieldsFirst, item_count};

    type Item = (u16, u16);

    ghost next_gives = { YieldsFirst (λ ranges. ranges) };

    ghost remaining = { item_count (λ ranges. ranges) };

    fn next(&mut self) -> Option<(u16, u16)> {
        let first = self.next?;
        let last = self.absent.next_after(first).unwrap_or(CPU_LIMIT) - 1;
        self.next = self.set.next_after(last);
        Some((first, last))
    }
}
