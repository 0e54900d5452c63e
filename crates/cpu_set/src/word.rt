//! A word of 64 bits, seen by its bits.
ghost use Rattle.std.specs.Prelude.{◌≡◌, ℕ, ◌+◌, ◌<◌, ◌≤◌, ◌&&◌, ◌==◌, nat_le, MatchOption};
ghost use Rattle.std.specs.Int.{bit_at};
ghost use Rattle.cpu_set.specs.Word.{IsFirstBit, NoBitFrom};

/// The lowest set bit at or above a place.
pub fn first_bit(word: u64, from: u32) -> Option<u32>
    requires { from < 64 }
    ensures { MatchOption result (NoBitFrom word from) (IsFirstBit word from) }
{
    let rest = word >> from;
    if rest == 0 {
        None
    } else {
        Some(from + rest.trailing_zeros())
    }
}

/// Which of the 64 numbers from `start` on are in the range from `first` up to `last`, as bits.
pub fn bits_of_range(start: u16, first: u16, last: u16) -> u64
    requires { (start ≤ last) × (first < start + 64) }
    ensures { (i : ℕ) → i < 64 → (bit_at result i == 1) ≡ (nat_le first (start + i) && nat_le (start + i) last) }
{
    bits_between(first.saturating_sub(start), (last - start).min(63))
}

/// The word with the bits from the first up to the last.
pub fn bits_between(first: u16, last: u16) -> u64
    requires { (first < 64) × (last < 64) }
    ensures { (i : ℕ) → i < 64 → (bit_at result i == 1) ≡ (nat_le first i && nat_le i last) }
{
    (u64::MAX << first) & (u64::MAX >> (63 - last))
}
