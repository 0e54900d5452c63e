//! Numbers as words of decimal digits, of which each number has one.
ghost use Rattle.std.specs.Prelude.{◌≡◌, ℕ, ◌+◌, ◌*◌, ◌<◌, ◌^◌, SomeIff, MatchOption, true};
ghost use Rattle.std.specs.Char.{is_ascii_digit, digit_value};
ghost use Rattle.certificate_text.specs.NumberWord.{IsNumber};

/// The number that the word writes in decimal digits without leading zeros, if it fits 64 bits.
pub fn read_u64(word: &[u8]) -> Option<u64>
    ensures { MatchOption result ((n : ℕ) → IsNumber (2 ^ 64) word.now n → ⊥)
        (λ n. IsNumber (2 ^ 64) word.now n) }
{
    if word.is_empty() {
        return None;
    }
    if word[0] == b'0' && word.len() > 1 {
        return None;
    }
    let mut number = 0;
    for digit in word {
        number = with_digit(number, *digit)?;
    }
    Some(number)
}

/// The number with one more digit behind it.
fn with_digit(number: u64, digit: u8) -> Option<u64>
    ensures { SomeIff result
        ((is_ascii_digit digit ≡ true) × (number * 10 + digit_value digit < 2 ^ 64))
        (number * 10 + digit_value digit) }
{
    if !digit.is_ascii_digit() {
        return None;
    }
    number.checked_mul(10)?.checked_add(u64::from(digit - b'0'))
}

/// The number that the word writes in decimal digits without leading zeros, if it is below the limit.
pub fn read_below(word: &[u8], limit: u64) -> Option<u64>
    ensures { MatchOption result ((n : ℕ) → IsNumber limit word.now n → ⊥)
        (λ n. IsNumber limit word.now n) }
{
    let number = read_u64(word)?;
    if number < limit { Some(number) } else { None }
}

/// The number that the word writes in decimal digits without leading zeros, if it fits 32 bits.
pub fn read_u32(word: &[u8]) -> Option<u32>
    ensures { MatchOption result ((n : ℕ) → IsNumber (2 ^ 32) word.now n → ⊥)
        (λ n. IsNumber (2 ^ 32) word.now n) }
{
    match read_u64(word) {
        Some(number) => u32::try_from(number).ok(),
        None => None,
    }
}
