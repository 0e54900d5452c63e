//! Numbers in a command.
ghost use Rattle.std.specs.Prelude.{◌≡◌};
ghost use Rattle.script.specs.Requests.{number_of};

/// The number that the word writes in decimal digits, if it fits 32 bits.
pub fn read_number(word: &[u8]) -> Option<u32>
    ensures { result ≡ number_of word.now }
{
    if word.is_empty() {
        return None;
    }
    let mut number = 0;
    for digit in word {
        if !digit.is_ascii_digit() {
            return None;
        }
        number = LIMIT.min(number * 10 + u64::from(*digit - b'0'));
    }
    u32::try_from(number).ok()
}

/// The first number that doesn't fit 32 bits.
const LIMIT: u64 = 4_294_967_296;
