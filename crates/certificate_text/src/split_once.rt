//! A text cut at its first separator.
ghost use Rattle.std.specs.Prelude.{◌≡◌, ◌<◌, [], ◌∷◌, length, MatchOption};
ghost use Rattle.certificate_text.specs.Parts.{parts};

use memchr::memchr;

/// What stands before the first separator, and what follows it.
pub fn split_once(text: &[u8], separator: u8) -> Option<(&[u8], &[u8])>
    ensures { MatchOption result (parts separator text.now ≡ text.now ∷ [])
        (λ p. (parts separator text.now ≡ p.0.now ∷ parts separator p.1.now) × (length p.1.now < length text.now)) }
{
    match memchr(separator, text) {
        Some(at) => Some((&text[..at], &text[at + 1..])),
        None => None,
    }
}
