//! Texts of two or three parts.
ghost use Rattle.std.specs.Prelude.{◌≡◌, List, ℕ, [], ◌∷◌, MatchOption};
ghost use Rattle.certificate_text.specs.Parts.{parts};

use crate::split_once::split_once;

/// The two parts of a text round its one separator.
pub fn split_pair(text: &[u8], separator: u8) -> Option<(&[u8], &[u8])>
    ensures { MatchOption result ((a b : List ℕ) → parts separator text.now ≡ a ∷ b ∷ [] → ⊥)
        (λ p. parts separator text.now ≡ p.0.now ∷ p.1.now ∷ []) }
{
    let (first, rest) = split_once(text, separator)?;
    match split_once(rest, separator) {
        Some(_) => None,
        None => Some((first, rest)),
    }
}

/// The three parts of a text round its two separators.
pub fn split_triple(text: &[u8], separator: u8) -> Option<(&[u8], &[u8], &[u8])>
    ensures { MatchOption result ((a b d : List ℕ) → parts separator text.now ≡ a ∷ b ∷ d ∷ [] → ⊥)
        (λ p. parts separator text.now ≡ p.0.now ∷ p.1.now ∷ p.2.now ∷ []) }
{
    let (first, rest) = split_once(text, separator)?;
    let (second, third) = split_pair(rest, separator)?;
    Some((first, second, third))
}
