//! Weights that count moves besides the distance.
ghost use Rattle.std.specs.Prelude.{◌≡◌};
ghost use Rattle.std.specs.List.{list_all};
ghost use Rattle.certificate.specs.Scaled.{is_scaled, are_scaled};

use crate::{Cost, Offers, Row};

/// Whether each weight is a [`Cost`] of one move at most.
///
/// O(w) of w offers in all. Allocates nothing.
pub fn are_scaled(rows: &[Row]) -> bool
    ensures { result ≡ are_scaled rows.now }
{
    rows.iter().all(|row| offers_are_scaled(&row.offers))
}

fn offers_are_scaled(offers: &Offers) -> bool
    ensures { result ≡ list_all is_scaled offers.now }
{
    for at in 0..offers.len() {
        if Cost::unpack(u64::from(offers.weight(at))).moves > 1 {
            return false;
        }
    }
    true
}
