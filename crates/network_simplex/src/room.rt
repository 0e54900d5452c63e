//! The check that CPUs of classes can be dealt as a draft has it.
ghost use Rattle.std.specs.Prelude.{IsTrue};
ghost use Rattle.network_simplex.specs.HasRoom.{HasRoom, Fit};

use cpu_set::IdSet;
use twins::{Holders, Share};

/// Whether the shares are of rows that there are, and of no class more than it has.
pub(crate) fn has_room(rows: usize, classes: &[IdSet], holdings: &[Holders]) -> bool
    ensures { IsTrue result → HasRoom rows classes.now holdings.now }
{
    if holdings.len() != classes.len() {
        return false;
    }
    for g in 0..classes.len() {
        let holders = &holdings[g];
        if !fit(rows, classes[g].count(), holders.shares.as_slice()) {
            return false;
        }
    }
    true
}

/// Whether shares of one class are of these rows, and no more than it has.
fn fit(rows: usize, size: u32, shares: &[Share]) -> bool
    ensures { IsTrue result → Fit rows size shares.now }
{
    let mut left = size;
    for k in 0..shares.len() {
        let share = shares[k];
        if share.row >= rows || share.amount > left {
            return false;
        }
        left -= share.amount;
    }
    true
}
