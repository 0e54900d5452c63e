//! The ranges of a plain list, with no set between.
ghost use Rattle.std.specs.Prelude.{◌≡◌, ◌≤◌, ◌<◌, true, IfOk, IfSome};
ghost use Rattle.cpu_list.specs.Plain.{IsPlain};
ghost use Rattle.cpu_list.specs.RisingList.{IsRisingList};

use crate::item::read_plain;
use cpu_set::CPU_LIMIT;
use std::alloc::AllocError;

// The first item of a list and its length, where it is plain and begins at `least` or above.
fn read_above(text: &[u8], limit: u16, least: u16) -> Option<(u16, u16, usize)>
    ensures plain { IfSome result (λ r. IsPlain text.now r.0 r.1 r.2) }
    ensures right { IfSome result (λ r. (least ≤ r.0) × (r.0 ≤ r.1) × (r.1 < limit)) }
{
    let item = read_plain(text, limit)?;
    if item.0 < least { None } else { Some(item) }
}

/// Reads a list whose items are numbers or ranges without blanks, each of which begins above the number that follows
/// the one before it: the ranges of its set, in place of what `ranges` had. Of any other text it answers no, a faulty
/// one too, and [`read`](crate::read) decides. O(n) of n bytes.
///
/// # Errors
/// An allocation failure.
pub fn read_rising(
    text: &[u8],
    limit: u16,
    ranges: &mut Vec<(u16, u16)>,
) -> Result<bool, AllocError>
    requires { limit ≤ CPU_LIMIT }
    // If it says yes, the text is a list without a fault, and these are the ranges of the set that it names, rising and
    // as long as possible (`IsRisingList`). Which lists it says no to, no clause says: of those `read` decides.
    ensures { IfOk result (λ is. is ≡ true → IsRisingList limit text.now ranges.new.items) }
{
    ranges.clear();
    let mut at = 0;
    let mut least = 0;
    while at <= text.len() {
        let Some((first, last, long)) = read_above(&text[at..], limit, least) else {
            return Ok(false);
        };
        ranges.push((first, last))?;
        at += long + 1;
        least = last + 2;
    }
    Ok(true)
}
