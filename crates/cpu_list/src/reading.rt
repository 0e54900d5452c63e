//! A set of numbers from a text.
ghost use Rattle.std.specs.Prelude.{◌≡◌, ℕ, ◌<◌, ◌≤◌, ◌||◌, Some, None, OnOk, IfOk, IfErr, MatchResult, length};
ghost use Rattle.std.specs.FinSet as finset;
ghost use Rattle.std.specs.List.{before_first};
ghost use Rattle.cpu_list.specs.ListText.{is_comma, item_of, piece_names, IsList, IsSetOf};
ghost use Rattle.cpu_list.specs.FirstFault.{item_fault, first_fault, IsFirstFault};

use crate::fault::{ListError, ListErrorKind};
use crate::item::{first_piece, item_of, leading_blanks, read_plain, read_range};
use cpu_set::{CPU_LIMIT, IdSet};

/// Adds what one piece of a list names.
fn add_piece(set: &mut IdSet, piece: &[u8], limit: u16) -> Result<(), ListErrorKind>
    requires { limit ≤ CPU_LIMIT }
    ensures right { OnOk result (item_fault limit (item_of piece.now) ≡ None) }
    ensures added { OnOk result
        ((n : ℕ) → finset.contains set.new n ≡ (finset.contains set.old n || piece_names n piece.now)) }
    ensures faulty { IfErr result (λ kind. item_fault limit (item_of piece.now) ≡ Some kind) }
{
    let item = item_of(piece);
    if item.is_empty() {
        return Ok(());
    }
    let Some((first, last)) = read_range(item, limit) else {
        return Err(ListErrorKind::BadItem);
    };
    if first == limit || last == limit {
        return Err(ListErrorKind::TooLarge);
    }
    if last < first {
        return Err(ListErrorKind::Descending);
    }
    set.insert_range(first, last);
    Ok(())
}

/// Adds what the first item of a list names, and returns its length with the blanks around it.
fn add_first(set: &mut IdSet, text: &[u8], limit: u16) -> Result<usize, ListErrorKind>
    requires { limit ≤ CPU_LIMIT }
    ensures long { IfOk result (λ long. long ≡ length (before_first is_comma text.now)) }
    ensures right { IfOk result (λ _. item_fault limit (item_of (before_first is_comma text.now)) ≡ None) }
    ensures added { OnOk result ((n : ℕ) → finset.contains set.new n
        ≡ (finset.contains set.old n || piece_names n (before_first is_comma text.now))) }
    ensures faulty { IfErr result (λ kind. item_fault limit (item_of (before_first is_comma text.now)) ≡ Some kind) }
{
    if let Some((low, high, long)) = read_plain(text, limit) {
        set.insert_range(low, high);
        return Ok(long);
    }
    let piece = first_piece(text);
    add_piece(set, piece, limit)?;
    Ok(piece.len())
}

/// Reads a list of numbers below the limit, as `0-2,7`: cpuset(7), List Format.
///
/// Blanks (space, tab, line feed) may surround an item, items may be empty, repeat, overlap and
/// come in any order, and numbers may have leading zeros.
///
/// # Errors
/// The place and the cause of the first faulty item.
pub fn read(text: &[u8], limit: u16) -> Result<IdSet, ListError>
    requires { limit ≤ CPU_LIMIT }
    // The set of the text, exactly if the text is a list. Else the place and kind of the first faulty item. This holds
    // for any bytes, and for numbers of any length.
    ensures { MatchResult result
        (λ s. (first_fault limit text.now ≡ None) × IsSetOf text.now s × IsList limit text.now)
        (λ e. (first_fault limit text.now ≡ Some e) × IsFirstFault limit text.now e) }
{
    let mut set = IdSet::empty();
    let mut at = 0;
    while at <= text.len() {
        match add_first(&mut set, &text[at..], limit) {
            Ok(long) => at += long + 1,
            Err(kind) => {
                let at = at + leading_blanks(first_piece(&text[at..]));
                return Err(ListError { at, kind });
            }
        }
    }
    Ok(set)
}
