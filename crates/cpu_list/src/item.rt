//! One item of a list: a number, or a range of two with a hyphen between.
ghost use Rattle.std.specs.Prelude.{◌≡◌, ◌≤◌, ◌<◌, true, min, length, option_map, position, slice_index_or, IsTrue};
ghost use Rattle.std.specs.Prelude.{IsFalse, IfSome};
ghost use Rattle.cpu_list.specs.ListText.{is_blank, is_comma, is_hyphen, leading_blanks, trim_end, item_of, number_of};
ghost use Rattle.cpu_list.specs.ListText.{range_of};
ghost use Rattle.cpu_list.specs.Plain.{IsFront, IsPlain};
ghost use Rattle.std.specs.List.{before_first};

/// A space, a tab or a line feed.
fn is_blank(byte: u8) -> bool
    ensures { result ≡ is_blank byte }
{
    byte == b' ' || byte == b'\t' || byte == b'\n'
}

/// The text up to its first comma.
pub(crate) fn first_piece(text: &[u8]) -> &[u8]
    ensures { result.now ≡ before_first is_comma text.now }
{
    for (i, byte) in text.iter().enumerate() {
        if *byte == b',' {
            return &text[..i];
        }
    }
    text
}

/// How many blanks precede the first byte of the piece's item.
pub(crate) fn leading_blanks(piece: &[u8]) -> usize
    ensures value { result ≡ leading_blanks piece.now }
    ensures within { result ≤ length piece.now }
{
    for (i, byte) in piece.iter().enumerate() {
        if !is_blank(*byte) {
            return i;
        }
    }
    piece.len()
}

fn trim_end(piece: &[u8]) -> &[u8]
    ensures { result.now ≡ trim_end piece.now }
{
    let mut end = piece.len();
    while end > 0 && is_blank(piece[end - 1]) {
        end -= 1;
    }
    &piece[..end]
}

/// The piece without the blanks round it.
#[tactic(auto, unfolding(crate::specs::ListText::item_of))]
pub(crate) fn item_of(piece: &[u8]) -> &[u8]
    ensures { result.now ≡ item_of piece.now }
{
    trim_end(&piece[leading_blanks(piece)..])
}

/// The number that the digits write, or the limit where it isn't below that.
#[tactic(auto, unfolding(crate::specs::ListText::number_of))]
fn read_number(digits: &[u8], limit: u16) -> Option<u16>
    ensures { result ≡ option_map (min limit) (number_of digits.now) }
{
    if digits.is_empty() {
        return None;
    }
    let mut number = 0;
    for digit in digits {
        if !digit.is_ascii_digit() {
            return None;
        }
        number = u32::from(limit).min(number * 10 + u32::from(*digit - b'0'));
    }
    Some(number as u16)
}

// The number that the digits at the front write, or the limit where it isn't below that, and how many digits there are.
fn front_number(text: &[u8], limit: u16) -> (u16, usize)
    ensures { IsFront text.now limit result.0 result.1 }
{
    let mut number = 0;
    let mut count = 0;
    while count < text.len() && text[count].is_ascii_digit() {
        number = u32::from(limit).min(number * 10 + u32::from(text[count] - b'0'));
        count += 1;
    }
    (number as u16, count)
}

/// The first and the last number of a list's first item, and its length, where it has no blank and is right under the
/// limit. It is read in one go; of most lists this is each item.
// Inlined: a call for each item would cost as much as the item.
#[inline(always)]
pub(crate) fn read_plain(text: &[u8], limit: u16) -> Option<(u16, u16, usize)>
    ensures plain { IfSome result (λ r. IsPlain text.now r.0 r.1 r.2) }
    ensures right { IfSome result (λ r. (r.0 ≤ r.1) × (r.1 < limit)) }
{
    let (first, count) = front_number(text, limit);
    if count == 0 || first >= limit {
        return None;
    }
    if ends_at(text, count) {
        return Some((first, first, count));
    }
    if text[count] != b'-' {
        return None;
    }
    let after = &text[count + 1..];
    let (last, more) = front_number(after, limit);
    if more == 0 || last >= limit {
        return None;
    }
    if last < first || !ends_at(after, more) {
        return None;
    }
    Some((first, last, count + 1 + more))
}

// Whether a list's item ends at this place.
fn ends_at(text: &[u8], at: usize) -> bool
    requires { at ≤ length text.now }
    ensures comma { IsTrue result → at < length text.now → is_comma (slice_index_or text.now at 0) ≡ true }
    ensures whole { IsFalse result → at < length text.now }
{
    at == text.len() || text[at] == b','
}

fn hyphen_in(item: &[u8]) -> Option<usize>
    ensures { result ≡ position is_hyphen item.now }
{
    item.iter().position(|byte| *byte == b'-')
}

/// The first and the last number of an item, each the limit where it isn't below that.
#[tactic(auto, unfolding(crate::specs::ListText::range_of))]
pub(crate) fn read_range(item: &[u8], limit: u16) -> Option<(u16, u16)>
    ensures { result ≡ option_map (λ r. (min limit r.0, min limit r.1)) (range_of item.now) }
{
    match hyphen_in(item) {
        None => {
            let number = read_number(item, limit)?;
            Some((number, number))
        }
        Some(hyphen) => {
            let first = read_number(&item[..hyphen], limit)?;
            let last = read_number(&item[hyphen + 1..], limit)?;
            Some((first, last))
        }
    }
}
