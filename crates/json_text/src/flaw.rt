ghost use Rattle.std.specs.Prelude.{◌≡◌, ◌+◌, ◌<◌, ◌==◌, ◌&&◌, true, false, not, IfOk};
ghost use Rattle.std.specs.Str.{is_utf8};
ghost use Rattle.json_text.specs.Flaws.{
  IsFlawIn,
  denies_utf8,
  ends_string,
  from_place,
  has_no_end,
  place_behind,
};
ghost use Rattle.json_text.specs.declared.flaw.FlawKind.TheVariants.{CutShort};

use serde_json::Value;
use std::alloc::{AllocError, Global};
use std::str;

/// What keeps a text from being JSON, and where: for whoever wrote it.
#[derive(Clone, Copy, Debug, PartialEq, Eq, Drop)]
pub struct Flaw {
    pub kind: FlawKind,
    /// The line at which the reading stopped, from 1.
    pub line: usize,
    /// The byte of that line, from 1; at the end of the text how many bytes its last line has.
    pub column: usize,
}

/// How a text fails to be JSON.
#[derive(Clone, Copy, Debug, PartialEq, Eq, Drop)]
pub enum FlawKind {
    /// It is not UTF-8 from there on.
    NotUtf8,
    /// It ends before its value does.
    CutShort,
    /// What stands there, or right before it, can't stand there; or it nests too deep, or has a number too large for a
    /// float.
    NotJson,
}

/// What keeps the bytes from being JSON, or none where they are JSON. It reads them as [`parse`](crate::parse) does,
/// once more, so that a refusal needs to carry no place.
///
/// # Errors
/// An allocation failure.
#[tactic(auto, using(crate::proofs::TextTests::utf8_tests), unfolding(crate::specs::JsonOf::json_of))]
pub fn flaw_in(alloc: Global, bytes: &[u8]) -> Result<Option<Flaw>, AllocError>
    // It says whether the bytes are JSON, and of others whether they are UTF-8. It never says of a string that ends
    // that the text is cut short there. No clause tells more of the line and column, because `serde_json` promises
    // neither. Tests compare the places with those that Python's JSON finds.
    ensures { IfOk result (IsFlawIn bytes.now) }
{
    match Value::from_slice(alloc, bytes) {
        Ok(_) => Ok(None),
        Err(error) if error.is_memory() => Err(AllocError),
        Err(error) => {
            let (line, column) = (error.line(), error.column());
            let breaks_off = error.is_eof() && has_no_end(from_place(bytes, (line, column)));
            let kind = kind_of(bytes, breaks_off);
            Ok(Some(Flaw { kind, line, column }))
        }
    }
}

/// How bytes that aren't JSON fail to be, of which it is known whether they break off.
#[tactic(auto, using(crate::proofs::TextTests::utf8_tests))]
fn kind_of(bytes: &[u8], breaks_off: bool) -> FlawKind
    ensures utf8 { denies_utf8 result ≡ not (is_utf8 bytes.now) }
    ensures cut { result ≡ CutShort → breaks_off ≡ true }
{
    if str::from_utf8(bytes).is_err() {
        FlawKind::NotUtf8
    } else if breaks_off {
        FlawKind::CutShort
    } else {
        FlawKind::NotJson
    }
}

/// What stands from this line and column on; nothing if no byte stands there.
fn from_place(bytes: &[u8], place: (usize, usize)) -> &[u8]
    ensures { result.now ≡ from_place place (1, 0) bytes.now }
{
    let mut behind = (1, 0);
    for at in 0..bytes.len() {
        behind = place_behind(behind, bytes[at]);
        if behind.0 == place.0 && behind.1 == place.1 {
            return &bytes[at..];
        }
    }
    &[]
}

/// Whether no string that ends stands first: `"\\u"` is a string that ends, though it is none of JSON.
fn has_no_end(text: &[u8]) -> bool
    ensures { result ≡ has_no_end text.now }
{
    let Some((first, rest)) = text.split_first() else {
        return true;
    };
    !(*first == b'"' && ends_string(rest))
}

/// Whether a string ends that these bytes go on.
fn ends_string(text: &[u8]) -> bool
    ensures { result ≡ ends_string false text.now }
{
    let mut escaped = false;
    for byte in text {
        if !escaped && *byte == b'"' {
            return true;
        }
        escaped = is_escape(escaped, *byte);
    }
    false
}

/// Whether a byte takes its meaning from the next one; if it is itself escaped, it doesn't.
fn is_escape(escaped: bool, byte: u8) -> bool
    ensures { result ≡ (not escaped && byte == 92) }
{
    !escaped && byte == b'\\'
}

/// The line and column behind one byte more.
fn place_behind(place: (usize, usize), byte: u8) -> (usize, usize)
    requires fits { place.0 + place.1 < 18446744073709551615 }
    ensures { result ≡ place_behind place byte }
{
    if byte == b'\n' {
        (place.0 + 1, 0)
    } else {
        (place.0, place.1 + 1)
    }
}
