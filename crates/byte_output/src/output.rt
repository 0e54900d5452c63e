//! Writes of which it is known what went out before an error.
ghost use Rattle.std.specs.Prelude.{◌++◌, decimal};
ghost use Rattle.byte_output.specs.Arguments.{number_text, word_text};
ghost use Rattle.byte_output.specs.Output.{Writes};
ghost use Rattle.byte_output.specs.Parts.{bytes_of};

use itoa::Buffer;
use std::io;
use std::io::{ErrorKind, Write};

/// Writes all of the bytes. Unlike `write_all` it tells what went out before an error: a prefix of
/// them, and not all.
///
/// # Errors
/// The error of the first write that fails, or `WriteZero` where a write takes no byte.
// Inlined: of a byte or two that a writer has room for nothing but their copy is left.
#[inline(always)]
pub fn put<W: Write>(bytes: &[u8], w: &mut W) -> io::Result<()>
    ensures { Writes (W.contents w.old) (W.contents w.new) result bytes.now }
{
    let mut rest = bytes;
    while !rest.is_empty() {
        let taken = w.write(rest)?;
        if taken == 0 {
            return Err(io::Error::from(ErrorKind::WriteZero));
        }
        rest = &rest[taken..];
    }
    Ok(())
}

/// Writes the parts, one after another.
///
/// # Errors
/// As [`put`]: where it fails, a prefix of what the parts make together went out.
pub fn put_all<W: Write>(parts: &[&[u8]], w: &mut W) -> io::Result<()>
    ensures { Writes (W.contents w.old) (W.contents w.new) result (bytes_of parts.now) }
{
    for part in parts {
        put(part, w)?;
    }
    Ok(())
}

/// Writes a number in decimal between two texts, as `pid 41\n`.
///
/// # Errors
/// As [`put`]: where it fails, a prefix of what the three make together went out.
#[inline(always)]
pub fn put_number<W: Write>(before: &[u8], number: u64, after: &[u8], w: &mut W) -> io::Result<()>
    ensures { Writes (W.contents w.old) (W.contents w.new) result (before.now ++ (decimal number ++ after.now)) }
{
    let mut digits = Buffer::new();
    put(before, w)?;
    put(digits.format(number).as_bytes(), w)?;
    put(after, w)
}

/// Writes a word behind a space.
///
/// # Errors
/// As [`put`]: where it fails, a prefix of the two together went out.
pub fn put_word<W: Write>(word: &str, w: &mut W) -> io::Result<()>
    ensures { Writes (W.contents w.old) (W.contents w.new) result (word_text word.now) }
{
    put_all(&[b" ".as_slice(), word.as_bytes()], w)
}

/// Writes a number in decimal behind a space.
///
/// # Errors
/// As [`put`]: where it fails, a prefix of the two together went out.
pub fn put_argument<W: Write>(number: u64, w: &mut W) -> io::Result<()>
    ensures { Writes (W.contents w.old) (W.contents w.new) result (number_text number) }
{
    put_number(b" ", number, b"", w)
}
