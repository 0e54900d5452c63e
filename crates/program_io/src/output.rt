//! Lines of output, and numbers in them.
ghost use Rattle.std.specs.Prelude.{◌≡◌, ◌<◌, ◌++◌, [], ◌∷◌, codes, decimal, get_or};
ghost use Rattle.program_io.specs.ErrorLine.{error_at, error_line, hex_digit, is_behind_lead, is_control, is_lead};
ghost use Rattle.program_io.specs.ErrorLine.{called_name, shown_byte, shown_name};
ghost use Rattle.byte_output.specs.Output.{Writes};

use byte_output::{put, put_all, put_number};
use std::io;
use std::io::Write;

/// Writes a line of a label and a number.
///
/// # Errors
/// That of the first write that fails or takes no byte; a prefix of the line then went out.
pub fn put_number_line<W: Write>(label: &[u8], number: u64, w: &mut W) -> io::Result<()>
    ensures { Writes (W.contents w.old) (W.contents w.new) result (label.now ++ (decimal number ++ codes "\n")) }
{
    put_number(label, number, b"\n", w)
}

/// Writes the line of an error: the name of what it is of, with its control characters by their numbers, and what is
/// wrong.
///
/// # Errors
/// That of the first write that fails or takes no byte; a prefix of the line then went out.
pub fn put_error_line<W: Write>(of: &[u8], wrong: &[u8], w: &mut W) -> io::Result<()>
    ensures { Writes (W.contents w.old) (W.contents w.new) result (error_line of.now wrong.now) }
{
    put(b"error: ", w)?;
    put_name(of, w)?;
    put_reason(wrong, w)
}

fn put_reason<'a, W: Write>(wrong: &'a [u8], w: &mut W) -> io::Result<()>
    ensures { Writes (W.contents w.old) (W.contents w.new) result (codes ": " ++ (wrong.now ++ codes "\n")) }
{
    put_all(&[b": ".as_slice(), wrong, b"\n".as_slice()], w)
}

/// Writes the line of an error in a text, as [`put_error_line`] does, and at which line and column it is.
///
/// # Errors
/// That of the first write that fails or takes no byte; a prefix of the line then went out.
pub fn put_error_at<W: Write>(
    of: &[u8],
    wrong: &[u8],
    line: u64,
    column: u64,
    w: &mut W,
) -> io::Result<()>
    ensures { Writes (W.contents w.old) (W.contents w.new) result (error_at of.now wrong.now line column) }
{
    put(b"error: ", w)?;
    put_name(of, w)?;
    put(b": ", w)?;
    put(wrong, w)?;
    put_place(line, column, w)
}

fn put_place<W: Write>(line: u64, column: u64, w: &mut W) -> io::Result<()>
    ensures { Writes (W.contents w.old) (W.contents w.new) result
        (codes ", line " ++ (decimal line ++ (codes " column " ++ (decimal column ++ codes "\n")))) }
{
    put_number(b", line ", line, b" column ", w)?;
    put_number(b"", column, b"\n", w)
}

/// Writes a name, with each control character by its number; one that is empty between quotation marks.
fn put_name<W: Write>(name: &[u8], w: &mut W) -> io::Result<()>
    ensures { Writes (W.contents w.old) (W.contents w.new) result (called_name name.now) }
{
    match name {
        [] => put(b"\"\"", w),
        [_, ..] => put_bytes(name, w),
    }
}

/// Writes the bytes of a name, with each control character by its number.
fn put_bytes<W: Write>(name: &[u8], w: &mut W) -> io::Result<()>
    ensures { Writes (W.contents w.old) (W.contents w.new) result (shown_name name.now) }
{
    let mut before = 0;
    for at in 0..name.len() {
        let byte = name[at];
        put_byte(before, byte, byte_at(name, at + 1), w)?;
        before = byte;
    }
    Ok(())
}

/// The byte at this place, or 0 behind the end.
fn byte_at(name: &[u8], at: usize) -> u8
    ensures { result ≡ get_or name.now at 0 }
{
    match name.get(at) {
        Some(byte) => *byte,
        None => 0,
    }
}

/// Writes a byte of a name, between two others.
fn put_byte<W: Write>(before: u8, byte: u8, next: u8, w: &mut W) -> io::Result<()>
    ensures { Writes (W.contents w.old) (W.contents w.new) result (shown_byte before byte next) }
{
    if is_lead(byte) && is_behind_lead(next) {
        return Ok(());
    }
    if is_control(byte) || is_lead(before) && is_behind_lead(byte) {
        put(
            &[b'\\', b'x', hex_digit(byte / 16), hex_digit(byte % 16)],
            w,
        )
    } else {
        put(&[byte], w)
    }
}

/// Whether this is a control character of ASCII.
fn is_control(byte: u8) -> bool
    ensures { result ≡ is_control byte }
{
    byte < 32 || byte == 127
}

/// Whether this is the first byte of the other control characters.
fn is_lead(byte: u8) -> bool
    ensures { result ≡ is_lead byte }
{
    byte == 0xc2
}

/// Whether this is the second byte of one.
fn is_behind_lead(byte: u8) -> bool
    ensures { result ≡ is_behind_lead byte }
{
    128 <= byte && byte <= 159
}

fn hex_digit(digit: u8) -> u8
    requires { digit < 16 }
    ensures { result ∷ [] ≡ hex_digit digit }
{
    b"0123456789abcdef"[digit as usize]
}
