//! A set as text, to a writer.
ghost use Rattle.std.specs.Prelude.{◌++◌};
ghost use Rattle.cpu_list.specs.CanonicalList.{range_text, ranges_text, list_text};
ghost use Rattle.cpu_list.specs.TextAfter.{separator_of};
ghost use Rattle.byte_output.specs.Gathering.{Gathers};
ghost use Rattle.byte_output.specs.Output.{Writes};

use byte_output::Buffer;
use cpu_set::{IdSet, Ranges};
use std::io;
use std::io::Write;

// A range, behind a comma if others come before it.
#[inline(always)]
fn add_item<W: Write>(
    is_behind: bool,
    first: u16,
    last: u16,
    buffer: &mut Buffer,
    w: &mut W,
) -> io::Result<()>
    ensures { Gathers (W.contents w.old) (W.contents w.new) buffer.old buffer.new result
        (separator_of is_behind ++ range_text (first, last)) }
{
    if is_behind {
        buffer.add(b",", w)?;
    }
    add_range(first, last, buffer, w)
}

#[inline(always)]
fn add_range<W: Write>(first: u16, last: u16, buffer: &mut Buffer, w: &mut W) -> io::Result<()>
    ensures { Gathers (W.contents w.old) (W.contents w.new) buffer.old buffer.new result (range_text (first, last)) }
{
    buffer.add_number(u64::from(first), w)?;
    if first == last {
        return Ok(());
    }
    buffer.add(b"-", w)?;
    buffer.add_number(u64::from(last), w)
}

/// Puts ranges as a list behind what waits in the buffer, as `0-2,7`. The ranges of a set, rising and as long as
/// possible, make the set's one spelling, and no set is made for it.
///
/// # Errors
/// As [`Buffer::add`]: where it fails, a prefix of what waited and the text make together went out.
pub fn add_ranges<W: Write>(ranges: &[(u16, u16)], buffer: &mut Buffer, w: &mut W) -> io::Result<()>
    ensures { Gathers (W.contents w.old) (W.contents w.new) buffer.old buffer.new result (ranges_text ranges.now) }
{
    let mut is_behind = false;
    for range in ranges {
        add_item(is_behind, range.0, range.1, buffer, w)?;
        is_behind = true;
    }
    Ok(())
}

/// Puts the set's one spelling behind what waits in the buffer: rising ranges as long as possible, as `0-2,7`. The
/// empty set is the empty text.
///
/// # Errors
/// As [`add_ranges`].
pub fn add_list<W: Write>(set: &IdSet, buffer: &mut Buffer, w: &mut W) -> io::Result<()>
    ensures { Gathers (W.contents w.old) (W.contents w.new) buffer.old buffer.new result (list_text set.now) }
{
    let mut is_behind = false;
    for (first, last) in Ranges::of(set) {
        add_item(is_behind, first, last, buffer, w)?;
        is_behind = true;
    }
    Ok(())
}

/// Writes the set's one spelling: rising ranges as long as possible, as `0-2,7`. The empty set is
/// the empty text.
///
/// # Errors
/// As [`Buffer::send`]: where it fails, a prefix of the text went out.
pub fn write_list<W: Write>(set: &IdSet, w: &mut W) -> io::Result<()>
    // After a fault a prefix of the bytes went out, and not all.
    ensures { Writes (W.contents w.old) (W.contents w.new) result (list_text set.now) }
{
    let mut buffer = Buffer::new();
    add_list(set, &mut buffer, w)?;
    buffer.send(w)
}
