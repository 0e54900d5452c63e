//! Bytes that are gathered, and written together.
ghost use Rattle.std.specs.Prelude.{◌≡◌, ◌≤◌, ℕ, List, [], ◌++◌, IsTrue, IsFalse, decimal, take};
ghost use Rattle.byte_output.specs.Gathering.{Gathers};
ghost use Rattle.byte_output.specs.Output.{Writes};
ghost use Rattle.byte_output.specs.Parts.{bytes_of};
ghost use Rattle.byte_output.specs.declared.buffer.TheConstants.{ROOM};

use crate::output::put;
use std::io;
use std::io::Write;
use std::marker::Model;

/// How many bytes wait at most.
const ROOM: usize = 256;

/// Bytes that wait to be written together, so that a text of many short parts takes few writes. It allocates nothing.
/// What waits is lost unless it is sent.
#[derive(Drop)]
pub struct Buffer {
    bytes: [u8; ROOM],
    len: usize,
}

impl Model for Buffer {
    ghost Value = { List ℕ };

    ghost view = { λ b. take b.len b.bytes };

    ghost invariant = { λ b. b.len ≤ ROOM };
}

impl Buffer {
    /// Nothing waits.
    pub fn new() -> Buffer
        ensures { result ≡ [] }
    {
        Buffer {
            bytes: [0; ROOM],
            len: 0,
        }
    }

    /// Puts bytes behind those that wait, which are sent first where there is no room for all.
    ///
    /// # Errors
    /// As [`put`]: where it fails, a prefix of what waited and these bytes make together went out.
    // Inlined: where there is room nothing but the copy of the bytes is left.
    #[inline(always)]
    pub fn add<W: Write>(&mut self, bytes: &[u8], w: &mut W) -> io::Result<()>
        ensures { Gathers (W.contents w.old) (W.contents w.new) self.old self.new result bytes.now }
    {
        if self.take(bytes) {
            return Ok(());
        }
        self.add_behind(bytes, w)
    }

    /// Puts a number in decimal behind what waits, as [`Buffer::add`] does.
    ///
    /// # Errors
    /// As there.
    #[inline(always)]
    pub fn add_number<W: Write>(&mut self, number: u64, w: &mut W) -> io::Result<()>
        ensures { Gathers (W.contents w.old) (W.contents w.new) self.old self.new result (decimal number) }
    {
        let mut digits = itoa::Buffer::new();
        self.add(digits.format(number).as_bytes(), w)
    }

    /// Puts a number in decimal between two texts behind what waits, as [`Buffer::add`] does.
    ///
    /// # Errors
    /// As there.
    #[inline(always)]
    pub fn add_number_between<W: Write>(
        &mut self,
        before: &[u8],
        number: u64,
        after: &[u8],
        w: &mut W,
    ) -> io::Result<()>
        ensures { Gathers (W.contents w.old) (W.contents w.new) self.old self.new result
            (before.now ++ (decimal number ++ after.now)) }
    {
        self.add(before, w)?;
        self.add_number(number, w)?;
        self.add(after, w)
    }

    /// Puts the parts, one after another, behind what waits, as [`Buffer::add`] does.
    ///
    /// # Errors
    /// As there.
    pub fn add_all<W: Write>(&mut self, parts: &[&[u8]], w: &mut W) -> io::Result<()>
        ensures { Gathers (W.contents w.old) (W.contents w.new) self.old self.new result (bytes_of parts.now) }
    {
        for part in parts {
            self.add(part, w)?;
        }
        Ok(())
    }

    /// Writes what waits.
    ///
    /// # Errors
    /// As [`put`]: where it fails, a prefix of what waited went out, and the rest is lost.
    pub fn send<W: Write>(&mut self, w: &mut W) -> io::Result<()>
        ensures written { Writes (W.contents w.old) (W.contents w.new) result self.old }
        ensures empty { self.new ≡ [] }
    {
        let len = self.len;
        self.len = 0;
        put(&self.bytes[..len], w)
    }

    // Puts the bytes behind those that wait, if there is room for them; whether there was.
    #[inline(always)]
    fn take(&mut self, bytes: &[u8]) -> bool
        ensures taken { IsTrue result → self.new ≡ self.old ++ bytes.now }
        ensures same { IsFalse result → self.new ≡ self.old }
    {
        if bytes.len() > ROOM - self.len {
            return false;
        }
        let end = self.len + bytes.len();
        self.bytes[self.len..end].copy_from_slice(bytes);
        self.len = end;
        true
    }

    // The same where there is no room. Bytes that are too many to wait go out at once.
    #[inline(never)]
    fn add_behind<W: Write>(&mut self, bytes: &[u8], w: &mut W) -> io::Result<()>
        ensures { Gathers (W.contents w.old) (W.contents w.new) self.old self.new result bytes.now }
    {
        self.send(w)?;
        if self.take(bytes) {
            return Ok(());
        }
        put(bytes, w)
    }
}
