//! Output that is held back until a page is full.
ghost use Rattle.std.specs.Prelude.{◌≡◌, ◌-◌, [], OnOk, length, min, take};
ghost use Rattle.std.specs.Io.KnownBytes.{Appends, Keeps};
ghost use Rattle.program_io.specs.Pages.{TakesIfRoom, contents_of};

use arrayvec::ArrayVec;
use byte_output::put;
use std::io;
use std::io::{ErrorKind, Write};

/// How many bytes a page holds.
pub(crate) const ROOM: usize = 8192;

/// A writer that keeps what it is given, up to 8,192 bytes, until it is flushed, so that a short answer goes out in
/// one write. It allocates nothing. What waits when it is dropped is lost.
#[derive(Drop)]
pub struct Page<W> {
    pub to: W,
    pub waiting: ArrayVec<u8, ROOM>,
}

impl<W> Page<W> {
    /// An empty page before the writer.
    pub fn new(to: W) -> Page<W>
        ensures to { result.to ≡ to }
        ensures empty { result.waiting.items ≡ [] }
    {
        Page {
            to,
            waiting: ArrayVec::new(),
        }
    }
}

impl<W: Write> Page<W> {
    /// Takes a text and sends on what waits. What there is room for is taken before anything is sent.
    pub fn tell(&mut self, text: &[u8])
        ensures { TakesIfRoom W.contents self.old self.new text.now }
    {
        let kept = self.buffer(text);
        if put(&text[kept..], self).is_ok() {
            let _sent = self.flush();
        }
    }

    /// Takes as many of the bytes as there is room for; how many they were.
    fn buffer(&mut self, bytes: &[u8]) -> usize
        ensures count { result ≡ min (ROOM - length self.old.waiting.items) (length bytes.now) }
        ensures bytes { Appends (contents_of W.contents self.old) (contents_of W.contents self.new)
            (take result bytes.now) }
    {
        let kept = self.waiting.remaining_capacity().min(bytes.len());
        let _all_fits = self.waiting.write(bytes);
        kept
    }

    /// Sends what waits on to the writer. After a fault what was not sent still waits.
    fn send(&mut self) -> io::Result<()>
        ensures ok { OnOk result (self.new.waiting.items ≡ []) }
        ensures bytes { Keeps (contents_of W.contents self.old) (contents_of W.contents self.new) }
    {
        while !self.waiting.is_empty() {
            let sent = self.to.write(self.waiting.as_slice())?;
            if sent == 0 {
                return Err(io::Error::from(ErrorKind::WriteZero));
            }
            self.waiting.drain(..sent);
        }
        Ok(())
    }
}

impl<W: Write> Write for Page<W> {
    ghost contents = { contents_of W.contents };

    fn write(&mut self, buf: &[u8]) -> io::Result<usize> {
        if self.waiting.is_full() {
            self.send()?;
        }
        self.waiting.write(buf)
    }

    fn flush(&mut self) -> io::Result<()>
        ensures bytes { Keeps (contents_of W.contents self.old) (contents_of W.contents self.new) }
        ensures ok { OnOk result (self.new.waiting.items ≡ []) }
    {
        self.send()?;
        self.to.flush()
    }
}
