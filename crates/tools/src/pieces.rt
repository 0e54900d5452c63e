//! A reader and a writer that come in pieces, and that fail.

use anyhow::{Result, bail};
use std::io;
use std::io::{ErrorKind, Read, Write};

/// The kind of a fault, by its name; `WriteZero` is that of a writer that takes no byte.
pub fn kind(word: &str) -> Result<ErrorKind> {
    Ok(match word {
        "BrokenPipe" => ErrorKind::BrokenPipe,
        "Interrupted" => ErrorKind::Interrupted,
        "OutOfMemory" => ErrorKind::OutOfMemory,
        "PermissionDenied" => ErrorKind::PermissionDenied,
        "StorageFull" => ErrorKind::StorageFull,
        "WriteZero" => ErrorKind::WriteZero,
        _ => bail!("{word} is the name of no fault"),
    })
}

/// Gives these bytes, at most so many at a time, and then has a fault or comes to the end.
#[derive(Drop)]
pub struct Tape<'a> {
    pub rest: &'a [u8],
    pub most: usize,
    pub fault: Option<ErrorKind>,
}

impl Read for Tape<'_> {
    fn read(&mut self, buf: &mut [u8]) -> io::Result<usize> {
        match self.fault {
            Some(kind) if self.rest.is_empty() => return Err(io::Error::from(kind)),
            _ => {}
        }
        let count = self.rest.len().min(self.most).min(buf.len());
        buf[..count].copy_from_slice(&self.rest[..count]);
        self.rest = &self.rest[count..];
        Ok(count)
    }
}

/// Takes at most so many bytes of each write, and after some writes has one fault; a write behind that is taken.
#[derive(Drop)]
pub struct Paper {
    pub taken: Vec<u8>,
    pub width: usize,
    pub writes: usize,
    pub fault: ErrorKind,
    /// Whether each flush fails.
    pub stuck: bool,
}

impl Write for Paper {
    fn write(&mut self, buf: &[u8]) -> io::Result<usize> {
        if self.writes == 0 {
            self.writes = usize::MAX;
            if let ErrorKind::WriteZero = self.fault {
                return Ok(0);
            }
            return Err(io::Error::from(self.fault));
        }
        self.writes -= 1;
        let count = self.width.min(buf.len());
        self.taken.extend_from_slice(&buf[..count])?;
        Ok(count)
    }

    fn flush(&mut self) -> io::Result<()> {
        if self.stuck {
            return Err(io::Error::from(self.fault));
        }
        Ok(())
    }
}
