//! Where bytes come from.
ghost use Rattle.std.specs.Prelude.{◌≡◌, IfErr, IfOk, Ok, Err};
ghost use Rattle.std.specs.IoError.{error_kind};
ghost use Rattle.std.specs.declared.io.ErrorKind.{ErrorKind};
ghost use Rattle.program_io.specs.Readings.{IsReadingOfKnown, Reading};

use crate::fault::ReadFault;
use crate::reading::read_all;
use faults::OrMemory;
use std::alloc::Global;
use std::io;
use std::io::Read;

/// An open input.
pub trait Input: Drop {
    /// What its reading may answer.
    ghost gives: { Self → Reading → Type 0 };

    /// All of its bytes.
    ///
    /// # Errors
    /// Those of [`read_all`].
    fn read_whole(self, alloc: Global) -> Result<Vec<u8>, OrMemory<ReadFault>>
        ensures bytes { IfOk result (λ bytes. gives self (Ok bytes.items)) }
        ensures err { IfErr result (λ error. gives self (Err error)) };
}

/// What is read as far as its bytes are known.
impl<R: Read + Drop> Input for R {
    ghost gives = { λ reader reading. IsReadingOfKnown (R.remaining reader) reading };

    fn read_whole(self, alloc: Global) -> Result<Vec<u8>, OrMemory<ReadFault>> {
        let mut reader = self;
        read_all(alloc, &mut reader)
    }
}

/// What can be opened, to be read.
pub trait Source {
    type Input: Input;

    /// The inputs that its opening may give.
    ghost opens: { Self → Self.Input → Type 0 };

    /// The kinds of error by which its opening may fail.
    ghost fails: { Self → ErrorKind → Type 0 };

    /// Opens it, at its first byte.
    fn open(self) -> io::Result<Self::Input>
        ensures ok { IfOk result (opens self) }
        ensures err { IfErr result (λ error. fails self (error_kind error)) };
}

/// An input that is open already.
pub struct Opened<I>(pub I);

impl<I: Input> Source for Opened<I> {
    type Input = I;

    ghost opens = { λ source input. input ≡ source.0 };

    ghost fails = { λ _ _. ⊥ };

    fn open(self) -> io::Result<I> {
        let Opened(input) = self;
        Ok(input)
    }
}
