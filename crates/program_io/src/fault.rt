//! Why an input can't be read.
ghost use Rattle.std.specs.Prelude.{◌≡◌};
ghost use Rattle.std.specs.IoError.{error_kind};
ghost use Rattle.program_io.specs.ReadFaults.{IsTold, reason_of};

use faults::Fault;
use std::io::{Error, ErrorKind};

/// E113: why an input can't be opened or read to its end, as far as the system tells.
#[derive(Clone, Copy, Debug, PartialEq, Eq, Drop)]
pub enum ReadFault {
    /// No file has that name.
    NoSuchFile,
    /// It is a directory.
    Directory,
    /// It, or a folder on its path, is no directory.
    NotADirectory,
    /// It may not be read.
    Forbidden,
    /// The system told another reason.
    Failed,
    /// It has more than [`MOST_BYTES`](crate::MOST_BYTES) bytes.
    TooManyBytes,
    /// It took more than [`MOST_READS`](crate::MOST_READS) reads.
    TooManyReads,
}

impl ReadFault {
    /// The reason that the system tells.
    pub fn told(kind: ErrorKind) -> ReadFault
        // A failed opening or read is told by the kind of its error (`IsTold`): no such file, a directory, not a
        // directory, permission denied, and another.
        ensures { IsTold kind result }
    {
        match kind {
            ErrorKind::NotFound => ReadFault::NoSuchFile,
            ErrorKind::IsADirectory => ReadFault::Directory,
            ErrorKind::NotADirectory => ReadFault::NotADirectory,
            ErrorKind::PermissionDenied => ReadFault::Forbidden,
            _ => ReadFault::Failed,
        }
    }

    /// The reason in words.
    pub fn reason(self) -> &'static str
        ensures { result.now ≡ reason_of self }
    {
        match self {
            ReadFault::NoSuchFile => "no such file",
            ReadFault::Directory => "is a directory",
            ReadFault::NotADirectory => "not a directory",
            ReadFault::Forbidden => "permission denied",
            ReadFault::Failed => "can't be read",
            ReadFault::TooManyBytes => "has more than 67108864 bytes",
            ReadFault::TooManyReads => "took more than 1000000 reads",
        }
    }
}

impl Fault for ReadFault {}

impl From<Error> for ReadFault {
    ghost from_gives = { λ error fault. IsTold (error_kind error) fault };

    fn from(error: Error) -> ReadFault {
        ReadFault::told(error.kind())
    }
}
