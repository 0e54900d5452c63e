//! Why a script is not run to its end.
use std::io::ErrorKind;
use thiserror::Error;

/// Why a script was not run to its end.
#[derive(Clone, Copy, Debug, PartialEq, Eq, Drop, Error)]
pub enum ScriptFault {
    /// E113: a read failed. All lines before were answered, except for the one whose end was not read.
    #[error("the script can't be read")]
    Read(ErrorKind),
    /// E113: the script didn't come to its end within the most reads that it is given. The lines that ended were
    /// answered.
    #[error("the script took too many reads")]
    TooManyReads,
    /// E114: a write failed or took no byte. The command whose answer was being written was the last that was run.
    #[error("the answers can't be written")]
    Write,
}
