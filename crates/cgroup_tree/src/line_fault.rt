//! Why a file has not the line that it was compared with.
use std::io;

/// Why a file has not the line that it was compared with.
#[derive(Drop)]
pub enum LineFault {
    /// It has this text.
    Another(Vec<u8>),
    /// It can't be read.
    Unread(io::Error),
}
