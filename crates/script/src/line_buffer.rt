//! The line that is being read.
ghost use Rattle.std.specs.Prelude.{◌≡◌, ◌≤◌, ℕ, List, [], Option, Some, None, take, if◌then◌else◌, MatchOption};
ghost use Rattle.script.specs.Lines.{with_piece};
ghost use Rattle.script.specs.declared.line_buffer.TheConstants.{MOST_LINE_BYTES};

use std::marker::Model;

/// The most bytes of a line, without its line feed.
pub const MOST_LINE_BYTES: usize = 8_192;

/// A line that comes piece by piece, or none where it is too long. It allocates nothing.
#[derive(Drop)]
pub struct LineBuffer {
    bytes: [u8; MOST_LINE_BYTES],
    len: usize,
    is_long: bool,
}

impl Model for LineBuffer {
    ghost Value = { Option (List ℕ) };

    ghost view = { λ b. if b.is_long then None else Some (take b.len b.bytes) };

    ghost invariant = { λ b. b.len ≤ MOST_LINE_BYTES };
}

impl LineBuffer {
    /// The empty line.
    pub fn new() -> LineBuffer
        ensures { result ≡ Some [] }
    {
        LineBuffer {
            bytes: [0; MOST_LINE_BYTES],
            len: 0,
            is_long: false,
        }
    }

    /// Puts a piece behind what is there.
    pub fn push(&mut self, piece: &[u8])
        ensures { self.new ≡ with_piece self.old piece.now }
    {
        if self.is_long {
            return;
        }
        if piece.len() > MOST_LINE_BYTES - self.len {
            self.is_long = true;
            return;
        }
        let end = self.len + piece.len();
        self.bytes[self.len..end].copy_from_slice(piece);
        self.len = end;
    }

    /// The line, unless it is too long.
    pub fn line(&self) -> Option<&[u8]>
        ensures { MatchOption result (self.now ≡ None) (λ line. self.now ≡ Some line.now) }
    {
        if self.is_long {
            return None;
        }
        Some(&self.bytes[..self.len])
    }

    /// Begins the next line.
    pub fn clear(&mut self)
        ensures { self.new ≡ Some [] }
    {
        self.len = 0;
        self.is_long = false;
    }
}
