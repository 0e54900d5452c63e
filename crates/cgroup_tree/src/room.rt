//! Room in which paths and lines are made, so that a write takes no memory.
ghost use Rattle.std.specs.Prelude.{◌+◌, ◌≤◌, IfOk, length};
ghost use Rattle.std.specs.String.{string_capacity};

use std::alloc::{AllocError, Global};

/// How many bytes the name of a group's file has at most, with the slash before it.
pub const FILE_ROOM: usize = 24;

/// How many bytes the line of a set has at most: ten for each number that a set may have, and a line feed.
pub const LINE_ROOM: usize = 40_961;

/// Room for the path of a file and for a line.
#[derive(Drop)]
pub struct Room {
    pub path: String,
    pub line: String,
}

impl Room {
    /// Room for the files of a root group whose folder has this path.
    ///
    /// # Errors
    /// An allocation failure.
    pub fn below(alloc: Global, root: &str) -> Result<Room, AllocError>
        ensures path { IfOk result (λ room. length root.now + FILE_ROOM ≤ string_capacity room.path) }
        ensures line { IfOk result (λ room. LINE_ROOM ≤ string_capacity room.line) }
    {
        let path = String::with_capacity(alloc, root.len() + FILE_ROOM)?;
        let line = String::with_capacity(alloc, LINE_ROOM)?;
        Ok(Room { path, line })
    }
}
