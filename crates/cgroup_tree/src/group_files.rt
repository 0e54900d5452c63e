//! What the folders and files of groups are asked for.
ghost use Rattle.std.specs.Prelude.{List, [], ◌∷◌};
ghost use Rattle.cgroup_tree.specs.Asked.{Asked, Asks, Compared, IsAnother, Made, Opening, Removed, Told, Unmade};
ghost use Rattle.cgroup_tree.specs.Asked.{WasRefused, Written, done, is_made, why_not};

use crate::{LineFault, Unasked};
use std::io;

/// Folders and files that can be made, removed and written, as those of a cgroup tree.
///
/// What they hold is not said, since no contract can say what a file system does. What they were asked for is: which
/// calls were made so far, the newest first, and which of them were refused.
pub trait GroupFiles {
    /// How these files may have been opened, with folders of a run before or without, and under which folder's lock;
    /// and the calls that may have been made of them so far. No call opens them otherwise, so the lock lasts.
    ghost asked: { Self → Opening → List Asked → Type 0 };

    /// Makes a folder.
    ///
    /// # Errors
    /// Those of the system; the folder was not made.
    fn make_folder(&mut self, path: &str) -> io::Result<()>
        ensures { Asks asked self.old (record { deed = Made path.now; done = is_made result } ∷ []) self.new };

    /// Removes a folder.
    ///
    /// # Errors
    /// Those of the system; the folder stays.
    fn remove_folder(&mut self, path: &str) -> io::Result<()>
        ensures { Asks asked self.old (record { deed = Removed path.now; done = is_made result } ∷ []) self.new };

    /// Removes the folder that was made last, where it was not there before.
    ///
    /// # Errors
    /// Those of the system; the folder stays.
    fn unmake_folder(&mut self, path: &str) -> io::Result<()>
        ensures { Asks asked self.old (record { deed = Unmade path.now; done = is_made result } ∷ []) self.new };

    /// Writes the whole text into a file that is there, by one write of the system.
    ///
    /// # Errors
    /// Those of the system; nothing was written.
    fn write_file(&mut self, path: &str, text: &[u8]) -> io::Result<()>
        ensures { Asks asked self.old (record { deed = Written path.now text.now; done = is_made result }
            ∷ []) self.new };

    /// Looks whether the file of this path has this line. Nothing is changed.
    ///
    /// # Errors
    /// It has another, or can't be read.
    fn compare_line(&mut self, path: &str, line: &[u8]) -> Result<(), LineFault>
        ensures { Asks asked self.old (record { deed = Compared path.now line.now; done = is_made result }
            ∷ []) self.new };

    /// Tells the operator that a call of this path was refused; and the text, if one was to be written.
    fn tell_refusal(&mut self, path: &str, text: &[u8], error: &io::Error)
        ensures { Asks asked self.old (done (Told path.now WasRefused) ∷ []) self.new };

    /// Tells the operator why the file of this path has not this line.
    fn tell_line(&mut self, path: &str, line: &[u8], fault: &LineFault)
        ensures { Asks asked self.old (done (Told path.now IsAnother) ∷ []) self.new };

    /// Tells the operator why nothing was asked for of a folder of this name.
    fn tell_unasked(&mut self, name: &str, why: Unasked)
        ensures { Asks asked self.old (done (Told name.now (why_not why)) ∷ []) self.new };
}
