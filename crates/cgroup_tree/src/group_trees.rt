//! Where a cgroup tree is found, and what it has at the start.
ghost use Rattle.std.specs.Prelude.{ℕ, Bool, List, [], ◌∷◌, MatchOption, MatchResult, false, option_map, true};
ghost use Rattle.std.specs.IoError.{error_kind};
ghost use Rattle.cgroup_tree.specs.Asked.{Asked, Asks, HandsOut, Locked, Named, TakesBack, Told, done, is_locked, named};
ghost use Rattle.cgroup_tree.specs.Roots.{CantLock, Fails, Finding, FindsNoMore, Has, HasFolders, IsFolder, IsTaken};
ghost use Rattle.cgroup_tree.specs.Roots.{remark_of};

use crate::{Difference, GroupFiles, Stranger};
use std::alloc::Global;
use std::io;

/// What gives access to cgroup trees, and reads what they have before a run begins. It hands out the files of one tree
/// at a time, and knows what was asked of them once it has them back.
pub trait GroupTrees {
    type Files: GroupFiles + Drop;

    /// What keeps other programs from a folder, as long as it lives.
    type Lock: Drop;

    /// What a look at a path may find.
    ghost finds: { Self → List ℕ → Finding → Type 0 };

    /// The folders that a lock keeps other programs from.
    ghost locks: { Self.Lock → List ℕ → Type 0 };

    /// Whether the files of a tree are handed out, and the calls that may have been made of trees so far, the newest
    /// first: here, and of all files that were taken back.
    ghost asked: { Self → Bool → List Asked → Type 0 };

    /// The files of a tree, of which nothing was asked yet, and which hold this lock. With `adopt` there may be folders
    /// already, which a run before this made, and links to groups elsewhere.
    fn files(&mut self, lock: Self::Lock, adopt: bool) -> Self::Files
        ensures opened { (path : List ℕ) → locks lock path
            → Self.Files.asked result (record { adopt = adopt; locked = path }) [] }
        ensures out { HandsOut asked self.old [] self.new };

    /// Takes the files back that were handed out, and lets their lock go.
    fn close(&mut self, files: Self::Files)
        ensures { TakesBack asked Self.Files.asked self.old files self.new };

    /// Whether this is a folder.
    ///
    /// # Errors
    /// Those of the system.
    fn is_folder(&self, path: &str) -> io::Result<bool>
        ensures { MatchResult result
            (λ yes. finds self.now path.now (IsFolder yes))
            (λ error. finds self.now path.now (Fails (error_kind error))) };

    /// Keeps other programs that ask for this from a folder, or none where one of them has it. It waits for none.
    ///
    /// # Errors
    /// Those of the system, which can't lock the folder.
    fn lock(&mut self, path: &str) -> io::Result<Option<Self::Lock>>
        ensures asked { Asks asked self.old (record { deed = Locked path.now; done = is_locked result } ∷ []) self.new }
        ensures looks { MatchResult result
            (λ found. MatchOption found
            (finds self.old path.now (IsTaken true))
            (λ lock. finds self.old path.now (IsTaken false) × locks lock path.now))
            (λ error. finds self.old path.now (CantLock (error_kind error))) }
        // What is found later could be found before.
        ensures finds { FindsNoMore (finds self.old) (finds self.new) };

    /// What a file has, or none where it is not there.
    ///
    /// # Errors
    /// Those of the system, and an allocation failure.
    fn read(&self, alloc: Global, path: &str) -> io::Result<Option<Vec<u8>>>
        ensures { MatchResult result
            (λ text. finds self.now path.now (Has (option_map (λ bytes. bytes.items) text)))
            (λ error. finds self.now path.now (Fails (error_kind error))) };

    /// Tells the operator by what the file of this path differs from what it has to have.
    fn tell(&mut self, path: &str, difference: Difference<'_>)
        ensures { Asks asked self.old (done (Told path.now (remark_of difference.entry)) ∷ []) self.new };

    /// The folders in this one, and links to folders, each with the CPUs that its `cpuset.cpus` holds; none where this
    /// is not there or is none. A folder without that file holds none, and one whose file has no list holds all that
    /// there may be.
    ///
    /// # Errors
    /// Those of the system, and an allocation failure.
    fn strangers(&self, alloc: Global, path: &str) -> io::Result<Vec<Stranger>>
        ensures { MatchResult result
            (λ strangers. finds self.now path.now (HasFolders (named strangers.items)))
            (λ error. finds self.now path.now (Fails (error_kind error))) };

    /// Names to the operator these folders in this one, each with the CPUs that it holds.
    fn name_strangers(&mut self, path: &str, strangers: &[Stranger])
        ensures { Asks asked self.old (done (Named path.now (named strangers.now)) ∷ []) self.new };
}
