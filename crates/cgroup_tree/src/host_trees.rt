//! The system's own cgroup trees.
ghost use Rattle.std.specs.Prelude.{◌≡◌, ⊤};

use crate::shown::Shown;
use crate::{Difference, GroupTrees, HostFiles, Stranger};
use cpu_list::{print, read};
use cpu_set::{CPU_LIMIT, IdSet};
use std::alloc::Global;
use std::fs::{File, TryLockError};
use std::io::ErrorKind;
use std::rt::Files;
use std::time::Clock;
use std::{fs, io};

/// The system's cgroup trees.
#[derive(Clone, Copy)]
pub struct HostTrees<'a, R> {
    /// What gives access to them.
    pub rt: &'a R,
}

impl<'a, R> HostTrees<'a, R> {
    /// The trees that this gives access to.
    pub fn new(rt: &'a R) -> HostTrees<'a, R>
        ensures { result.rt.now ≡ rt.now }
    {
        HostTrees { rt }
    }
}

impl<R: Files + Eprint> HostTrees<'_, R> {
    /// Says on standard error that the system had no memory for a look at a path: the refusal does not tell that from
    /// an allocation failure of the program's own.
    fn note_memory(&self, path: &str, error: &io::Error) {
        if error.kind() == ErrorKind::OutOfMemory && error.raw_os_error().is_some() {
            let _ = eprintln!(self.rt; "error: {}: {error}", Shown(path));
        }
    }

    /// Says on standard error which file of a root can't be read, and why; of the root it is answered that it can't be.
    fn unread(&self, path: &str, error: io::Error) -> io::Error {
        if error.kind() == ErrorKind::OutOfMemory {
            self.note_memory(path, &error);
            return error;
        }
        let _ = eprintln!(self.rt; "error: {}: {error}", Shown(path));
        io::Error::from(ErrorKind::Other)
    }
}

impl<R: AllocGlobal + Eprint> HostTrees<'_, R> {
    /// Says on standard error which numbers a file has too few or too many.
    fn tell_numbers(&self, path: &str, what: &str, numbers: &IdSet) {
        if let Ok(list) = print(self.rt.alloc(), numbers) {
            let _ = eprintln!(self.rt; "error: {}: {what} {list}", Shown(path));
        }
    }

    /// Says on standard error what the file of a root has that is no partition root, and why an isolated one is none.
    fn tell_text(&self, path: &str, text: &[u8]) {
        let text = str::from_utf8(text).unwrap_or("no text").trim_end();
        let text = if text.is_empty() { "nothing" } else { text };
        let _ = eprintln!(self.rt; "error: {}: {} in place of root", Shown(path), Shown(text));
        if text.starts_with(ISOLATED) {
            let _ = eprintln!(self.rt;
                "note: {}: no load is balanced there, so all threads of a container may run on one CPU",
                Shown(path)
            );
        }
    }
}

impl<R: Files + AllocGlobal + Eprint> HostTrees<'_, R> {
    /// The folder of this name in another one, or a link to a folder, with the CPUs that it holds.
    fn stranger_at(&self, alloc: Global, folder: &str, name: &str) -> io::Result<Option<Stranger>> {
        let mut path = String::from_str(alloc, folder)?;
        path.push('/')?;
        path.push_str(name)?;
        match fs::metadata(self.rt, path.as_str()) {
            Ok(found) if found.is_dir() => {}
            Err(error) if error.kind() != ErrorKind::NotFound => {
                return Err(self.unread(path.as_str(), error));
            }
            _ => return Ok(None),
        }
        path.push_str(CPUS_FILE)?;
        Ok(Some(Stranger {
            name: String::from_str(alloc, name)?,
            cpus: self.held_by(path.as_str())?,
        }))
    }

    /// The CPUs that a file holds: none where it is not there, and all that there may be where it has no list.
    fn held_by(&self, path: &str) -> io::Result<IdSet> {
        match fs::read(self.rt, path) {
            Ok(text) => match read(text.as_slice(), CPU_LIMIT) {
                Ok(cpus) => Ok(cpus),
                Err(_) => Ok(IdSet::empty().complement()),
            },
            Err(error) if error.kind() == ErrorKind::NotFound => Ok(IdSet::empty()),
            Err(error) => Err(self.unread(path, error)),
        }
    }

    /// Says on standard error that a folder is there, and which CPUs it keeps.
    fn note_stranger(&self, path: &str, stranger: &Stranger) {
        let (path, name) = (Shown(path), Shown(stranger.name.as_str()));
        match print(self.rt.alloc(), &stranger.cpus) {
            Ok(list) if !stranger.cpus.is_empty() => {
                let _ = eprintln!(self.rt;
                    "note: {path}/{name} is there and has to be adopted: until then no plan gives {list} to anybody, but for reserved CPUs"
                );
            }
            _ => {
                let _ = eprintln!(self.rt; "note: {path}/{name} is there and has to be adopted");
            }
        }
    }
}

/// The file of a group that has the CPUs that it requests.
const CPUS_FILE: &str = "/cpuset.cpus";

/// How the text of a partition root begins whose load the scheduler does not balance.
const ISOLATED: &str = "isolated";

/// The folder of this path, open and locked (flock(2)): until the file is closed, or its program has ended, no other
/// has the lock.
fn open_locked<R: Files<File = File>>(rt: &R, path: &str) -> Result<File, TryLockError> {
    match fs::open(rt, path) {
        Ok(file) => {
            file.try_lock()?;
            Ok(file)
        }
        Err(error) => Err(TryLockError::Error(error)),
    }
}

impl<'a, R: Files<File = File> + AllocGlobal + Clock + Eprint + Clone + Drop> GroupTrees
    for HostTrees<'a, R> {
    type Files = HostFiles<'a, R>;

    /// The folder, open and locked.
    type Lock = File;

    ghost finds = { λ _ _ _. ⊤ };

    ghost locks = { λ _ _. ⊤ };

    ghost asked = { λ _ _ _. ⊤ };

    fn files(&mut self, lock: File, adopt: bool) -> HostFiles<'a, R> {
        HostFiles::new(self.rt, Some(lock), adopt)
    }

    fn close(&mut self, _files: HostFiles<'a, R>) {}

    fn is_folder(&self, path: &str) -> io::Result<bool> {
        match fs::metadata(self.rt, path) {
            Ok(found) => Ok(found.is_dir()),
            Err(error) => {
                self.note_memory(path, &error);
                Err(error)
            }
        }
    }

    fn lock(&mut self, path: &str) -> io::Result<Option<File>> {
        match open_locked(self.rt, path) {
            Ok(file) => Ok(Some(file)),
            Err(TryLockError::WouldBlock) => Ok(None),
            Err(TryLockError::Error(error)) => {
                let _ = eprintln!(self.rt; "error: {}: {error}", Shown(path));
                Err(error)
            }
        }
    }

    fn read(&self, _alloc: Global, path: &str) -> io::Result<Option<Vec<u8>>> {
        match fs::read(self.rt, path) {
            Ok(text) => Ok(Some(text)),
            Err(error) if error.kind() == ErrorKind::NotFound => Ok(None),
            Err(error) => Err(self.unread(path, error)),
        }
    }

    fn tell(&mut self, path: &str, difference: Difference<'_>) {
        match difference {
            Difference::Lacks(numbers) => self.tell_numbers(path, "lacks", numbers),
            Difference::HasBesides(numbers) => self.tell_numbers(path, "has besides", numbers),
            Difference::NoList => {
                let _ = eprintln!(self.rt;
                    "error: {}: is no list of numbers below {CPU_LIMIT}",
                    Shown(path)
                );
            }
            Difference::Holds(text) => self.tell_text(path, text),
            Difference::Absent => {
                let _ = eprintln!(self.rt;
                    "error: {}: there is no such file, so this group can be no partition",
                    Shown(path)
                );
            }
        }
    }

    fn strangers(&self, alloc: Global, path: &str) -> io::Result<Vec<Stranger>> {
        let mut strangers = Vec::new(alloc);
        let entries = match fs::read_dir(self.rt, path) {
            Ok(entries) => entries,
            Err(error) if matches!(error.kind(), ErrorKind::NotFound | ErrorKind::NotADirectory) =>
                {
                    return Ok(strangers);
                }
            Err(error) => return Err(self.unread(path, error)),
        };
        for entry in entries {
            match entry {
                Ok(entry) => {
                    if let Some(stranger) = self.stranger_at(alloc, path, entry.file_name())? {
                        strangers.push(stranger)?;
                    }
                }
                Err(error) => return Err(self.unread(path, error)),
            }
        }
        Ok(strangers)
    }

    fn name_strangers(&mut self, path: &str, strangers: &[Stranger]) {
        for stranger in strangers {
            self.note_stranger(path, stranger);
        }
    }
}
