//! Where named files come from.
ghost use Rattle.std.specs.Prelude.{◌≡◌, ℕ, List, IfErr, IfOk, ⊤};
ghost use Rattle.std.specs.IoError.{error_kind};
ghost use Rattle.std.specs.declared.io.ErrorKind.{ErrorKind};

use crate::note::Note;
use crate::printed::Printed;
use json_text::Flaw;
use program_io::{Input, ReadFault, Source};
use std::alloc::Global;
use std::rt::Files;
use std::{fs, io, str};

/// What opens files by their names.
pub trait Opens {
    type File: Input;

    /// The files that may be opened under a name.
    ghost opens: { Self → List ℕ → Self.File → Type 0 };

    /// The kinds of error by which the opening of a name may fail.
    ghost fails: { Self → List ℕ → ErrorKind → Type 0 };

    /// The file of this name, from its first byte on.
    fn open(&self, name: &str) -> io::Result<Self::File>
        ensures ok { IfOk result (opens self.now name.now) }
        ensures err { IfErr result (λ error. fails self.now name.now (error_kind error)) };

    /// Tells the operator, if that is possible, why the file of this name can't be read.
    fn tell_unread(&self, alloc: Global, name: &str, fault: ReadFault);

    /// Tells the operator, if that is possible, what keeps the file of this name from being JSON.
    fn tell(&self, alloc: Global, name: &str, flaw: Flaw);
}

/// The system's files. What they hold is not known.
#[derive(Clone, Copy)]
pub struct Disk<'a, R> {
    /// What gives access to them.
    pub rt: &'a R,
}

impl<'a, R> Disk<'a, R> {
    /// The files that this gives access to.
    pub fn new(rt: &'a R) -> Disk<'a, R>
        ensures { result.rt.now ≡ rt.now }
    {
        Disk { rt }
    }
}

impl<R: Files + Eprint> Disk<'_, R> {
    /// Writes a note on standard error, past the program's page.
    fn note(&self, alloc: Global, note: Note<'_>) {
        let mut line = Vec::new(alloc);
        if Some(note).print(&mut line).is_ok()
            && let Ok(text) = str::from_utf8(line.as_slice())
        {
            let _ = eprint!(self.rt; "{text}");
        }
    }
}

impl<R: Files + Eprint> Opens for Disk<'_, R> {
    type File = R::File;

    ghost opens = { λ _ _ _. ⊤ };

    ghost fails = { λ _ _ _. ⊤ };

    fn open(&self, name: &str) -> io::Result<R::File> {
        fs::open(self.rt, name)
    }

    fn tell_unread(&self, alloc: Global, name: &str, fault: ReadFault) {
        self.note(alloc, Note::new(name, fault.reason()));
    }

    fn tell(&self, alloc: Global, name: &str, flaw: Flaw) {
        self.note(alloc, Note::of_flaw(name, flaw));
    }
}

/// The file of a name.
#[derive(Drop)]
pub struct NamedFile<'a, F> {
    pub files: &'a F,
    pub name: &'a str,
}

impl<F: Opens> Source for NamedFile<'_, F> {
    type Input = F::File;

    ghost opens = { λ source input. F.opens source.files.now source.name.now input };

    ghost fails = { λ source kind. F.fails source.files.now source.name.now kind };

    fn open(self) -> io::Result<F::File> {
        self.files.open(self.name)
    }
}
