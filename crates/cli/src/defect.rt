//! Why a machine file is no JSON object of its size.
ghost use Rattle.std.specs.Prelude.{◌≡◌, Some};
ghost use Rattle.cli.specs.Defects.{IsDefectOf, defect_line};
ghost use Rattle.answers.specs.Notes.{note_text};

use answers::Note;
use json_text::{Flaw, flaw_in};
use machine::MAX_BYTES;
use std::alloc::{AllocError, Global};

/// Why a machine file is no JSON object of its size (E25): for whoever wrote it.
#[derive(Clone, Copy)]
pub enum Defect {
    /// It has more than [`MAX_BYTES`] bytes.
    TooLong,
    /// It is no JSON.
    NoJson(Flaw),
    /// It is JSON, and no object.
    NoObject,
    /// There was no memory for a second look.
    Unseen,
}

impl Defect {
    /// What makes a text no JSON object of its size, if it is none.
    pub fn of(alloc: Global, text: &[u8]) -> Defect
        ensures { IsDefectOf text.now result }
    {
        if text.len() > MAX_BYTES {
            return Defect::TooLong;
        }
        match flaw_in(alloc, text) {
            Ok(Some(flaw)) => Defect::NoJson(flaw),
            Ok(None) => Defect::NoObject,
            Err(AllocError) => Defect::Unseen,
        }
    }

    /// The note on the file that is called so.
    pub fn note(self, name: &str) -> Note<'_>
        ensures { note_text (Some result) ≡ defect_line name.now self }
    {
        match self {
            Defect::TooLong => Note::new(name, "has more than 1048576 bytes"),
            Defect::NoJson(flaw) => Note::of_flaw(name, flaw),
            Defect::NoObject => Note::new(name, "is no JSON object"),
            Defect::Unseen => Note::new(name, "is no JSON object of at most 1048576 bytes"),
        }
    }
}
