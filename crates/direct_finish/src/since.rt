//! What is known since all were looked at: whose turn it is not, and who was written since each one waited for one that
//! waits.
ghost use Rattle.std.specs.Prelude.{◌≡◌, ◌<◌, ℕ, false, IsTrue, Some, length, get_or};
ghost use Rattle.direct_finish.specs.Seen.{LeadsOn};
ghost use Rattle.direct_finish.specs.Settled.{IsLeft, IsDone, AreDone, LeadsHere, LeadAll, NotesOne, NotesIf, AreSettled, AreBefores};

use crate::standing::{Standing, is_quiet, waits};

/// What is known since all were looked at.
#[derive(Clone, Copy, Debug)]
pub struct Since {
    /// Before this place nobody is due that keeps CPUs of its own.
    pub roomy: usize,
    /// Before this place nobody is due at all.
    pub full: usize,
    /// Up to two that were written since each one rested, or waited for one that waits.
    pub one: Option<usize>,
    pub two: Option<usize>,
    /// Whether these are all, and each one did.
    pub all: bool,
    /// Whether it may be that each one does.
    pub strict: bool,
}

/// Whether a place is this one.
fn is_at(noted: Option<usize>, place: usize) -> bool
    ensures { IsTrue result → noted ≡ Some place }
{
    match noted {
        Some(at) => at == place,
        None => false,
    }
}

/// Whether nobody waits for the one at a place, as far as that is known. Of whom one waits for it, the place behind is
/// noted.
fn is_left(befores: &[usize], standings: &[Standing], place: usize) -> bool
    requires room { length befores.now ≡ length standings.now }
    requires within { place < length standings.now }
    ensures { IsTrue result → IsLeft befores.now standings.now place }
{
    let behind = befores[place];
    if behind == 0 {
        return true;
    }
    behind <= standings.len() && is_quiet(standings[behind - 1])
}

/// Whether the one that is noted is at rest, and nobody waits for it.
fn is_done(befores: &[usize], standings: &[Standing], noted: Option<usize>) -> bool
    requires room { length befores.now ≡ length standings.now }
    ensures { IsTrue result → (p : ℕ) → noted ≡ Some p → IsDone befores.now standings.now p }
{
    match noted {
        Some(place) => {
            place < standings.len()
                && is_quiet(standings[place])
                && is_left(befores, standings, place)
        }
        None => true,
    }
}

/// Whether the one at a place waits for one that waits.
pub fn leads_on(nexts: &[usize], standings: &[Standing], place: usize) -> bool
    requires room { length nexts.now ≡ length standings.now }
    requires within { place < length standings.now }
    ensures { IsTrue result → LeadsOn nexts.now standings.now place }
{
    let next = nexts[place];
    next < standings.len() && waits(standings[next])
}

/// Whether the one at a place rests or is guarded, or waits for one that waits.
fn leads_here(nexts: &[usize], standings: &[Standing], place: usize) -> bool
    requires room { length nexts.now ≡ length standings.now }
    requires within { place < length standings.now }
    ensures { (s : Standing) → s ≡ get_or standings.now place s → IsTrue result → LeadsHere nexts.now standings.now place s }
{
    match standings[place] {
        Standing::Roomy => leads_on(nexts, standings, place),
        Standing::Full => leads_on(nexts, standings, place),
        Standing::Waits => leads_on(nexts, standings, place),
        Standing::Beside => leads_on(nexts, standings, place),
        Standing::Rests => true,
        Standing::Guarded => true,
        Standing::Moved => false,
    }
}

/// Whether each one does.
fn lead_all(nexts: &[usize], standings: &[Standing]) -> bool
    requires room { length nexts.now ≡ length standings.now }
    ensures { IsTrue result → LeadAll nexts.now standings.now }
{
    for place in 0..standings.len() {
        if !leads_here(nexts, standings, place) {
            return false;
        }
    }
    true
}

impl Since {
    /// Nothing is known yet.
    pub fn nothing() -> Since
        ensures roomy { result.roomy ≡ 0 }
        ensures full { result.full ≡ 0 }
        ensures all { result.all ≡ false }
    {
        Since {
            roomy: 0,
            full: 0,
            one: None,
            two: None,
            all: false,
            strict: true,
        }
    }

    /// Notes that the one at a place was written, where it was.
    pub fn note_if(&mut self, written: bool, place: usize)
        ensures { NotesIf self.old self.new place written }
    {
        if written {
            self.note(place);
        }
    }

    /// Notes that the one at a place was written.
    pub fn note(&mut self, place: usize)
        ensures { NotesOne self.old self.new place }
    {
        if is_at(self.one, place) || is_at(self.two, place) {
            return;
        }
        if self.one.is_none() {
            self.one = Some(place);
        } else if self.two.is_none() {
            self.two = Some(place);
        } else {
            self.all = false;
        }
    }

    /// Whether those that were noted are all that were written, each of them rests, and nobody waits for them.
    fn are_done(&self, befores: &[usize], standings: &[Standing]) -> bool
        requires room { length befores.now ≡ length standings.now }
        ensures { IsTrue result → AreDone befores.now standings.now self.now }
    {
        if !self.all {
            return false;
        }
        if !is_done(befores, standings, self.one) {
            return false;
        }
        is_done(befores, standings, self.two)
    }

    /// Nobody was written since each one rested, or waited for one that waits.
    fn forget(&mut self)
        ensures roomy { self.new.roomy ≡ self.old.roomy }
        ensures full { self.new.full ≡ self.old.full }
    {
        self.one = None;
        self.two = None;
        self.all = true;
    }

    /// Whether each one rests, or waits for one that waits, as far as that is known. Told by those that were written
    /// since it was known last, where they are few, and else by a walk over all, unless one was in vain.
    pub fn lead_on(&mut self, nexts: &[usize], befores: &[usize], standings: &[Standing]) -> bool
        requires room { length nexts.now ≡ length standings.now }
        requires behind { length befores.now ≡ length standings.now }
        requires befores { AreBefores nexts.now befores.now }
        requires settled { AreSettled nexts.now standings.now self.old }
        ensures settled { AreSettled nexts.now standings.now self.new }
        ensures lead { IsTrue result → LeadAll nexts.now standings.now }
        ensures roomy { self.new.roomy ≡ self.old.roomy }
        ensures full { self.new.full ≡ self.old.full }
    {
        if self.are_done(befores, standings) {
            self.forget();
            return true;
        }
        if !self.strict || !lead_all(nexts, standings) {
            self.strict = false;
            return false;
        }
        self.forget();
        true
    }
}
