//! The labels of one search: for each class the row by which it is nearest, and the nearest class with a free CPU.
ghost use Rattle.std.specs.Prelude.{◌≡◌, ℕ, ◌<◌, List, length, OnOk};
ghost use Rattle.transport.specs.Numbers.{number};
ghost use Rattle.transport.specs.States.{IsStruck};
ghost use Rattle.transport.specs.Scans.{CanImprove, IsLabelledNow};
ghost use Rattle.transport.specs.Searches.{AreNeverDue};
ghost use Rattle.transport.specs.Settled.{AreListed, AreNoneLabelled, IsForgotten};

use std::alloc::AllocError;

/// When a class with no label is due: the root's value never comes to this.
pub(crate) const NEVER: u64 = u64::MAX;

/// The reached row from which a class is nearest, and its weight there.
#[derive(Clone, Copy, Debug)]
pub(crate) struct Label {
    pub(crate) row: usize,
    pub(crate) weight: u32,
}

/// A class with a free CPU, and the reached row from which it is nearest.
#[derive(Clone, Copy, Debug)]
pub(crate) struct FreeEnd {
    pub(crate) class: usize,
    pub(crate) label: Label,
}

/// The classes that a search has seen.
#[derive(Debug, Drop)]
pub(crate) struct Labels {
    pub(crate) of_class: Vec<Option<Label>>,
    /// For each labelled class the root's value by which it is at slack 0, for others `NEVER`. It stays as values and
    /// prices rise.
    pub(crate) due: Vec<u64>,
    /// The classes that have a label, except for some of those that are taken up.
    pub(crate) labelled: Vec<usize>,
    pub(crate) free_end: Option<FreeEnd>,
}

impl Labels {
    /// Forgets the labels of all classes, those taken up among them, and the free end.
    pub(crate) fn clear(&mut self, taken: &[usize])
        requires { AreListed self.old taken.now }
        ensures { AreNoneLabelled (length self.old.of_class.items) self.new }
    {
        forget(&mut self.of_class, &mut self.due, &self.labelled);
        forget(&mut self.of_class, &mut self.due, taken);
        self.labelled.clear();
        self.free_end = None;
    }

    /// Strikes the classes that are taken up out of the list.
    pub(crate) fn strike_taken(&mut self, taken: &[bool])
        ensures { IsStruck taken.now self.old self.new }
    {
        self.labelled
            .retain(|class| !matches!(taken.get(*class), Some(true)));
    }

    /// Labels a class that is at slack 0 by some value of the root, unless it has a label by which it is as near.
    pub(crate) fn improve(&mut self, class: usize, label: Label, due: u64) -> Result<(), AllocError>
        requires { (values : List ℕ) × (above : ℕ) × CanImprove values above self.old class label due }
        ensures { OnOk result ((values : List ℕ) (above : ℕ) → CanImprove values above self.old class label due
            → IsLabelledNow values above self.old self.new class label) }
    {
        if self.due[class] <= due {
            return Ok(());
        }
        if self.of_class[class].is_none() {
            self.labelled.push(class)?;
        }
        self.of_class[class] = Some(label);
        self.due[class] = due;
        Ok(())
    }
}

/// Clears the labels of these classes.
fn forget(of_class: &mut [Option<Label>], due: &mut [u64], classes: &[usize])
    requires within { (i : ℕ) → i < length classes.now → number classes.now i < length of_class.old }
    requires as_long { length due.old ≡ length of_class.old }
    ensures forgotten { IsForgotten of_class.old of_class.new classes.now }
    ensures long { length due.new ≡ length due.old }
    ensures never { AreNeverDue of_class.old due.old → AreNeverDue of_class.new due.new }
{
    for class in classes {
        of_class[*class] = None;
        due[*class] = NEVER;
    }
}
