ghost use Rattle.std.specs.Prelude.{◌≡◌, ◌+◌, ◌*◌, ◌≤◌, length, IsOk};
ghost use Rattle.kernel_model.specs.KernelState.{KernelState, writes};
ghost use Rattle.kernel_model.specs.Cases.{rise};
ghost use Rattle.apply_plan.specs.Holders.{IsSafe};
ghost use Rattle.apply_plan.specs.Targets.{Targets, holders_of, IsHandover, ArePlaced};
ghost use Rattle.apply_plan.specs.Leaves.{KeepsRest};
ghost use Rattle.apply_plan.specs.DueWrite.{Steps, HaveTargets, writes_to_come, Lowers, Between, made_by_step, Spends};
ghost use Rattle.apply_plan.specs.Finishes.{Finishes};

use crate::Entry;
use crate::scan::{all_arrived, make_due};
use cpu_set::IdSet;
use kernel_model::{Kernel, KernelFault};
use std::marker::Model;

/// Whether a hand-over has writes to come.
#[derive(Clone, Copy, Debug, PartialEq, Eq)]
pub enum Progress {
    /// A write is due.
    More,
    /// Nothing is due: each live container has its target.
    Done,
}

/// Containers on their way to the CPUs that they are to have.
///
/// ```text
/// let mut handover = Handover::new(entries, reserved);
/// while handover.step(&mut kernel)? == Progress::More {}
/// ```
///
/// The test `steps_are_the_releases_and_then_the_moves` of the crate `scenarios` makes these calls. `finish` makes all
/// of them in one.
///
/// Of n entries a step looks at O(n) and `finish` at O(n) in all, each time by two reads of the kernel at most: what
/// the group requests, and whether the first process is alive.
#[derive(Debug, Drop)]
pub struct Handover {
    entries: Vec<Entry>,
    pub(crate) reserved: IdSet,
}

impl Model for Handover {
    ghost use Rattle.apply_plan.specs.Targets.{Targets, targets_code, IsHandover};

    ghost Value = { Targets };

    ghost coded = { targets_code };

    ghost view = { λ h. record { entries = h.entries.items; reserved = h.reserved } };

    ghost invariant = { λ h. IsHandover (record { entries = h.entries.items; reserved = h.reserved }) };
}

impl Handover {
    /// A hand-over that is to bring each entry's container to its target.
    ///
    /// Allocates nothing: the entries are kept as they come.
    pub fn new(entries: Vec<Entry>, reserved: IdSet) -> Handover
        requires { IsHandover (record { entries = entries.items; reserved = reserved }) }
        ensures { result ≡ record { entries = entries.items; reserved = reserved } }
    {
        Handover { entries, reserved }
    }

    /// The containers with their targets, in the order in which they are looked through.
    pub fn entries(&self) -> &[Entry]
        ensures entries { result.now ≡ self.now.entries }
        ensures valid { IsHandover self.now }
    {
        self.entries.as_slice()
    }

    /// Makes the write that is due, or none.
    fn step_body<K: Kernel>(&self, kernel: &mut K) -> Result<Progress, KernelFault>
        requires { ArePlaced (K.state kernel.old) self.now.entries }
        ensures step { Steps self.now (K.state kernel.old) result (K.state kernel.new) }
        ensures placed { ArePlaced (K.state kernel.new) self.now.entries }
        ensures valid { IsHandover self.now }
    {
        let entries = self.entries();
        let place = make_due(kernel, &self.reserved, entries)?;
        Ok(if all_arrived(&*kernel, entries, place) {
            Progress::Done
        } else {
            Progress::More
        })
    }

    /// Makes the write that is due and no other, or none if none is due, and tells whether more are to come.
    ///
    /// Entries whose first process has ended are passed over. Allocates nothing.
    ///
    /// # Errors
    /// `Failed` where the write failed: it is counted, and nothing else changed; the hand-over may go on.
    pub fn step<K: Kernel>(&mut self, kernel: &mut K) -> Result<Progress, KernelFault>
        requires { ArePlaced (K.state kernel.old) self.old.entries }
        ensures same { self.new ≡ self.old }
        // It answers `Done` exactly if nothing is due after it.
        ensures step { Steps self.old (K.state kernel.old) result (K.state kernel.new) }
        // What was safe stays safe. Safe means that outside the reserved CPUs no CPU is requested for a live pinned
        // container and for another live one. Nor does any live container request none.
        ensures safe { IsSafe (K.state kernel.old) self.old.reserved (holders_of self.old.entries)
            → IsSafe (K.state kernel.new) self.old.reserved (holders_of self.old.entries) }
        // At `Done` each live container has its target.
        ensures done { result ≡ Ok Progress.Done → HaveTargets (K.state kernel.new) self.old.entries }
        // At most two writes for each entry are to come.
        ensures few { writes_to_come self.old (K.state kernel.old) ≤ 2 * length self.old.entries }
        // Each that succeeds is one less, and one that fails none.
        ensures lowers { Lowers self.old (K.state kernel.old) result (K.state kernel.new) }
        // It makes one writing call if a write is due, and else none.
        ensures made { writes (K.state kernel.new) ≡ writes (K.state kernel.old)
            + made_by_step self.old (K.state kernel.old) }
        // Each container requests what it did at first, what it keeps of that, or its target.
        ensures between { (first : KernelState) → Between self.old first (K.state kernel.old)
            → Between self.old first (K.state kernel.new) }
        // A failure is counted.
        ensures counted { (K.state kernel.new).failures ≡ (K.state kernel.old).failures + rise result }
        // Nothing else in the kernel changes.
        ensures rest { KeepsRest self.old (K.state kernel.old) (K.state kernel.new) }
        ensures placed { ArePlaced (K.state kernel.new) self.old.entries }
    {
        self.step_body(kernel)
    }

    /// Makes all writes, in two walks.
    fn finish_body<K: Kernel>(&self, kernel: &mut K) -> Result<(), KernelFault>
        requires { ArePlaced (K.state kernel.old) self.now.entries }
        ensures finishes { Finishes self.now (K.state kernel.old) result (K.state kernel.new) }
        ensures valid { IsHandover self.now }
    {
        self.let_all_go(kernel)?;
        self.take_all_targets(kernel)
    }

    /// Makes all writes that are to come, up to the first that fails: what [`step`](Handover::step) leaves, called
    /// until nothing is due.
    ///
    /// Looks each entry through twice, where single steps look all of them through for each write. Allocates nothing.
    ///
    /// # Errors
    /// `Failed` where a write failed: it is counted, and no other was made after it; the hand-over may go on.
    pub fn finish<K: Kernel>(&mut self, kernel: &mut K) -> Result<(), KernelFault>
        requires { ArePlaced (K.state kernel.old) self.old.entries }
        ensures same { self.new ≡ self.old }
        // Single steps leave the same, up to the first after which nothing is due or that fails.
        ensures finishes { Finishes self.old (K.state kernel.old) result (K.state kernel.new) }
        // What was safe stays safe.
        ensures safe { IsSafe (K.state kernel.old) self.old.reserved (holders_of self.old.entries)
            → IsSafe (K.state kernel.new) self.old.reserved (holders_of self.old.entries) }
        // At the end each live container has its target.
        ensures done { IsOk result → HaveTargets (K.state kernel.new) self.old.entries }
        // It makes one writing call for each write that is less to come, and one for a failure.
        ensures made { Spends self.old (K.state kernel.old) (rise result) (K.state kernel.new) }
        // At the end it has made exactly as many writing calls as writes were to come.
        ensures all { IsOk result → writes (K.state kernel.new) ≡ writes (K.state kernel.old)
            + writes_to_come self.old (K.state kernel.old) }
        // That is at most two for each entry, and the one that failed.
        ensures few { writes (K.state kernel.new) ≤ writes (K.state kernel.old) + 2 * length self.old.entries
            + rise result }
        // Each container requests what it did at first, what it keeps of that, or its target.
        ensures between { (first : KernelState) → Between self.old first (K.state kernel.old)
            → Between self.old first (K.state kernel.new) }
        // A failure is counted.
        ensures counted { (K.state kernel.new).failures ≡ (K.state kernel.old).failures + rise result }
        // Nothing else in the kernel changes.
        ensures rest { KeepsRest self.old (K.state kernel.old) (K.state kernel.new) }
        ensures placed { ArePlaced (K.state kernel.new) self.old.entries }
    {
        self.finish_body(kernel)
    }
}
