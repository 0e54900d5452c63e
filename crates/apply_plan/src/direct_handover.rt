ghost use Rattle.std.specs.Prelude.{◌≡◌, ◌+◌, ◌*◌, ◌≤◌, length, Ok, IfOk, find, is_none};
ghost use Rattle.kernel_model.specs.KernelState.{KernelState, writes};
ghost use Rattle.kernel_model.specs.Cases.{rise};
ghost use Rattle.apply_plan.specs.Holders.{IsSafe};
ghost use Rattle.apply_plan.specs.Targets.{holders_of, ArePlaced};
ghost use Rattle.apply_plan.specs.Leaves.{KeepsRest};
ghost use Rattle.apply_plan.specs.DueWrite.{must_move, HaveTargets};
ghost use Rattle.apply_plan.specs.MayWrite.{left_directly};
ghost use Rattle.apply_plan.specs.Directed.{Directed, IsDirected, Serves};
ghost use Rattle.apply_plan.specs.OnWay.{AreOnWay};
ghost use Rattle.apply_plan.specs.DirectWrite.{StepsDirectly, LowersDirectly, made_directly};
ghost use Rattle.apply_plan.specs.Squeezes.{SqueezesOnlyStuck};

use crate::direct::direct_write;
use crate::scan::{all_arrived, make_if_any};
use crate::{Cores, Entry, Progress};
use cpu_set::IdSet;
use kernel_model::{Kernel, KernelFault};
use std::alloc::{AllocError, Global};
use std::marker::Model;

/// Containers on their way to the CPUs that they are to have, each as directly as it can be (make before break,
/// parallel moves).
///
/// A container takes its target at once where no rival holds any of it. Where all that let go wait for each other, in
/// rings, one that others wait for gives way: it keeps what nobody asks for, takes what is free of its target, and runs
/// on spare CPUs that it is allowed, its places. Only where nobody in a ring can do so is one put on the reserved CPUs
/// for a while, as a temporary.
///
/// Of n entries a step looks at O(n). Where no target is free it notes who holds each CPU first, and looks up at the
/// CPUs that each lacks whom it waits for. One walk from each to the next tells then of all who stands in a ring, in
/// O(n) too.
#[derive(Debug, Drop)]
pub struct DirectHandover {
    entries: Vec<Entry>,
    allowed: Vec<IdSet>,
    reserved: IdSet,
    /// Room for who waits for whom.
    nexts: Vec<usize>,
    /// Room for who stands in a ring.
    marks: Vec<usize>,
}

impl Model for DirectHandover {
    ghost use Rattle.std.specs.Prelude.{◌≡◌, length};
    ghost use Rattle.apply_plan.specs.Directed.{Directed, directed_code, IsDirected};

    ghost Value = { Directed };

    ghost coded = { directed_code };

    ghost view = { λ h. record {
      targets = record { entries = h.entries.items; reserved = h.reserved };
      allowed = h.allowed.items;
    } };

    ghost invariant = { λ h. IsDirected (record {
      targets = record { entries = h.entries.items; reserved = h.reserved };
      allowed = h.allowed.items;
    }) × ((length h.nexts.items ≡ length h.entries.items) × (length h.marks.items ≡ length h.entries.items)) };
}

/// Makes the write that is due, or none.
fn make_direct<K: Kernel, C: Cores>(
    kernel: &mut K,
    cores: &C,
    reserved: &IdSet,
    entries: &[Entry],
    allowed: &[IdSet],
    nexts: &mut [usize],
    marks: &mut [usize],
) -> Result<Progress, KernelFault>
    requires placed { ArePlaced (K.state kernel.old) entries.now }
    requires valid { IsDirected (record {
      targets = record { entries = entries.now; reserved = reserved.now };
      allowed = allowed.now;
    }) }
    requires room { length nexts.old ≡ length entries.now }
    requires marked { length marks.old ≡ length entries.now }
    ensures step { StepsDirectly (record {
      targets = record { entries = entries.now; reserved = reserved.now };
      allowed = allowed.now;
    }) (C.least_of cores.now) (K.state kernel.old) result (K.state kernel.new) }
    ensures placed { ArePlaced (K.state kernel.new) entries.now }
    ensures serves { Serves (record {
      targets = record { entries = entries.now; reserved = reserved.now };
      allowed = allowed.now;
    }) (C.least_of cores.now) }
    ensures room { length nexts.new ≡ length entries.now }
    ensures marked { length marks.new ≡ length entries.now }
{
    cores.gives_least();
    let write = direct_write(&*kernel, cores, reserved, entries, allowed, nexts, marks);
    make_if_any(kernel, write)?;
    Ok(if all_arrived(&*kernel, entries, 0) {
        Progress::Done
    } else {
        Progress::More
    })
}

impl DirectHandover {
    /// A hand-over that is to bring each entry's container to its target. Beside each entry stands what its container
    /// is allowed, where it may run on its way.
    ///
    /// # Errors
    /// An allocation failure: there is room for two numbers for each entry, so that no step allocates.
    pub fn new(
        alloc: Global,
        entries: Vec<Entry>,
        allowed: Vec<IdSet>,
        reserved: IdSet,
    ) -> Result<DirectHandover, AllocError>
        requires { IsDirected (record {
          targets = record { entries = entries.items; reserved = reserved };
          allowed = allowed.items;
        }) }
        ensures { IfOk result (λ h. h ≡ record {
          targets = record { entries = entries.items; reserved = reserved };
          allowed = allowed.items;
        }) }
    {
        let nexts = vec![in alloc; 0usize; entries.len()]?;
        let marks = vec![in alloc; 0usize; entries.len()]?;
        Ok(DirectHandover {
            entries,
            allowed,
            reserved,
            nexts,
            marks,
        })
    }

    /// The containers with their targets, in the order in which they are looked through.
    pub fn entries(&self) -> &[Entry]
        ensures entries { result.now ≡ self.now.targets.entries }
        ensures valid { IsDirected self.now }
    {
        self.entries.as_slice()
    }

    /// The CPUs that stay with the system.
    pub fn reserved(&self) -> &IdSet
        ensures { result.now ≡ self.now.targets.reserved }
    {
        &self.reserved
    }

    /// What each container is allowed beside its target, in the order of the entries.
    pub fn allowed(&self) -> &[IdSet]
        ensures { result.now ≡ self.now.allowed }
    {
        self.allowed.as_slice()
    }

    /// Whether each live container holds its target.
    pub fn has_arrived<K: Kernel>(&self, kernel: &K) -> bool
        requires { ArePlaced (K.state kernel.now) self.now.targets.entries }
        ensures { result ≡ is_none (find (must_move (K.state kernel.now)) self.now.targets.entries) }
    {
        all_arrived(kernel, self.entries.as_slice(), 0)
    }

    /// Makes the write that is due, or none.
    fn step_body<K: Kernel, C: Cores>(
        &mut self,
        kernel: &mut K,
        cores: &C,
    ) -> Result<Progress, KernelFault>
        requires { ArePlaced (K.state kernel.old) self.old.targets.entries }
        ensures same { self.new ≡ self.old }
        ensures step { StepsDirectly self.old (C.least_of cores.now) (K.state kernel.old) result (K.state kernel.new) }
        ensures placed { ArePlaced (K.state kernel.new) self.old.targets.entries }
        ensures valid { IsDirected self.old }
        ensures serves { Serves self.old (C.least_of cores.now) }
    {
        let entries = self.entries.as_slice();
        let allowed = self.allowed.as_slice();
        let nexts = self.nexts.as_mut_slice();
        let marks = self.marks.as_mut_slice();
        make_direct(
            kernel,
            cores,
            &self.reserved,
            entries,
            allowed,
            nexts,
            marks,
        )
    }

    /// Makes the write that is due and no other, or none if none is due, and tells whether more are to come.
    ///
    /// Entries whose first process has ended are passed over. Allocates nothing.
    ///
    /// # Errors
    /// `Failed` where the write failed: it is counted, and nothing else changed; the hand-over may go on.
    pub fn step<K: Kernel, C: Cores>(
        &mut self,
        kernel: &mut K,
        cores: &C,
    ) -> Result<Progress, KernelFault>
        requires { ArePlaced (K.state kernel.old) self.old.targets.entries }
        ensures same { self.new ≡ self.old }
        // It answers `Done` exactly if nothing is due after it.
        ensures step { StepsDirectly self.old (C.least_of cores.now) (K.state kernel.old) result (K.state kernel.new) }
        // What was safe stays safe. Safe means that outside the reserved CPUs no CPU is requested for a live pinned
        // container and for another live one. Nor does any live container request none.
        ensures safe { IsSafe (K.state kernel.old) self.old.targets.reserved (holders_of self.old.targets.entries)
            → IsSafe (K.state kernel.new) self.old.targets.reserved (holders_of self.old.targets.entries) }
        // At `Done` each live container has its target.
        ensures done { result ≡ Ok Progress.Done → HaveTargets (K.state kernel.new) self.old.targets.entries }
        // At most two writes for each entry are left.
        ensures few { left_directly self.old.targets (K.state kernel.old) ≤ 2 * length self.old.targets.entries }
        // Each that succeeds makes them fewer, and one that fails does not.
        ensures lowers { LowersDirectly self.old (C.least_of cores.now) (K.state kernel.old) result (K.state kernel.new) }
        // It makes one writing call if a write is due, and else none.
        ensures made { writes (K.state kernel.new) ≡ writes (K.state kernel.old)
            + made_directly self.old (C.least_of cores.now) (K.state kernel.old) }
        // Each container requests none but what it did at first, its target, reserved CPUs and those that it is
        // allowed. It keeps all of its target that it requested at first.
        ensures on_way { (first : KernelState) → AreOnWay self.old first (K.state kernel.old)
            → AreOnWay self.old first (K.state kernel.new) }
        // One is put on the reserved CPUs alone only where it stands in a ring of which nobody can give way otherwise.
        ensures squeezes { SqueezesOnlyStuck self.old (C.least_of cores.now) (K.state kernel.old) (K.state kernel.new) }
        // A failure is counted.
        ensures counted { (K.state kernel.new).failures ≡ (K.state kernel.old).failures + rise result }
        // Nothing else in the kernel changes.
        ensures rest { KeepsRest self.old.targets (K.state kernel.old) (K.state kernel.new) }
        ensures placed { ArePlaced (K.state kernel.new) self.old.targets.entries }
    {
        self.step_body(kernel, cores)
    }
}
