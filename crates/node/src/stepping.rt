//! The hand-over that is open, write by write.
ghost use Rattle.std.specs.Prelude.{◌≡◌, ◌+◌, ◌*◌, ◌++◌, ◌≤◌, length, Some, OnErr};
ghost use Rattle.kernel_model.specs.KernelState.{writes};
ghost use Rattle.apply_plan.specs.DueWrite.{HaveTargets};
ghost use Rattle.apply_plan.specs.OnWay.{AreOnWay};
ghost use Rattle.apply_plan.specs.Squeezes.{SqueezesOnlyStuck};
ghost use Rattle.node.specs.LeastCores.{least_cores};
ghost use Rattle.node.specs.NodeState.{Ongoing};
ghost use Rattle.node.specs.Ongoing.{IsBroken};
ghost use Rattle.node.specs.Orders.{directed_of, left_of, FallsBy, made_by};
ghost use Rattle.node.specs.Rebalance.{StepsOn};
ghost use Rattle.node.specs.Told.{step_told};
ghost use Rattle.node.specs.Leaves.{rise_of};
ghost use Rattle.node.specs.declared.order.Order.TheVariants.{Directly};

use crate::{Node, NodeFault, Phase, Progress};
use kernel_model::Kernel;

impl<K: Kernel + Drop> Node<K> {
    /// Makes the write that is due.
    fn step_body(&mut self) -> Result<Progress, NodeFault>
        ensures steps { StepsOn self.old result self.new }
        ensures few { (o : Ongoing) → self.old.ongoing ≡ Some o
            → left_of o self.old.kernel ≤ 2 * length o.targets.entries }
    {
        let Some(mut ongoing) = self.ongoing.take() else {
            return Err(NodeFault::NoHandover);
        };
        match ongoing.course.step(&mut self.kernel, &self.machine) {
            Ok(Progress::More) => {
                self.ongoing = Some(ongoing);
                Ok(Progress::More)
            }
            Ok(Progress::Done) => {
                self.phase = Phase::Settled;
                Ok(Progress::Done)
            }
            Err(fault) => {
                self.phase = Phase::Unsettled;
                Err(NodeFault::Kernel(fault))
            }
        }
    }

    /// Makes the write of the open hand-over that is due and no other, or none if none is due, in the order in which it
    /// was begun. It tells whether more are to come. If none is, the hand-over has ended, and each of its live
    /// containers has what the plan gave it. Allocates nothing.
    ///
    /// # Errors
    /// `NoHandover`; or `Failed` of the kernel, which ends the hand-over: it is not tried again, and each container
    /// requests what it did at first, or what it keeps of that, or its target. In the direct order it requests what it
    /// may on its way: CPUs that it requested at first, of its target, reserved or allowed to it, and all of its target
    /// that it requested at first.
    pub fn step(&mut self) -> Result<Progress, NodeFault>
        ensures steps { StepsOn self.old result self.new }
        // At most two writes for each container are to come.
        ensures few { (o : Ongoing) → self.old.ongoing ≡ Some o
            → left_of o self.old.kernel ≤ 2 * length o.targets.entries }
        // Each that is made is one less; in the direct order it leaves one less, or fewer.
        ensures falls { result ≡ Ok Progress.More → (o : Ongoing) → self.old.ongoing ≡ Some o
            → FallsBy o.order o.targets self.old.kernel self.new.kernel }
        // If a write is due it makes just that writing call, and else none.
        ensures told { self.new.kernel.trace ≡ step_told self.old result ++ self.old.kernel.trace }
        ensures made { (o : Ongoing) → self.old.ongoing ≡ Some o
            → writes self.new.kernel ≡ writes self.old.kernel + made_by o.order self.old.machine o self.old.kernel }
        // After the last, each live container has what the plan gave it.
        ensures done { result ≡ Ok Progress.Done → (o : Ongoing) → self.old.ongoing ≡ Some o
            → HaveTargets self.new.kernel o.targets.entries }
        // In the direct order a container is put on the reserved CPUs alone only if it stands in a ring in which nobody
        // can give way otherwise.
        ensures squeezes { (o : Ongoing) → self.old.ongoing ≡ Some o → o.order ≡ Directly
            → SqueezesOnlyStuck (directed_of o) (least_cores self.old.machine) self.old.kernel self.new.kernel }
        // In the direct order it requests then none but CPUs that it did before it, of its target, reserved ones and
        // those that it is allowed. It keeps all of its target that it requested before it.
        ensures way { (o : Ongoing) → self.old.ongoing ≡ Some o → o.order ≡ Directly
            → AreOnWay (directed_of o) self.old.kernel self.new.kernel }
        // After a write that failed, each container requests what it did before, what it keeps of that, or what the
        // plan gave it; in the direct order what it may on its way. Nothing else changed in the kernel but what it
        // tells and counts, and the hand-over is over.
        ensures broken { OnErr result ((o : Ongoing) → self.old.ongoing ≡ Some o
            → IsBroken o self.old.kernel self.new.kernel) }
        ensures counted { self.new.kernel.failures ≡ self.old.kernel.failures + rise_of result }
    {
        self.holds();
        self.step_body()
    }
}
