//! A hand-over in the order in which it was begun.
ghost use Rattle.std.specs.Prelude.{◌≡◌, List};
ghost use Rattle.cpu_set.specs.Ids.{Ids};
ghost use Rattle.apply_plan.specs.Holders.{IsSafe};
ghost use Rattle.apply_plan.specs.Targets.{holders_of, ArePlaced};
ghost use Rattle.node.specs.Orders.{StepsBy, FinishesBy};
ghost use Rattle.node.specs.Viewed.{targets_seen, order_seen, seen_by};

use crate::places::PlaceCores;
use apply_plan::{DirectHandover, Handover, Progress};
use direct_finish::{Agenda, finish_directly};
use kernel_model::{Kernel, KernelFault};
use machine::Machine;

/// A hand-over, by its order.
#[derive(Drop)]
pub enum Course {
    /// All let go first.
    InTurn(Handover),
    /// Each as directly as it can. Beside it is room to note whom to try next, where all writes are made at once.
    Directly(DirectHandover, Agenda),
}

impl Course {
    /// Makes the write that is due and no other, or none if none is due.
    pub fn step<K: Kernel>(
        &mut self,
        kernel: &mut K,
        machine: &Machine,
    ) -> Result<Progress, KernelFault>
        requires { ArePlaced (K.state kernel.old) (targets_seen self.old).entries }
        ensures same { self.new ≡ self.old }
        ensures step { (found : List Ids) → StepsBy (order_seen self.old) machine.now (seen_by self.old found)
            (K.state kernel.old) result (K.state kernel.new) }
    {
        match self {
            Course::InTurn(handover) => handover.step(kernel),
            Course::Directly(handover, _) => handover.step(kernel, &PlaceCores { machine }),
        }
    }

    /// Makes all writes that are to come, up to the first that fails.
    pub fn finish<K: Kernel>(
        &mut self,
        kernel: &mut K,
        machine: &Machine,
    ) -> Result<(), KernelFault>
        requires placed { ArePlaced (K.state kernel.old) (targets_seen self.old).entries }
        requires safe { IsSafe (K.state kernel.old) (targets_seen self.old).reserved (holders_of (targets_seen self.old).entries) }
        ensures { (found : List Ids) → FinishesBy (order_seen self.old) machine.now (seen_by self.old found)
            (K.state kernel.old) result (K.state kernel.new) }
    {
        match self {
            Course::InTurn(handover) => handover.finish(kernel),
            Course::Directly(handover, agenda) => {
                finish_directly(handover, kernel, &PlaceCores { machine }, agenda)
            }
        }
    }
}
