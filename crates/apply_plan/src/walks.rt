//! All writes of a hand-over, in two walks over its entries.
ghost use Rattle.apply_plan.specs.Targets.{IsHandover, IsPlaced, ArePlaced};
ghost use Rattle.apply_plan.specs.DueWrite.{must_release};
ghost use Rattle.apply_plan.specs.Walks.{its_release, its_move, IsMadeIfAny, NoneMust, LetsGo, TakesTargets};

use crate::scan::{make_if_any, move_of, release_of};
use crate::{Entry, Handover};
use kernel_model::{Kernel, KernelFault};

/// Gives one container its target, where it does not hold that.
fn take_target<K: Kernel>(kernel: &mut K, entry: &Entry) -> Result<(), KernelFault>
    requires { IsPlaced (K.state kernel.old) entry.now.group }
    ensures { IsMadeIfAny (its_move (K.state kernel.old) entry.now) (K.state kernel.old) result (K.state kernel.new) }
{
    make_if_any(kernel, move_of(&*kernel, entry))
}

impl Handover {
    /// Lets one container go of what it is not to have, where it holds any of that.
    fn let_go<K: Kernel>(&self, kernel: &mut K, entry: &Entry) -> Result<(), KernelFault>
        requires { IsPlaced (K.state kernel.old) entry.now.group }
        ensures { IsMadeIfAny (its_release (K.state kernel.old) self.now.reserved entry.now) (K.state kernel.old) result
            (K.state kernel.new) }
    {
        make_if_any(kernel, release_of(&*kernel, &self.reserved, entry))
    }

    /// Lets each container go of what it is not to have, up to the first write that fails.
    pub(crate) fn let_all_go<K: Kernel>(&self, kernel: &mut K) -> Result<(), KernelFault>
        requires { ArePlaced (K.state kernel.old) self.now.entries }
        ensures lets_go { LetsGo self.now (K.state kernel.old) result (K.state kernel.new) }
        ensures valid { IsHandover self.now }
    {
        for entry in self.entries() {
            self.let_go(kernel, entry)?;
        }
        Ok(())
    }

    /// Gives each container its target, once none must let go, up to the first write that fails.
    pub(crate) fn take_all_targets<K: Kernel>(&self, kernel: &mut K) -> Result<(), KernelFault>
        requires placed { ArePlaced (K.state kernel.old) self.now.entries }
        requires keep { NoneMust (must_release (K.state kernel.old) self.now.reserved) self.now.entries }
        ensures { TakesTargets self.now (K.state kernel.old) result (K.state kernel.new) }
    {
        for entry in self.entries() {
            take_target(kernel, entry)?;
        }
        Ok(())
    }
}
