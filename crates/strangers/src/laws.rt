//! What a script beside strangers gives to whom, and what it says of the runtime within: laws over the definitions
//! alone. Nothing here runs.
ghost use Rattle.runtime.specs.Found.{IsSeen};
ghost use Rattle.strangers.specs.KeptOff.{PlansKeepOff, RebalancesAwayAreTold, RequestsKeepOff, StrangersStay};
ghost use Rattle.strangers.specs.Told.{GuardedAreTold};
ghost use Rattle.strangers.specs.Within.{LinesAreWithin, ScriptsAreWithin};

use runtime::Bundles;

/// No plan gives a CPU that a stranger holds to anybody. If the text that answers a `rebalance` or a `begin` begins as
/// a plan's does, it is a plan's, and none of its sets has such a CPU, nor has its pool. Reserved CPUs are in no set;
/// the pool has them in any case (`plans`).
///
/// Behind a `rebalance` that answers a plan no live container requests such a CPU, so nobody has one when they are
/// online again (`requests`).
///
/// A stranger stays one, with all the CPUs that its file held at the start, until a line lets go of its folder or asks
/// for a container of its name (`stay`).
///
/// A rebalance leaves what the headline says, of the machine without these CPUs, with what the certificate tells and
/// what a failed write leaves (`rebalances`).
pub fn plans_keep_off<B: Bundles>()
    ensures plans { PlansKeepOff (IsSeen B.finds) }
    ensures requests { RequestsKeepOff (IsSeen B.finds) }
    ensures stay { StrangersStay (IsSeen B.finds) }
    ensures rebalances { RebalancesAwayAreTold (IsSeen B.finds) }
{
    node::laws::each_rebalance();
    node::laws::runs();
    node::laws::standing_plans();
    script::laws::cpu_lines();
}

/// However a script beside strangers ends, the kernel was asked for just the writing calls that its lines stand for,
/// line by line, in order and with their answers (`told`). What a line that plans or moves stands for is made while the
/// CPUs that strangers hold are offline; that they go and come asks for no write. A `forget` stands for none.
///
/// Whatever lines were answered beside strangers, the runtime within answered the lines that they stand for, each by
/// its own text (`lines`). Each line is itself. One that plans or moves has a line `offline CPU` before it and a line
/// `online CPU` behind it, of each CPU that is withheld, answered by `ok`. A `forget` of a stranger is none. So it is
/// with all of them together, and with each: what a line stands for led from what there was before it to what there was
/// behind it. So each law of `runtime` on lines holds.
///
/// So it is however a script ends (`scripts`).
pub fn scripts_within<B: Bundles>()
    ensures told { GuardedAreTold (IsSeen B.finds) }
    ensures lines { LinesAreWithin (IsSeen B.finds) }
    ensures scripts { ScriptsAreWithin (IsSeen B.finds) }
{
    node::laws::runs();
    script::laws::cpu_lines();
}
