//! What holds over all runs of a node, the headline first of all: laws over the definitions alone. Nothing here runs.
ghost use Rattle.std.specs.Prelude.{◌≡◌, true, false, [], ◌∷◌, codes};
ghost use Rattle.faults.specs.declared.OrMemory.TheVariants.{Fault};
ghost use Rattle.kernel_model.specs.declared.KernelFault.TheVariants.{Failed};
ghost use Rattle.node.specs.Asking.{RowsAreAsking, ScaledRowsAreAsking, ShortStands};
ghost use Rattle.node.specs.Calls.{is_ending};
ghost use Rattle.node.specs.Disturbs.{RebalancesWriteLittle};
ghost use Rattle.node.specs.Ending.{HandoversEnd};
ghost use Rattle.node.specs.FaultTitle.{node_title};
ghost use Rattle.node.specs.Machine.{Ask, Step, FirstIsNode, RunsKeep, RunsStaySafe, RunsStayApart};
ghost use Rattle.node.specs.Machine.{RebalancesAreWrites, RebalancesAreSteps, DirectWritesKeep, RunsRebalance};
ghost use Rattle.node.specs.Making.{PlacesAreCalls, PlacesFailLate, PlacesStaySafe, UpdatesAreCalls, UpdatesFail};
ghost use Rattle.node.specs.Making.{UpdatesStaySafe};
ghost use Rattle.node.specs.NodeState.{NodeState};
ghost use Rattle.node.specs.Proved.{LastIsProved, TotalIsProved, ShortIsProved};
ghost use Rattle.node.specs.Questions.{Answers, ListAll, PhaseIs, SetsOf};
ghost use Rattle.node.specs.Retries.{failed_in, RetriesEnd};
ghost use Rattle.node.specs.Said.{ContainersAreSaid};
ghost use Rattle.node.specs.Served.{RunsServeConfigs};
ghost use Rattle.node.specs.Standing.{requested_sets, StandingPlansAreKept, AnsweredPlansStand, SecondsKeepPlans};
ghost use Rattle.node.specs.Status.{status_by};
ghost use Rattle.node.specs.WithoutCores.{WithoutCores};
ghost use Rattle.node.specs.declared.outcome.Outcome.TheVariants.{Plan};
ghost use Rattle.node.specs.Told.{EventsAreTold, RunsAreTold};
ghost use Rattle.node.specs.UnusedLemmas.{FirstIsUnused, FirstIsOfMachine, FirstWantsMemory};

use crate::{CONTAINER_LIMIT, GROUP_NAME, NodeFault, Status};

/// A node can be made over every new `ModelKernel` of the machine. That is a kernel of which nothing was asked yet, and
/// which has the machine's CPUs and nodes. An allocation failure is all that can stand against one if no write of the
/// kernel fails.
pub fn first_kernels()
    ensures unused { FirstIsUnused }
    ensures machine { FirstIsOfMachine }
    ensures memory { FirstWantsMemory }
{}

/// What holds of a node holds of a new one, and after any list of its calls and of the kernel's events, of plain
/// values. All their refusals are among them, and the calls that only read. What is safe is safe after each of them.
///
/// A rebalance which hands over leaves what `begin` and single writes leave (`single`). What is safe is safe after each
/// of these, and so wherever a write fails. In turn they are those of steps (`steps`). In the direct order each
/// squeezes onto the reserved CPUs only who is stuck in a ring, and each container keeps what it has of its target
/// (`direct`). After each write of `create` and of `adopt` what is safe is safe by [`each_create`], and of `update` by
/// [`each_update`]. Each other call makes at most one.
///
/// A container asks for what the config says that was read for it last. The event that made it read that, a `create` or
/// an `adopt`; or an `update` did behind that one. No event after it that was not refused read another for its id.
/// Whether it can be started is what the config says with which it was made (`said`).
///
/// If each live container then requests an online CPU, the sets in effect are safe as the requested ones are (`apart`).
pub fn runs()
    ensures first { FirstIsNode }
    ensures keep { RunsKeep }
    ensures safe { RunsStaySafe }
    ensures apart { RunsStayApart }
    ensures single { RebalancesAreWrites }
    ensures steps { RebalancesAreSteps }
    ensures direct { DirectWritesKeep }
    ensures said { ContainersAreSaid }
{}

/// A hand-over that is stepped ends within two steps for each container, whatever calls and events fall between them.
/// One of no container ends with its first step.
pub fn each_handover()
    ensures { HandoversEnd }
{}

/// A `create` or an `adopt`, whatever it returns, is single calls of the kernel. What is safe is safe after each of
/// them.
///
/// The kernel refuses it only if a write fails, which is counted, or if no serial for a new group or no pid is left.
pub fn each_create()
    ensures single { PlacesAreCalls }
    ensures safe { PlacesStaySafe }
    ensures late { PlacesFailLate }
{}

/// An `update`, whatever it returns, is single calls of the kernel, two at most. What is safe is safe after each of
/// them. If a write fails, the container asks for what it did, and requests what it did or the reserved CPUs.
pub fn each_update()
    ensures single { UpdatesAreCalls }
    ensures safe { UpdatesStaySafe }
    ensures fails { UpdatesFail }
{}

/// The headline: what a rebalance leaves, after any list of calls and events. With it stand what the certificate tells
/// of that and what is left if a write failed.
///
/// After a plan each live container has exactly the CPUs that it asked for, of whole cores, all allowed and none
/// shared. No plan undercuts their total distance to the home nodes, and among all plans of that total none moves fewer
/// cores. What the kernel has in effect is that plan, and the pool is the online CPUs that it leaves.
///
/// A shortage names containers that together ask for more CPUs than the whole cores that they may have offer.
pub fn each_rebalance()
    ensures { RunsRebalance }
{}

/// A plan that stands is kept. If what the live containers' groups request is a plan of least distance already, with
/// the pool for the shared ones, a rebalance asks nothing of the kernel, moves nobody and answers that distance
/// (`kept`). That is said where no hand-over is open, and an allocation failure is all that can keep it from that. It
/// doesn't matter who wrote the sets, so what was adopted with those of a least plan stays as it is.
///
/// Such a plan stands once a rebalance answered it (`stands`), so a second rebalance in a row writes nothing
/// (`second`).
pub fn standing_plans()
    ensures kept { StandingPlansAreKept }
    ensures stands { AnsweredPlansStand }
    ensures second { SecondsKeepPlans }
{}

/// How often a rebalance to a plan writes one live container, in either order. One that requests what the plan gives it
/// is not written at all. One that lets nothing go but reserved CPUs, as it only gets more, is written once at most. So
/// is one that only lets go, none of them reserved. No other is written more than twice, and nobody else's group is.
pub fn each_write()
    ensures { RebalancesWriteLittle }
{}

/// What the kernel was asked for. Whatever a call of a node answers, its relation names the writing calls that it made,
/// and the kernel was asked for no others in it; an event of the kernel makes none (`told`). So by any list of calls
/// and events the kernel was asked for just those of each, one after another, in their order and with their answers
/// (`runs`).
pub fn each_call()
    ensures told { EventsAreTold }
    ensures runs { RunsAreTold }
{}

/// Retries end. If no hand-over is open and n writes fail in all, then of n + 1 rebalances in a row one answers: a
/// plan, a shortage, or that an allocation failed. However many there are, at most 2 (n + 1) writes for each live
/// container succeed.
pub fn retries()
    ensures { RetriesEnd }
{}

/// What a plan gives to a container, by the config that was read for it last. It holds after any list of calls and
/// events from a node of no container on.
///
/// If the config asks for CPUs of its own, the container has as many in effect, of whole cores, all allowed by it and
/// online. Else it has the pool, which is not empty.
pub fn what_configs_get()
    ensures { RunsServeConfigs }
{}

/// Whose the rows of a node's problem are: each is a live pinned container's, in their order. A row says for each core
/// how far it is and whether it moves. A shortage of the rows is one of these containers.
pub fn whose_rows()
    ensures rows { RowsAreAsking }
    ensures scaled { ScaledRowsAreAsking }
    ensures short { ShortStands }
{}

/// If each core has one CPU, as on a machine that tells no cores, each set is whole, the certificate names CPUs, and
/// CPUs move.
pub fn without_cores()
    ensures { WithoutCores }
{}

/// The text of what a node worked out last proves its verdict to whoever checks it.
///
/// After a plan that is a distance, with how many cores the sets in effect moved. The total that was answered is that
/// distance, for each CPU that a core has (`total`). After a shortage it is how many cores are asked for and how many
/// there are, and what was answered is their CPUs (`short`).
pub fn certificates_prove()
    ensures last { LastIsProved }
    ensures total { TotalIsProved }
    ensures short { ShortIsProved }
{
    certificate_text::laws::written_texts_are_read();
}

/// There are at most 1,024 containers, and the group below which they have theirs is `numarun`.
pub fn the_limits()
    ensures containers { CONTAINER_LIMIT ≡ 1_024 }
    ensures name { GROUP_NAME.now ≡ codes "numarun" }
{}

/// Worked rows of docs/formats.md, "Scripts" and "Refusals": the definitions, evaluated.
pub fn worked()
    ensures ends { is_ending (codes "SIGTERM") ≡ true }
    ensures ends_by_number { is_ending (codes "9") ≡ true }
    ensures does_not_end { is_ending (codes "HUP") ≡ false }
    ensures created { status_by true false ≡ Status.Created }
    ensures running { status_by true true ≡ Status.Running }
    ensures stopped { status_by false true ≡ Status.Stopped }
    ensures question { (n : NodeState) → Step n (Ask (PhaseIs n.phase)) n }
    ensures nobody { (n : NodeState) → Answers (record n { containers = [] }) (ListAll []) }
    ensures unknown { (n : NodeState)
        → Answers (record n { containers = [] }) (SetsOf (codes "a") (Err NodeFault.NoContainer)) }
    ensures nobody_asks { (n : NodeState) → requested_sets (record n { containers = [] }) ≡ [] }
    ensures one_failed { failed_in (Err (Fault (NodeFault.Kernel Failed)) ∷ Ok (Plan 3) ∷ []) ≡ 1 }
    ensures refused { node_title NodeFault.NotRunnable ≡ codes "E96 NotRunnable" }
{}
