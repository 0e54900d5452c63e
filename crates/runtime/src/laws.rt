//! What a script's answers say of the node: laws over the definitions alone. Nothing here runs.
ghost use Rattle.std.specs.Prelude.{◌≡◌, ℕ, List, [], ◌∷◌, codes};
ghost use Rattle.machine.specs.Layout.{Layout};
ghost use Rattle.certificate.specs.declared.certificates.Certificate.TheVariants.{Short};
ghost use Rattle.node.specs.Machine.{Ask, Start, Fork};
ghost use Rattle.node.specs.NodeState.{NodeState};
ghost use Rattle.node.specs.Questions.{ListAll, PhaseIs, SetsOf};
ghost use Rattle.runtime.specs.Boots.{BootsNodes};
ghost use Rattle.runtime.specs.CertificatesTold.{CertificatesAreTold};
ghost use Rattle.runtime.specs.ConfigsServed.{ScriptsServeConfigs};
ghost use Rattle.runtime.specs.Found.{IsFound, IsSeen};
ghost use Rattle.runtime.specs.LooksTold.{LooksAreTold};
ghost use Rattle.runtime.specs.OutcomeTexts.{container_lines, first_line};
ghost use Rattle.runtime.specs.Partition.{PartitionsKeepOthersOff};
ghost use Rattle.runtime.specs.RefusalLine.{refusal_line};
ghost use Rattle.runtime.specs.ScriptLaws.{BegunAreTold, BegunShortAreTold, CommandsAreCalls, LinesAreCalls};
ghost use Rattle.runtime.specs.ScriptLaws.{PlansAreTold, RebalancesAreTold, ScriptsRebalance, ShortagesAreTold};
ghost use Rattle.runtime.specs.ScriptLaws.{event_text};
ghost use Rattle.runtime.specs.ScriptTold.{BootsAreTold, ScriptsAreTold};

use crate::{Bundles, FIRST_PID, Refusal};
use certificate::Weights;
use config_json::{ConfigFault, Field};
use cpu_list::ListErrorKind;
use node::{NodeFault, Outcome, Phase, Status};

/// The text which answers a command is that of the call or event that it asks for. For a `create`, an `adopt` or an
/// `update` that is the call with the config that is found of its bundle. It holds of calls that only read too. The
/// exception is one of these that is refused with no call. Its bundle is not found, an allocation for its config
/// failed, or the list of an `adopt` names no CPUs. A `forget` is refused with no call too.
///
/// So the answered lines of a script are a list of calls and events of the node, at most one a line. What they print is
/// the texts of these, with the refusals of the lines that make none.
pub fn lines_are_calls()
    ensures commands { CommandsAreCalls IsFound }
    ensures lines { LinesAreCalls IsFound }
{}

/// The headline, with `told` and `broken`, for the text that answers a `rebalance`, whatever lines were answered before
/// it. So it holds for each line of a whole script that asks for one.
///
/// A text that begins as a plan's does is a plan's, and one that begins as a shortage's does is a shortage's. So after
/// a line that answers `plan total N` no sets of that total which the containers could have move fewer CPUs.
///
/// An answer to `begin` that begins so is the text of a plan too, the best that the containers could have. Its
/// hand-over is open, and nothing is written yet. One that begins as a shortage's does is the text of a shortage of
/// live containers that ask for CPUs of their own.
pub fn rebalances_are_told()
    ensures told { RebalancesAreTold }
    ensures plans { PlansAreTold }
    ensures shortages { ShortagesAreTold }
    ensures scripts { ScriptsRebalance }
    ensures begun { BegunAreTold }
    ensures begun_short { BegunShortAreTold }
{
    node::laws::each_rebalance();
    node::laws::whose_rows();
}

/// What is answered by what looks at bundles may find is answered as the laws here have it, by what is told of the
/// bundles.
pub fn looks_are_told<B: Bundles>()
    ensures { LooksAreTold B.finds }
{}

/// The headline and the configs in one statement, by a script's lines and the bundles' bytes, of any bundles: those
/// that are told, and those whose config is what a look at them may find, as the bytes of a file in a folder. It
/// speaks of each line that asks for a `rebalance`, from a node of no container on.
///
/// After a plan each live container has in effect as many CPUs as its config asks for, or the pool. Those that it asks
/// for are online, and the config allows them. An earlier line asked for the container with its bundle, or for its
/// config to be read again. The config is what is found of that bundle, and of the calls that the lines made none read
/// one for the container later (`last`).
pub fn scripts_serve_configs<B: Bundles>()
    ensures { ScriptsServeConfigs B.finds }
{
    node::laws::each_rebalance();
    node::laws::what_configs_get();
}

/// However a script ends, the kernel was asked for just the writing calls that its lines stand for, line by line, in
/// order and with their answers (`lines`). A line that only reads, that tells an event or that is refused with no call
/// stands for none. Before the first line the kernel was asked to make the group of all containers, and for nothing
/// else (`first`).
pub fn scripts_are_told<B: Bundles>()
    ensures lines { ScriptsAreTold (IsSeen B.finds) }
    ensures first { BootsAreTold }
{}

/// The text that answers `certificate` proves the verdict on what was told last. Of a plan that is its total, and how
/// many cores it moves. Of a shortage it is its numbers.
///
/// Both are by cores: the numbers that were answered, divided by how many CPUs a core has. If a `rebalance` failed at a
/// write since then, nothing was told.
pub fn certificates_are_told()
    ensures { CertificatesAreTold }
{
    node::laws::each_rebalance();
    node::laws::runs();
    node::laws::certificates_prove();
}

/// All these laws hold of a node from the beginning, on a sound machine.
pub fn booted_nodes()
    ensures { BootsNodes }
{
    node::laws::first_kernels();
    node::laws::runs();
    kernel_model::laws::runs();
}

/// While ROOT is a valid partition root, no group outside it has in effect a CPU that a container has, whatever any
/// group requests. The kernel's rule is the premise: the groups outside are in trees of their own, whose roots have
/// none of ROOT's CPUs. No call, path or file occurs in it. So it holds of any state of a node: after each call and
/// event, and at each point of a hand-over.
///
/// It speaks of what groups have in effect. What is bound to a CPU itself, as a kernel thread or an interrupt, runs
/// there all the same.
pub fn partitions()
    ensures { PartitionsKeepOthersOff }
{
    cgroup_tree::laws::partitions();
}

/// The first process of a modelled kernel gets the pid 2.
pub fn the_limits()
    ensures first_pid { FIRST_PID ≡ 2 }
{}

/// Worked rows of docs/formats.md, "Scripts" and "Refusals": the definitions, evaluated.
pub fn worked()
    ensures done { (n : NodeState) (id : List ℕ) → event_text n (Start id (Ok tt)) ≡ codes "ok\n" }
    ensures pid { (n : NodeState) → event_text n (Fork 2 (Ok 3)) ≡ codes "pid 3\n" }
    ensures phase { (n : NodeState) → event_text n (Ask (PhaseIs Phase.Underway)) ≡ codes "underway\n" }
    ensures listed { (n : NodeState)
        → event_text n (Ask (ListAll ((codes "a", Status.Running) ∷ (codes "b", Status.Stopped) ∷ [])))
        ≡ codes "a running\nb stopped\nend\n" }
    ensures unknown { (n : NodeState) → event_text n (Ask (SetsOf (codes "c") (Err NodeFault.NoContainer)))
        ≡ codes "refused E94 NoContainer\n" }
    ensures not_free { refusal_line (Refusal.Node (NodeFault.NotFree 5)) ≡ codes "refused E104 NotFree 5\n" }
    ensures bad_set { refusal_line (Refusal.BadSet (record { at = 0; kind = ListErrorKind.Descending }))
        ≡ codes "refused E102 BadSet E12 0\n" }
    ensures no_stranger { refusal_line Refusal.NoStranger ≡ codes "refused E105 NoStranger\n" }
    ensures bad_field { refusal_line (Refusal.Node (NodeFault.Config (ConfigFault.BadField Field.Quota)))
        ≡ codes "refused E60 BadField linux.resources.cpu.quota\n" }
    ensures total { first_line (Outcome.Plan 0) ≡ codes "plan total 0\n" }
    ensures members { (m : Layout)
        → container_lines m (Short (record { id = codes "a"; demand = 2; offers = [] }
        ∷ record { id = codes "b"; demand = 1; offers = [] } ∷ []) (0 ∷ 1 ∷ []) Weights.WithMoves)
        ≡ codes "member a\nmember b\n" }
{}
