//! What the calls of a modelled kernel keep, and when they are refused: laws over the definitions alone. Nothing here
//! runs.
ghost use Rattle.std.specs.Prelude.{◌≡◌, [], ◌∷◌};
ghost use Rattle.std.specs.FinSet as set;
ghost use Rattle.cpu_set.specs.Ids.{Ids};
ghost use Rattle.cpuset_tree.specs.Effective.{effective_cpus};
ghost use Rattle.cpuset_tree.specs.Groups.{requested_cpus};
ghost use Rattle.kernel_model.specs.Cases.{WritesCpus};
ghost use Rattle.kernel_model.specs.Laws.{EventsKeepGroups, WritesKeepProcesses, WritesKeepTree, WritesLeaveGroups};
ghost use Rattle.kernel_model.specs.Laws.{CallsLeaveProcesses, WritesCount, TellsEachWrite, CountsEachWrite, CallsAreFree};
ghost use Rattle.kernel_model.specs.Laws.{RefusalsHaveCauses};
ghost use Rattle.kernel_model.specs.Laws.{EachCaseKeeps, StepsKeep, RunsKeep, EmptyWhereNoGroup, FirstIsWellFormed};
ghost use Rattle.kernel_model.specs.KernelState.{KernelState, writes};
ghost use Rattle.kernel_model.specs.Trace.{WroteCpus};
ghost use Rattle.kernel_model.specs.Refusals.{fork_refusal, offline_refusal, remove_refusal, write_refusal};
ghost use Rattle.kernel_model.specs.Worked.{all_containers, numbered, root, small, web};
ghost use Rattle.kernel_model.specs.Names.{FirstHasOwnNames, StepsKeepNames, RunsKeepNames};

use crate::{KernelFault, LAST_PID};

/// What each call leaves of groups and processes, and that each write is told with what it returns.
pub fn cases()
    ensures events { EventsKeepGroups }
    ensures writes { WritesKeepProcesses }
    ensures tree { WritesKeepTree }
    ensures groups { WritesLeaveGroups }
    ensures processes { CallsLeaveProcesses }
    ensures count { WritesCount }
    ensures told { TellsEachWrite }
    ensures each { CountsEachWrite }
{}

/// When nothing stands against a call, and what does if it is refused.
pub fn refusals()
    ensures free { CallsAreFree }
    ensures causes { RefusalsHaveCauses }
{}

/// What each call and each list of calls keeps. No pid and no serial is given twice, and every process is in a group
/// that is there.
pub fn runs()
    ensures first { FirstIsWellFormed }
    ensures empty { EmptyWhereNoGroup }
    ensures case { EachCaseKeeps }
    ensures step { StepsKeep }
    ensures run { RunsKeep }
{}

/// No two children of a group have one name, in a new kernel and after any list of calls.
pub fn names()
    ensures first { FirstHasOwnNames }
    ensures step { StepsKeepNames }
    ensures run { RunsKeepNames }
{}

/// Worked rows: what calls of a small kernel answer and change, the definitions evaluated.
pub fn worked()
    ensures in_effect { (new : KernelState) → WritesCpus small web (set.from_list (1 ∷ 2 ∷ 4 ∷ [])) (Ok tt) new
        → effective_cpus new.tree web ≡ set.from_list (1 ∷ 2 ∷ []) }
    ensures none_online { (new : KernelState) → WritesCpus small web (set.from_list (4 ∷ [])) (Ok tt) new
        → effective_cpus new.tree web ≡ set.from_list (0 ∷ 1 ∷ 2 ∷ 3 ∷ []) }
    ensures counted { (cpus : Ids) (new : KernelState) → WritesCpus small web cpus (Ok tt) new
        → (requested_cpus new.tree web ≡ cpus) × (writes new ≡ 1) × (new.failures ≡ 0) }
    ensures failed { (cpus : Ids) (new : KernelState) → WritesCpus small web cpus (Err KernelFault.Failed) new
        → (new.tree ≡ small.tree) × (writes new ≡ 1) × (new.failures ≡ 1) }
    ensures told { (new : KernelState) → WritesCpus small web (set.from_list (1 ∷ [])) (Err KernelFault.Failed) new
        → new.trace ≡ WroteCpus web (set.from_list (1 ∷ [])) (Err KernelFault.Failed) ∷ [] }
    ensures root_written { write_refusal small root ≡ Some KernelFault.IsRoot }
    ensures not_there { write_refusal small (numbered 3) ≡ Some KernelFault.NoGroup }
    ensures has_children { remove_refusal small all_containers ≡ Some KernelFault.HasChildren }
    ensures has_processes { remove_refusal small web ≡ Some KernelFault.HasProcesses }
    ensures no_process { fork_refusal small 3 ≡ Some KernelFault.NoProcess }
    ensures reserved { offline_refusal small 0 ≡ Some KernelFault.Reserved }
    ensures no_cpu { offline_refusal small 5 ≡ Some KernelFault.NoCpu }
    ensures goes { offline_refusal small 1 ≡ None }
{}

/// Each pid is at most 4,194,303.
pub fn the_limits()
    ensures pids { LAST_PID ≡ 4_194_303 }
{}
