//! What a run leaves, how the next one takes it up, and how runs take turns: laws over the definitions alone.
ghost use Rattle.std.specs.Prelude.{◌≡◌, true, false, [], ◌∷◌};
ghost use Rattle.kernel_model.specs.KernelState.{KernelState};
ghost use Rattle.restarts.specs.Ends.{EndsAreLeft};
ghost use Rattle.restarts.specs.Files.{FilesNameCpus, MomentsStand};
ghost use Rattle.restarts.specs.Left.{left_in};
ghost use Rattle.restarts.specs.Locks.{RunsBeginLocked, RunsTakeTurns, calls_by, gets_lock, has_lock};
ghost use Rattle.restarts.specs.Restarts.{PlacesWriteOwn, RestartsGoOn};
ghost use Rattle.restarts.specs.Taking.{NoneIsRefused, OnlyPinnedSince, RebalancesGoOn, TriesRestart};
ghost use Rattle.restarts.specs.Worked.{folder, in_turn, lock, write};

use cgroup_tree::GroupTrees;

/// What a run leaves, wherever it ends: each container that lives requests some CPUs of the machine. If one of two
/// asked for CPUs of its own, they have none but reserved ones together. The kernel's states behind each single call
/// are among these ends (`ends`).
///
/// However many runs there were, each of which first took up what the one before it left, the last one leaves that
/// too (`again`). One that ends while it does leaves each file as it was: an `adopt` writes CPUs into the file of its
/// id alone, and there those that it was given (`own`).
pub fn what_runs_leave()
    ensures ends { EndsAreLeft }
    ensures own { PlacesWriteOwn }
    ensures again { RestartsGoOn }
{
    node::laws::runs();
    node::laws::each_create();
    node::laws::each_update();
    runtime::laws::booted_nodes();
}

/// What a new run makes of that. It tries to take up each container with its CPUs and a config that asks as before,
/// in any order and as often as it will.
///
/// None that is not there yet is refused: an allocation may fail, or a write, or there is no pid or no serial left
/// (`none`). It is refused a CPU only if its config asks for CPUs of its own by now and did not before, and then
/// nothing changes (`pinned`).
///
/// Whatever the answers were, the node is safe, and its containers request just what the files have (`leaves`). The
/// next rebalance starts from there (`goes_on`).
pub fn restarts()
    ensures leaves { TriesRestart }
    ensures none { NoneIsRefused }
    ensures pinned { OnlyPinnedSince }
    ensures goes_on { RebalancesGoOn }
{
    node::laws::runs();
    node::laws::each_create();
    node::laws::each_rebalance();
    runtime::laws::booted_nodes();
}

/// At each moment in the midst of a call of the kernel, the files stand for what is requested before it or after it
/// (`moments`), if they do what they answer and nobody else writes. The text of a file is a list and a line feed, and
/// an `adopt` with that list is one with the CPUs that the group requests (`names`).
pub fn files()
    ensures moments { MomentsStand }
    ensures names { FilesNameCpus }
{
    cpu_list::laws::canonical_texts();
    cpu_list::laws::first_faults();
}

/// Of two runs that begin with the lock of one folder all calls of the one come before those of the other, if locks do
/// what they answer (`turns`). Each run whose root is taken begins with it: what the root was opened by does, and so
/// does that with whatever was asked behind it (`begin`).
pub fn locks<T: GroupTrees>()
    ensures turns { RunsTakeTurns }
    ensures begin { (trees : T) → RunsBeginLocked (T.finds trees) }
{}

/// Worked rows: the definitions, evaluated.
pub fn worked()
    ensures nobody { (k : KernelState) → left_in k [] ≡ [] }
    ensures of_the_first { calls_by true in_turn ≡ lock ∷ write ∷ [] }
    ensures locked { gets_lock folder lock ≡ true }
    ensures written { gets_lock folder write ≡ false }
    ensures has { has_lock folder true ((true, lock) ∷ []) ((true, write) ∷ []) ≡ true }
    ensures has_no_more { has_lock folder true ((true, lock) ∷ (true, write) ∷ []) ((false, write) ∷ []) ≡ false }
{}
