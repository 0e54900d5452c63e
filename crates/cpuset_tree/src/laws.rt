//! What changes of a tree of groups leave and keep: laws over the definitions alone. Nothing here runs.
ghost use Rattle.std.specs.Prelude.{◌≡◌, [], ◌∷◌, codes};
ghost use Rattle.std.specs.FinSet as set;
ghost use Rattle.cpuset_tree.specs.Effective.{effective_cpus, effective_mems};
ghost use Rattle.cpuset_tree.specs.Groups.{child_of, requested_cpus};
ghost use Rattle.cpuset_tree.specs.TreeAnswers.{make_refusal, remove_refusal, write_refusal};
ghost use Rattle.cpuset_tree.specs.TreeChanges.{with_online};
ghost use Rattle.cpuset_tree.specs.TreeLaws.{SameIsEqual, EntryIsOwn, RootIsThere, ParentIsThere, NoParentNoChildren};
ghost use Rattle.cpuset_tree.specs.TreeLaws.{GrantsAll};
ghost use Rattle.cpuset_tree.specs.TreeLaws.{GrantsWithin, TwoBelowRoot, SerialIsGiven, WritesLeavePlaces};
ghost use Rattle.cpuset_tree.specs.TreeLaws.{SerialsGivenOnce};
ghost use Rattle.cpuset_tree.specs.TreeLaws.{CpusWritten, MemsWritten, WritesRequest, AddedLeaves, RemovedLeaves};
ghost use Rattle.cpuset_tree.specs.TreeLaws.{FoundIsChild};
ghost use Rattle.cpuset_tree.specs.TreeLaws.{ChangesStayWellFormed, FirstIsWellFormed, WellFormedRunsUp};
ghost use Rattle.cpuset_tree.specs.Worked.{root, all_containers, web, batch, numbered, requested};

use crate::{SERIAL_LIMIT, TreeFault};

/// What each change leaves of a tree, whatever the call answers. No serial is given twice.
pub fn changes()
    ensures cpus { CpusWritten }
    ensures mems { MemsWritten }
    ensures requests { WritesRequest }
    ensures places { WritesLeavePlaces }
    ensures added { AddedLeaves }
    ensures removed { RemovedLeaves }
    ensures found { FoundIsChild }
    ensures serials { SerialsGivenOnce }
{}

/// What holds of each tree that calls can make.
pub fn well_formed()
    ensures first { FirstIsWellFormed }
    ensures stays { ChangesStayWellFormed }
    ensures path { WellFormedRunsUp }
    ensures root { RootIsThere }
    ensures parents { ParentIsThere }
    ensures childless { NoParentNoChildren }
    ensures serial { SerialIsGiven }
    ensures below { TwoBelowRoot }
{}

/// What holds of all groups, entries and sets.
pub fn words()
    ensures same { SameIsEqual }
    ensures own { EntryIsOwn }
    ensures all { GrantsAll }
    ensures within { GrantsWithin }
{}

/// Each serial is below 2^64 - 1.
pub fn the_limits()
    ensures serials { SERIAL_LIMIT ≡ 18_446_744_073_709_551_615 }
{}

/// Worked rows of cgroup v2's rules for cpusets, as docs/formats.md has them under "Scripts": the definitions,
/// evaluated on a small tree.
pub fn worked()
    ensures asked_for { requested_cpus requested web ≡ set.from_list (2 ∷ 3 ∷ 6 ∷ []) }
    ensures online_part { effective_cpus requested web ≡ set.from_list (2 ∷ 3 ∷ []) }
    ensures none_online { effective_cpus requested batch ≡ set.from_list (0 ∷ 1 ∷ 2 ∷ 3 ∷ []) }
    ensures goes_offline { effective_cpus (with_online requested (set.from_list (0 ∷ 3 ∷ []))) web
        ≡ set.from_list (3 ∷ []) }
    ensures nodes { effective_mems requested web ≡ set.from_list (0 ∷ 1 ∷ []) }
    ensures by_name { child_of requested all_containers (codes "batch") ≡ Some batch }
    ensures made_twice { make_refusal requested all_containers (codes "web") ≡ Some TreeFault.Exists }
    ensures has_children { remove_refusal requested all_containers ≡ Some TreeFault.HasChildren }
    ensures root_written { write_refusal requested root ≡ Some TreeFault.IsRoot }
    ensures not_there { write_refusal requested (numbered 4) ≡ Some TreeFault.NoGroup }
{}
