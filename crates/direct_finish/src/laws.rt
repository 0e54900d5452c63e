//! What each of the writes leaves that are made at once, and worked rows of them. Nothing here runs.
ghost use Rattle.std.specs.Prelude.{◌≡◌, true, [], ◌∷◌, find, Some, None, Ok};
ghost use Rattle.cpuset_tree.specs.Worked.{web, batch};
ghost use Rattle.apply_plan.specs.DueWrite.{written};
ghost use Rattle.apply_plan.specs.DirectWords.{may_take};
ghost use Rattle.apply_plan.specs.DirectWrite.{due_directly};
ghost use Rattle.apply_plan.specs.DirectWorked.{moving_to, whole, gives};
ghost use Rattle.apply_plan.specs.Worked.{both_live, write};
ghost use Rattle.direct_finish.specs.FinishesDirectly.{FinishesDirectly};
ghost use Rattle.direct_finish.specs.FinishesTold.{FinishesAreTold};
ghost use Rattle.direct_finish.specs.FollowersLeave.{FollowersLeave, EachStepFollows};
ghost use Rattle.direct_finish.specs.SeldomWritten.{FinishesWriteSeldom, FinishesWriteOnce};

/// After each single write what was safe is safe, one write less is to come, or fewer, and only one that is stuck in a
/// ring is squeezed onto the reserved CPUs.
///
/// As long as one of the writes may follow, a single step has a write to make. Once nobody must move it has none.
///
/// A container that holds its target is not written. One that only gets more CPUs, or only lets go, is written once at
/// most, and no other more than twice (`seldom`). Where nobody for whom others wait stands in a ring, each is written
/// once at most (`once`).
///
/// All together they ask the kernel for just their writes, one after another, and for the one that failed (`told`).
pub fn each_write()
    ensures leaves { FollowersLeave }
    ensures steps { EachStepFollows }
    ensures seldom { FinishesWriteSeldom }
    ensures once { FinishesWriteOnce }
    ensures told { FinishesAreTold }
{}

/// Small direct hand-overs of two containers, CPU 0 reserved, each row evaluated from what they request then.
///
/// Two new ones take their targets, one after the other, and then the hand-over is at its end. Of two that want each
/// other's CPU neither has a free target, so the write that may come first is the one of a single step.
pub fn worked()
    ensures two_new { FinishesDirectly (moving_to (1 ∷ []) (2 ∷ [])) whole (both_live (0 ∷ []) (0 ∷ [])) (Ok tt)
        (written (written (both_live (0 ∷ []) (0 ∷ [])) (Some (write web (1 ∷ [])))) (Some (write batch (2 ∷ [])))) }
    ensures none_free { find (may_take (both_live (1 ∷ []) (2 ∷ [])) (moving_to (2 ∷ []) (1 ∷ [])).targets.reserved
        (moving_to (2 ∷ []) (1 ∷ [])).targets.entries) (moving_to (2 ∷ []) (1 ∷ [])).targets.entries ≡ None }
    ensures one_step { gives (due_directly (moving_to (2 ∷ []) (1 ∷ [])) whole (both_live (1 ∷ []) (2 ∷ []))) web (3 ∷ [])
        ≡ true }
{}
