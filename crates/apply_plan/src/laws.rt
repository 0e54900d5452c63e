//! What hand-overs keep at every moment, and when they end: laws over the definitions alone. Nothing here runs.
ghost use Rattle.std.specs.Prelude.{◌≡◌, true, false, [], ◌∷◌};
ghost use Rattle.std.specs.FinSet as set;
ghost use Rattle.cpuset_tree.specs.Worked.{web, batch};
ghost use Rattle.apply_plan.specs.DueWrite.{due};
ghost use Rattle.apply_plan.specs.Runs.{StaysSafe, StaysBetween, EndsWithin, FewToCome};
ghost use Rattle.apply_plan.specs.OneStep.{StepsLeave};
ghost use Rattle.apply_plan.specs.MayWrite.{EachLowers, EachWaitsForLess, FewLeft};
ghost use Rattle.apply_plan.specs.DirectOneStep.{DirectStepsLeave};
ghost use Rattle.apply_plan.specs.DirectRuns.{StaysSafeDirectly, StaysOnWay, EndsDirectly};
ghost use Rattle.apply_plan.specs.Effects.{TargetsTakeEffect, SafeInEffect};
ghost use Rattle.apply_plan.specs.DirectWords.{is_rival, may_take, asks, blocks, asked, places, way};
ghost use Rattle.apply_plan.specs.Rings.{in_ring};
ghost use Rattle.apply_plan.specs.DirectWrite.{due_directly};
ghost use Rattle.apply_plan.specs.DirectWorked.{moving_to, beside_shared, third_offline, whole, halved, gives, has_only, first_of_two, second_of_two};
ghost use Rattle.apply_plan.specs.Worked.{swap, both_live, one_lives, write};

/// Any list of events while a hand-over is open. An event is a step of it, a failing one too, a fork or an end of a
/// process, a CPU that goes or comes, or a write of another group.
///
/// What was safe stays safe after each single event. Each container requests what it did at first, what it keeps of
/// that, or its target. At most two writes for each entry are to come, and each that succeeds is one less, as the
/// kernel counts them.
pub fn runs()
    ensures safe { StaysSafe }
    ensures between { StaysBetween }
    ensures ends { EndsWithin }
    ensures few { FewToCome }
{}

/// What one step leaves while a hand-over is open, of plain values: what [`crate::Handover::step`] says.
pub fn steps()
    ensures { StepsLeave }
{}

/// What requested sets are worth, for groups whose parent is a child of the root that requests nothing.
///
/// Targets which are online take effect as they are. What is safe as requested is safe in effect while each live
/// container requests an online CPU.
pub fn effects()
    ensures targets { TargetsTakeEffect }
    ensures safe { SafeInEffect }
{}

/// Worked rows of docs/formats.md, "Scripts": the writes of a hand-over in which two containers swap their CPUs. Each
/// is evaluated from what the containers request then.
pub fn worked()
    ensures keeps_part { due swap (both_live (2 ∷ 3 ∷ []) (1 ∷ [])) ≡ Some (write web (2 ∷ [])) }
    ensures keeps_none { due swap (both_live (3 ∷ []) (1 ∷ [])) ≡ Some (write web (0 ∷ [])) }
    ensures each_gives_back { due swap (both_live (2 ∷ []) (1 ∷ [])) ≡ Some (write batch (0 ∷ [])) }
    ensures first_takes { due swap (both_live (2 ∷ []) (0 ∷ [])) ≡ Some (write web (1 ∷ 2 ∷ [])) }
    ensures second_takes { due swap (both_live (1 ∷ 2 ∷ []) (0 ∷ [])) ≡ Some (write batch (3 ∷ [])) }
    ensures done { due swap (both_live (1 ∷ 2 ∷ []) (3 ∷ [])) ≡ None }
    ensures ended { due swap (one_lives (2 ∷ 3 ∷ []) (1 ∷ [])) ≡ Some (write batch (0 ∷ [])) }
{}

/// The direct order, whichever of its writes are made: a container takes its target, of which no rival holds any, or
/// one of which others ask gives way.
///
/// What was safe stays safe after each. At most two writes for each entry are left, and each makes them fewer: its
/// container waits for one less then, or fewer, and no other one for more.
pub fn directly()
    ensures lowers { EachLowers }
    ensures each { EachWaitsForLess }
    ensures few { FewLeft }
{}

/// Any list of events while a direct hand-over is open. An event is a step of it, a failing one too, or any other write
/// that may be made; a fork or an end of a process, a CPU that goes or comes, or a write of another group.
///
/// What was safe stays safe after each single event. Each container requests none but what it did at first, its
/// target, reserved CPUs and those that it is allowed, and keeps what it held of its target. Each write that succeeds
/// leaves one less, as the kernel counts them, and nothing leaves one more.
pub fn direct_runs()
    ensures safe { StaysSafeDirectly }
    ensures on_way { StaysOnWay }
    ensures ends { EndsDirectly }
{}

/// What one step leaves while a direct hand-over is open, of plain values: what [`crate::DirectHandover::step`] says.
pub fn direct_steps()
    ensures { DirectStepsLeave }
{}

/// Small direct hand-overs of two containers, each row evaluated from what they request then.
///
/// Two that want each other's CPU stand in a ring. The first steps aside onto a spare CPU, its place. Where that is
/// offline, or cores are given and it is a part of one, the first is squeezed onto the reserved CPU. One that keeps a
/// CPU of its own gives way with no place. A shared one lets go first of what a pinned one asks of it. Nobody waits for
/// one that has ended.
pub fn worked_directly()
    ensures rival { is_rival (both_live (1 ∷ []) (2 ∷ [])) (first_of_two (2 ∷ [])) (second_of_two (1 ∷ [])) ≡ true }
    ensures not_free { may_take (both_live (1 ∷ []) (2 ∷ [])) (moving_to (2 ∷ []) (1 ∷ [])).targets.reserved
        (moving_to (2 ∷ []) (1 ∷ [])).targets.entries (first_of_two (2 ∷ [])) ≡ false }
    ensures asks { asks (both_live (1 ∷ []) (2 ∷ [])) (moving_to (2 ∷ []) (1 ∷ [])).targets.reserved (first_of_two (2 ∷ []))
        (second_of_two (1 ∷ [])) ≡ true }
    ensures blocks { blocks (both_live (1 ∷ []) (2 ∷ [])) (moving_to (2 ∷ []) (1 ∷ [])).targets.reserved
        (moving_to (2 ∷ []) (1 ∷ [])).targets.entries (first_of_two (2 ∷ [])) ≡ true }
    ensures in_ring { in_ring (both_live (1 ∷ []) (2 ∷ [])) (moving_to (2 ∷ []) (1 ∷ [])).targets.reserved
        (moving_to (2 ∷ []) (1 ∷ [])).targets.entries (first_of_two (2 ∷ [])) ≡ true }
    ensures asked { has_only (asked (both_live (1 ∷ []) (2 ∷ [])) (moving_to (2 ∷ []) (1 ∷ [])).targets.reserved
        (moving_to (2 ∷ []) (1 ∷ [])).targets.entries (first_of_two (2 ∷ []))) (1 ∷ []) ≡ true }
    ensures places { has_only (places (both_live (1 ∷ []) (2 ∷ [])) (moving_to (2 ∷ []) (1 ∷ [])).targets.reserved
        (moving_to (2 ∷ []) (1 ∷ [])).targets.entries (set.from_list (1 ∷ 2 ∷ 3 ∷ [])) (first_of_two (2 ∷ []))) (3 ∷ []) ≡ true }
    ensures way { has_only (way (both_live (2 ∷ 3 ∷ []) (1 ∷ [])) (moving_to (1 ∷ 2 ∷ []) (3 ∷ [])).targets.reserved
        (moving_to (1 ∷ 2 ∷ []) (3 ∷ [])).targets.entries (first_of_two (1 ∷ 2 ∷ []))) (2 ∷ []) ≡ true }
    ensures steps_aside { gives (due_directly (moving_to (2 ∷ []) (1 ∷ [])) whole (both_live (1 ∷ []) (2 ∷ []))) web (3 ∷ []) ≡ true }
    ensures second_takes { gives (due_directly (moving_to (2 ∷ []) (1 ∷ [])) whole (both_live (3 ∷ []) (2 ∷ []))) batch (1 ∷ []) ≡ true }
    ensures first_takes { gives (due_directly (moving_to (2 ∷ []) (1 ∷ [])) whole (both_live (3 ∷ []) (1 ∷ []))) web (2 ∷ []) ≡ true }
    ensures done { due_directly (moving_to (2 ∷ []) (1 ∷ [])) whole (both_live (2 ∷ []) (1 ∷ [])) ≡ None }
    ensures squeezed { gives (due_directly (moving_to (2 ∷ []) (1 ∷ [])) whole (third_offline (1 ∷ []) (2 ∷ []))) web (0 ∷ []) ≡ true }
    ensures half_a_core { gives (due_directly (moving_to (2 ∷ []) (1 ∷ [])) halved (both_live (1 ∷ []) (2 ∷ []))) web (0 ∷ []) ≡ true }
    ensures full { gives (due_directly (moving_to (3 ∷ 4 ∷ []) (1 ∷ 2 ∷ [])) whole (both_live (1 ∷ 2 ∷ []) (3 ∷ 4 ∷ []))) web (0 ∷ []) ≡ true }
    ensures keeps_one { gives (due_directly (moving_to (2 ∷ 3 ∷ []) (1 ∷ 4 ∷ [])) whole (both_live (1 ∷ 2 ∷ []) (3 ∷ 4 ∷ []))) web (2 ∷ []) ≡ true }
    ensures shared_first { gives (due_directly (beside_shared (2 ∷ []) (0 ∷ 3 ∷ [])) whole (both_live (1 ∷ []) (0 ∷ 2 ∷ 3 ∷ []))) batch
        (0 ∷ 3 ∷ []) ≡ true }
    ensures ended { gives (due_directly (moving_to (2 ∷ []) (1 ∷ [])) whole (one_lives (1 ∷ []) (2 ∷ []))) batch (1 ∷ []) ≡ true }
{}
