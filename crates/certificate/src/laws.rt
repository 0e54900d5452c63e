//! What a proved plan, a shortage and a cost mean, and the limits: laws over the definitions alone. Nothing here runs.
ghost use Rattle.std.specs.Prelude.{◌≡◌, [], ◌∷◌};
ghost use Rattle.certificate.specs.AreWithin.{RowsFitMeans, LimitsMean};
ghost use Rattle.certificate.specs.Laws.{NoPlanBelowBound, ProvedIsLeast, ShortageLeavesNoPlan, ProvedHasNoFault};
ghost use Rattle.certificate.specs.Laws.{FaultlessIsProved};
ghost use Rattle.certificate.specs.WeighSame.{SameWeightsSamePlans, SameWeightsSameCosts};
ghost use Rattle.certificate.specs.Scaled.{CostSplits, SamePlans, MovesAreFew, LeastIsNearest};
ghost use Rattle.certificate.specs.Cost.{cost};
ghost use Rattle.certificate.specs.PlanFault.{plan_fault};
ghost use Rattle.certificate.specs.ShortageFault.{shortage_fault};
ghost use Rattle.certificate.specs.Verdict.{certificate_fault, plan_verdict};
ghost use Rattle.certificate.specs.Worked.{two_rows, held, priced, certificate_of, three_rows, moves_certificate};

use crate::{
    CheckFault, MAX_AMOUNT, MAX_DEMAND, MAX_ROWS, MAX_WEIGHT, MOVE_SCALE, Verdict, Weights,
};

/// Weak duality: no plan costs less than a bound, for any rows, values and prices. Hence a plan whose
/// cost is such a bound is least.
pub fn no_plan_is_below_a_bound()
    ensures bound { NoPlanBelowBound }
    ensures least { ProvedIsLeast }
{}

/// Hall's condition: if some rows ask together for more CPUs than the union of their offers has, no sets at all are a
/// plan.
pub fn a_shortage_leaves_no_plan()
    ensures { ShortageLeavesNoPlan }
{}

/// What proves itself is not refused, and sets of CPUs that have no fault are proved.
pub fn what_is_proved_has_no_fault()
    ensures none { ProvedHasNoFault }
    ensures proved { FaultlessIsProved }
{}

/// What the limits' tests mean, in words that name no list of tests.
pub fn what_is_within_the_limits()
    ensures rows { RowsFitMeans }
    ensures all { LimitsMean }
{}

/// Weights that count moves besides the distance split each cost into both and leave the plans as they are. Take
/// weights by which no CPU is more than one move. **A plan that is least by them is one of least distance, and no plan
/// of that distance moves fewer** (`least`).
pub fn scaled_rows_have_two_costs()
    ensures split { CostSplits }
    ensures plans { SamePlans }
    ensures few { MovesAreFew }
    ensures least { LeastIsNearest }
{}

/// Rows that ask for as many CPUs and weigh each CPU the same have the same plans at the same costs. How their offers
/// are cut makes no difference.
pub fn same_weights_have_the_same_plans()
    ensures plans { SameWeightsSamePlans }
    ensures costs { SameWeightsSameCosts }
{}

/// The limits: 1,024 rows, 4,096 CPUs that a row asks for, weights below 2^25, values and prices up to 2^40. The scale
/// of weights that count moves is 2^16.
pub fn the_limits()
    ensures rows { MAX_ROWS ≡ 1_024 }
    ensures demand { MAX_DEMAND ≡ 4_096 }
    ensures weight { MAX_WEIGHT ≡ 33_554_431 }
    ensures amount { MAX_AMOUNT ≡ 1_099_511_627_776 }
    ensures scale { MOVE_SCALE ≡ 65_536 }
{}

/// Worked rows of docs/formats.md, "Certificates": the definitions, evaluated.
pub fn worked()
    ensures costs { cost two_rows (held (2 ∷ []) (1 ∷ [])) ≡ 23 }
    ensures costs_more { cost two_rows (held (1 ∷ []) (2 ∷ [])) ≡ 60 }
    ensures yes { certificate_fault (certificate_of 23) ≡ None }
    ensures other_total { certificate_fault (certificate_of 24) ≡ Some CheckFault.Gap }
    ensures wrong_count { plan_fault two_rows (held (1 ∷ 2 ∷ []) (1 ∷ [])) (priced 11 13)
        ≡ Some (CheckFault.WrongCount 0) }
    ensures not_allowed { plan_fault two_rows (held (3 ∷ []) (1 ∷ [])) (priced 11 13)
        ≡ Some (CheckFault.NotAllowed 0 3) }
    ensures held_twice { plan_fault two_rows (held (1 ∷ []) (1 ∷ [])) (priced 11 13) ≡ Some (CheckFault.HeldTwice 1) }
    ensures too_high { plan_fault two_rows (held (2 ∷ []) (1 ∷ [])) (priced 11 14)
        ≡ Some (CheckFault.ValueTooHigh 1 1) }
    ensures gap { plan_fault two_rows (held (2 ∷ []) (1 ∷ [])) (priced 11 12) ≡ Some CheckFault.Gap }
    ensures short { shortage_fault three_rows (0 ∷ 1 ∷ []) ≡ None }
    ensures not_short { shortage_fault three_rows (0 ∷ 2 ∷ []) ≡ Some CheckFault.NoShortage }
    ensures yes_with_moves { certificate_fault moves_certificate ≡ None }
    ensures told { plan_verdict 1310720 Weights.WithMoves ≡ Verdict.Moves 20 0 }
{}
