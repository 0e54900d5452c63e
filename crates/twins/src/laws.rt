//! What plans of classes of twins say of plans of CPUs: laws over the definitions alone. Nothing here runs.
ghost use Rattle.twins.specs.ClassWeight.{MembersWeighTheSame};
ghost use Rattle.twins.specs.IsDeal.{DealOfTwinsIsDealt};
ghost use Rattle.twins.specs.IsPriced.{ClassesProvePlans};
ghost use Rattle.twins.specs.IsClosed.{ClosedRowsAreShort};

/// A class has one weight in each row.
pub fn members_weigh_the_same()
    ensures { MembersWeighTheSame }
{}

/// Twins are dealt by the rule if classes are.
pub fn deals_of_twins_are_dealt()
    ensures { DealOfTwinsIsDealt }
{}

/// Take values and prices of classes, within the limits, which fit what the rows hold. They prove the plan that is
/// dealt, in the check's own words, and no price is of an empty set.
pub fn classes_prove_plans()
    ensures { ClassesProvePlans }
{}

/// Rows which may have only some classes, and ask for more CPUs than those have, are a shortage.
pub fn closed_rows_are_short()
    ensures { ClosedRowsAreShort }
{}
