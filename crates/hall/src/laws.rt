//! Laws over the definitions alone. Nothing here runs.
ghost use Rattle.hall.specs.HallsTheorem.{HallsTheorem};
ghost use Rattle.hall.specs.Needed.{FewerHavePlans, HoldersAreNeeded, RootIsNeeded};

/// Hall's theorem, for rows that ask for several CPUs each: if no rows ask together for more CPUs than the union of
/// their offers has, there is a plan.
///
/// Source: P. Hall, "On Representatives of Subsets", 1935.
pub fn halls_theorem()
    ensures { HallsTheorem }
{}

/// Who can't be left out of a shortage. Let all its members but one, the root, hold what they ask for. Then the root
/// can't be left out. A member that holds as many CPUs as the root lacks, of those that members may have which can't be
/// left out, can't be left out either.
pub fn holders_are_needed()
    ensures root { RootIsNeeded }
    ensures holders { HoldersAreNeeded }
{}

/// Rows that have a plan have one where some of them are left out.
pub fn fewer_have_plans()
    ensures { FewerHavePlans }
{}
