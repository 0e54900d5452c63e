//! The plan or the shortage that a problem comes to.
ghost use Rattle.std.specs.Prelude.{◌≡◌, ◌≤◌, IsTrue, IfOk, IfSome, None, length, map};
ghost use Rattle.certificate.specs.AreWithin.{AreRowsWithin};
ghost use Rattle.certificate.specs.Limits.{rows_fit};
ghost use Rattle.twins.specs.IsGrouping.{IsGrouping};
ghost use Rattle.twins.specs.Kinds.{AreKinds};
ghost use Rattle.transport.specs.Outcomes.{IsDone, IsStuck, IsOutcome, IsOutcomeWithin};
ghost use Rattle.transport.specs.Representatives.{first_of};
ghost use Rattle.transport.specs.Solved.{IsRight, IsDecided, AreTwinsDealt, ArePricesOfClasses, AreTurns, IsSolved};
ghost use Rattle.transport.specs.Solved.{MayTakeMore, IsSolvedWithin, IsWithinLimit, turns_taken};
ghost use Rattle.transport.specs.Places.{marked_places};
ghost use Rattle.std.specs.FinSet as set;

use crate::instance::sizes_of;
use crate::{Assignment, Instance, Outcome, Representatives, TurnLimit, assign_all};
use certificate::{Plan, Prices, Problem, Row, proved_cost};
use cpu_set::{CPU_LIMIT, IdSet};
use std::alloc::{AllocError, Global};
use twins::{Classes, deal, group, kinds_of, prices_of};

/// A plan of the least cost with the values and prices that show it, or the rows of a shortage.
///
/// `turns` counts the rows and the classes of twins that the searches take up.
///
/// # Errors
/// An allocation failure; no problem is refused.
///
/// ```text
/// // Row a: CPU 1 at weight 10, CPU 2 at 11. Row b: CPU 1 at 12, CPU 2 at 50. Each asks for one.
/// match solve(alloc, &problem)? {
///     // The sets are 2 and 1, and the values 11 and 13; CPU 1 has the price 1. The total is 23, 11 + 13 - 1.
///     Answer::Plan { plan, prices, total, turns } => ..
///     // No: the members would be rows that together ask for more CPUs than they may have.
///     Answer::Short { members, turns } => ..
/// }
/// ```
///
/// `tests/solve.sh` has the program solve this problem.
pub fn solve(alloc: Global, problem: &Problem) -> Result<Answer, AllocError>
    requires { IsTrue (rows_fit problem.now) }

    // A plan with its cost, which its dual variables (values and prices) prove to be least; or a shortage. `check_plan`
    // and `check_shortage` accept both.
    ensures right { IfOk result (IsRight problem.now) }

    // **There is a plan in the answer wherever there is one at all**, and none costs less. There is a shortage only if
    // there is no plan.
    ensures decided { IfOk result (IsDecided problem.now) }

    // Twins go to the rows in order, the lower CPU first.
    ensures dealt { IfOk result (AreTwinsDealt problem.now) }

    // Each class of twins whose price is not 0 has one price, and there are no other prices.
    ensures priced { IfOk result (ArePricesOfClasses problem.now) }

    // A turn is a row or class that a search takes up. There are at most (rows + classes) × CPUs asked for. For a plan
    // there are at least 2 × rows. For a shortage there are at least 2 × rows before its last member. One more comes
    // for each member, and one for each class that a member has a weight for.
    ensures turns { IfOk result (AreTurns problem.now) }
{
    solve_body(alloc, problem)
}

fn solve_body(alloc: Global, problem: &Problem) -> Result<Answer, AllocError>
    requires { IsTrue (rows_fit problem.now) }
    ensures { IfOk result (IsSolved problem.now) }
{
    certificate::laws::what_is_within_the_limits();
    let none = TurnLimit {
        at_first: u64::MAX,
        per_cpu: 0,
    };
    match solve_within_body(alloc, problem, none)? {
        Some(answer) => Ok(answer),
        None => unreachable!(),
    }
}

/// What [`solve`] answers, if that takes few turns: once more are taken than the limit has for the rows that are met,
/// no further search is begun. So an answer took at most the turns that the limit has for all rows, and one search's.
///
/// # Errors
/// An allocation failure; no problem is refused.
pub fn solve_within(
    alloc: Global,
    problem: &Problem,
    limit: TurnLimit,
) -> Result<Option<Answer>, AllocError>
    requires { IsTrue (rows_fit problem.now) }

    // An answer is what `solve` promises: a plan with its cost and what proves it least, or a shortage.
    ensures right { IfOk result (λ found. IfSome found (IsRight problem.now)) }

    // **There is a plan in the answer wherever there is one at all**, and none costs less. There is a shortage only if
    // there is no plan.
    ensures decided { IfOk result (λ found. IfSome found (IsDecided problem.now)) }

    // Twins go to the rows in order, the lower CPU first.
    ensures dealt { IfOk result (λ found. IfSome found (AreTwinsDealt problem.now)) }

    // Each class of twins whose price is not 0 has one price, and there are no other prices.
    ensures priced { IfOk result (λ found. IfSome found (ArePricesOfClasses problem.now)) }

    // The turns of an answer are those of `solve`.
    ensures turns { IfOk result (λ found. IfSome found (AreTurns problem.now)) }

    // The limit is heeded: the turns of an answer are at most its turns at first + its turns for each CPU × CPUs asked
    // for + rows + classes.
    ensures limited { IfOk result (λ found. IfSome found (λ answer. IsWithinLimit problem.now limit (turns_taken
        answer))) }

    // There is no answer only where more turns may be needed. The limit has fewer for some first rows, its turns at
    // first + its turns for each CPU × CPUs that these ask for, than (rows + classes) × CPUs that these and the next
    // row ask for.
    ensures late { IfOk result (λ found. found ≡ None → MayTakeMore problem.now limit) }
{
    solve_within_body(alloc, problem, limit)
}

fn solve_within_body(
    alloc: Global,
    problem: &Problem,
    limit: TurnLimit,
) -> Result<Option<Answer>, AllocError>
    requires { IsTrue (rows_fit problem.now) }
    ensures { IfOk result (IsSolvedWithin problem.now limit) }
{
    certificate::laws::what_is_within_the_limits();
    let rows = problem.rows.as_slice();
    let kinds = kinds_of(alloc, rows)?;
    let classes = group(alloc, problem, &kinds)?;
    let answer = match assigned(alloc, rows, &kinds, classes.sets.as_slice(), limit)? {
        Outcome::Done { assignment, turns } => {
            planned(alloc, problem, &classes, assignment, turns)?
        }
        Outcome::Stuck {
            reached,
            taken,
            turns,
        } => short(alloc, problem, &classes, &reached, &taken, turns)?,
        Outcome::Late => return Ok(None),
    };
    Ok(Some(answer))
}

/// What assigning the rows CPUs of these classes ends with.
fn assigned(
    alloc: Global,
    rows: &[Row],
    kinds: &[usize],
    classes: &[IdSet],
    limit: TurnLimit,
) -> Result<Outcome, AllocError>
    requires kinds { AreKinds rows.now (length rows.now) kinds.now }
    requires fit { AreRowsWithin rows.now }
    requires grouping { IsGrouping rows.now classes.now }
    requires few { length classes.now ≤ CPU_LIMIT }
    ensures outcome { IfOk result (IsOutcome rows.now (map first_of classes.now) (map (λ s. set.len s) classes.now)
        limit) }
    ensures limited { IfOk result (IsOutcomeWithin rows.now (map (λ s. set.len s) classes.now) limit) }
{
    let firsts = Representatives::new(alloc, classes)?;
    let sizes = sizes_of(alloc, classes)?;
    let instance = Instance {
        rows,
        kinds,
        firsts,
    };
    assign_all(alloc, &instance, &sizes, limit)
}

/// The plan of rows that have what they ask for, of each class so many CPUs.
fn planned(
    alloc: Global,
    problem: &Problem,
    classes: &Classes,
    assignment: Assignment,
    turns: u64,
) -> Result<Answer, AllocError>
    requires fit { IsTrue (rows_fit problem.now) }
    requires grouping { IsGrouping problem.now classes.now }
    requires done { IsDone problem.now (map first_of classes.now) (map (λ s. set.len s) classes.now) assignment turns }
    ensures solved { IfOk result (IsSolved problem.now) }
    ensures turns { IfOk result (λ answer. turns_taken answer ≡ turns) }
{
    twins::laws::classes_prove_plans();
    twins::laws::deals_of_twins_are_dealt();
    certificate::laws::no_plan_is_below_a_bound();
    let rows = problem.rows.as_slice();
    let sets = deal(alloc, rows.len(), classes, &assignment.holdings)?;
    let of_cpu = prices_of(alloc, classes, &assignment.prices)?;
    let plan = Plan { sets };
    let prices = Prices {
        values: assignment.values,
        of_cpu,
    };
    let total = proved_cost(rows, &prices);
    Ok(Answer::Plan {
        plan,
        prices,
        total,
        turns,
    })
}

/// The shortage of rows that ask for more CPUs than the classes have that they may have.
fn short(
    alloc: Global,
    problem: &Problem,
    classes: &Classes,
    reached: &[bool],
    taken: &[bool],
    turns: u64,
) -> Result<Answer, AllocError>
    requires grouping { IsGrouping problem.now classes.now }
    requires stuck { IsStuck problem.now (map first_of classes.now) (map (λ s. set.len s) classes.now) reached.now
        taken.now turns }
    ensures solved { IfOk result (IsSolved problem.now) }
    ensures turns { IfOk result (λ answer. turns_taken answer ≡ turns) }
{
    twins::laws::closed_rows_are_short();
    certificate::laws::a_shortage_leaves_no_plan();
    let members = places_of(alloc, reached)?;
    Ok(Answer::Short { members, turns })
}

/// What a problem comes to.
#[derive(Debug, Drop)]
pub enum Answer {
    /// A plan of the least cost, with the values and prices that show it.
    Plan {
        plan: Plan,
        prices: Prices,
        /// What the plan costs.
        total: u64,
        /// How many rows and classes the searches took up.
        turns: u64,
    },
    /// No plan: rows that together ask for more CPUs than they may have.
    Short {
        /// The rows' numbers, rising.
        members: Vec<usize>,
        /// How many rows and classes the searches took up.
        turns: u64,
    },
}

/// The places of the marks, rising.
pub(crate) fn places_of(alloc: Global, marks: &[bool]) -> Result<Vec<usize>, AllocError>
    ensures { IfOk result (λ places. places.items ≡ marked_places marks.now) }
{
    let mut places = Vec::new(alloc);
    for (k, mark) in marks.iter().enumerate() {
        if *mark {
            places.push(k)?;
        }
    }
    Ok(places)
}
