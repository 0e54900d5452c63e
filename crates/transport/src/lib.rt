//! The solver: for the rows of a problem an optimal plan, of the least cost, with the values and prices that show
//! it, or a shortage, a certificate of infeasibility, where there is none.
//!
//! This is Kuhn's Hungarian method for a transportation problem ("The Hungarian method for the assignment problem",
//! 1955), with the dual variables as in the primal-dual form of Ford and Fulkerson (1957): a row's value and a class's
//! price. CPUs alike to all rows are twins, one equivalence class: only their number counts until a plan is dealt. Rows
//! with the same offers share one list of the classes by weight. The rows are assigned one after another. A search for
//! a row grows a tree of the rows that it reaches and of the classes that they hold; it raises the values of these rows
//! and the prices of these classes by the least slack, until a class with a free CPU is at slack 0, and CPUs then move
//! along the path there. Between searches no weight with its price is below its row's value, and each row holds classes
//! at its value alone. Where a search ends with no such class, the rows that it has reached ask together for more CPUs
//! than they may have.
//!
//! Rows a and b ask for one CPU each; the classes x and y have one CPU each.
//!
//! ```text
//!       x    y
//!  a   10   20     a takes x; its value is 10.
//!  b   10   40     b reaches x at 10, and by x its holder a: the tree is b, x, a.
//!                  y is at slack 20 - 10 = 10 from a and at 40 - 10 = 30 from b: its label is a.
//!                  The values of a and b and the price of x go up by 10, and y is at slack 0.
//!                  An augmenting path was found: b - x - a - y. So a takes y, and b takes x.
//!                  The total is 20 + 10 = 30, as the values less the price say: 20 + 20 - 10.
//! ```
//!
//! A search looks at no more than each row's weights for each class, and there is at most one for each CPU that is
//! asked for: O(demands * rows * classes) steps at worst. Memory is allocated for each CPU, row and class, each row
//! that holds CPUs of a class, each offer of rows whose offers do not rise, and each class of the offers that a search
//! has come to; and for each block of such classes, which has one of them at least, where searches look at a row's
//! classes again and again.
//!
//! To have a certificate, or a problem solved that takes this method long, call `solution`.
//!
//! # Proved
//!
//! - All of this is for rows within the limits. The only refusal is an allocation failure.
#![tactic(auto)]

mod arcs;
mod assignment;
mod augment;
mod duals;
mod instance;
mod labels;
mod search;
mod solver;
mod tree;

pub(crate) use assignment::Assignment;
pub use augment::TurnLimit;
pub(crate) use augment::{Outcome, assign_all};
pub(crate) use instance::{Instance, Representatives};
pub use solver::{Answer, solve, solve_within};
