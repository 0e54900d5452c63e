//! Plans of CPUs that prove themselves: a problem, a plan, the dual variables (values and prices) that show that
//! it is optimal, so that no plan costs less, and the check of all three; and shortages, certificates of
//! infeasibility, where no plan exists.
//!
//! Nothing here knows how a plan was found. Whoever wrote a certificate, a yes of [`check_plan`] means
//! that the plan is one of the least cost: the prices give a lower bound on the cost of every plan (weak
//! duality), and the plan's own cost is that bound, with no duality gap. A yes of [`check_shortage`] means that no
//! plan exists: the rows that it names, a Hall violator, ask together for more CPUs than the union of their offers
//! has.
//!
//! A [`Certificate`] is a problem with one of both, and [`check`] checks it, with the total that its writer claims. So
//! whoever asks what a yes of the check means needs no solver and no grammar: the definitions that say it are here, of
//! sets of CPUs in `cpu_set`, and of sets with a number each in `tagged_sets`.
//!
//! To read a certificate from its text use `certificate_text`, and to have one made use `solution`.
//!
//! # Proved
//!
//! - `Offers` is a list to which offers are added (`push`), also by the ranges of their CPUs (`push_ranges`). Those of
//!   another list are added at a weight, whole (`push_from`) or less some CPUs (`push_without`). It has their CPUs as
//!   one set (`cpus`). It lends the ranges of an offer's CPUs (`ranges`), and a set that it lends is that of the offer
//!   (`wide`). It says whether each weighs more than all before it (`are_rising`), and whether two lists are the same
//!   (`is_same`). `PriceList` is such a list of prices.
//! - `Cost` makes one number of a distance and moves (`pack`, `weight`), and the two of such a number (`unpack`).
//! - All sums fit their types for all inputs.
#![tactic(auto)]

mod amounts;
mod certificates;
mod checking;
mod checks;
mod costs;
mod fault;
pub mod laws;
mod limit_checks;
mod limits;
mod members;
mod offers;
mod only_cpu;
mod packed;
mod plans;
mod price_lists;
mod problems;
mod row_checks;
mod rows;
mod scaled;
mod set_checks;
mod shortages;
mod value_checks;
mod weights;

pub use certificates::Certificate;
pub use checking::{Verdict, check};
pub use checks::check_plan;
pub use costs::proved_cost;
pub use fault::CheckFault;
pub use limit_checks::rows_fit;
pub use limits::{MAX_AMOUNT, MAX_DEMAND, MAX_ROWS, MAX_WEIGHT, MOVE_SCALE};
pub use members::Members;
pub use offers::Offers;
pub use packed::Cost;
pub use plans::Plan;
pub use price_lists::{Price, PriceList, Prices};
pub use problems::Problem;
pub use rows::{Offer, Row};
pub use scaled::are_scaled;
pub use shortages::{check_shortage, offered_to};
pub use weights::Weights;
