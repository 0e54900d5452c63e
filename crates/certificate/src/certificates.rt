use crate::{Members, Plan, Prices, Problem, Weights};

/// A problem together with what shows its answer.
#[derive(Debug, Drop)]
pub enum Certificate {
    /// A plan of least cost, the numbers that show it, and the cost that its writer claims.
    Plan {
        problem: Problem,
        plan: Plan,
        prices: Prices,
        total: u64,
        /// What the weights count, and so the total.
        weights: Weights,
    },
    /// Rows that together ask for more CPUs than they may have, so that there is no plan.
    Short {
        problem: Problem,
        members: Members,
        /// What the weights count.
        weights: Weights,
    },
}
