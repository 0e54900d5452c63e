//! What the check takes at most, so that all sums fit their types.
use cpu_set::CPU_LIMIT;

/// A problem has at most so many rows.
pub const MAX_ROWS: usize = 1_024;

/// A row asks for at most so many CPUs, and for one at least.
pub const MAX_DEMAND: u32 = CPU_LIMIT as u32;

/// No weight, what a CPU costs a row, is above this.
pub const MAX_WEIGHT: u32 = 33_554_431;

/// No row's value and no CPU's price is above this.
pub const MAX_AMOUNT: u64 = 1_099_511_627_776;

/// More than the CPUs that can move: a [`Cost`](crate::Cost) has the distance so many times, and the moves.
pub const MOVE_SCALE: u32 = 65_536;
