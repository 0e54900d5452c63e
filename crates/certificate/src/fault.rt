ghost use Rattle.std.specs.Prelude.{◌≡◌};
ghost use Rattle.certificate.specs.FaultTitle.{check_title};

/// Why a plan or a shortage is refused: the first cause that stands, in the order of this list.
#[derive(Clone, Copy, Debug, PartialEq, Eq)]
pub enum CheckFault {
    /// E70: more rows than [`MAX_ROWS`](crate::MAX_ROWS), a demand not 1 to
    /// [`MAX_DEMAND`](crate::MAX_DEMAND), a weight above [`MAX_WEIGHT`](crate::MAX_WEIGHT), a value or an
    /// amount above [`MAX_AMOUNT`](crate::MAX_AMOUNT), a CPU in two offers of a row or in two prices,
    /// not one set and one value for each row, or members that are not row numbers in rising order; where
    /// weights count moves, also a weight that is a [`Cost`](crate::Cost) of more than one move.
    BadProblem,
    /// E71: the row's set has not as many CPUs as the row asks for.
    WrongCount { row: usize },
    /// E72: the CPU, the least such one of the row's set, is in no offer of the row.
    NotAllowed { row: usize, cpu: u16 },
    /// E73: of the first row that holds a CPU of an earlier row, the least such CPU.
    HeldTwice { cpu: u16 },
    /// E74: the row's value is above the CPU's weight and price together; the least such CPU of the first
    /// such row.
    ValueTooHigh { row: usize, cpu: u16 },
    /// E75: the bound that values and prices give is not the plan's cost.
    Gap,
    /// E76: the members ask together for no more CPUs than the union of their offers has.
    NoShortage,
}

impl CheckFault {
    /// The number and the name that a refusal's line has.
    pub fn title(self) -> &'static str
        ensures { result.now ≡ check_title self }
    {
        match self {
            CheckFault::BadProblem => "E70 BadProblem",
            CheckFault::WrongCount { .. } => "E71 WrongCount",
            CheckFault::NotAllowed { .. } => "E72 NotAllowed",
            CheckFault::HeldTwice { .. } => "E73 HeldTwice",
            CheckFault::ValueTooHigh { .. } => "E74 ValueTooHigh",
            CheckFault::Gap => "E75 Gap",
            CheckFault::NoShortage => "E76 NoShortage",
        }
    }
}
