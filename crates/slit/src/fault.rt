ghost use Rattle.std.specs.Prelude.{◌≡◌};
ghost use Rattle.slit.specs.FaultTitle.{slit_title};

use faults::Fault;

/// Why bytes are no distance table. The variants are in the order in which they are looked for.
#[derive(Clone, Copy, Debug, PartialEq, Eq)]
pub enum SlitFault {
    /// E15: there are fewer bytes than the header and the number of localities take.
    TooShort,
    /// E16: the first four bytes are not `SLIT`.
    BadSignature,
    /// E18: the number of localities is 0 or above [`MAX_LOCALITIES`](crate::MAX_LOCALITIES).
    BadCount,
    /// E17: the length in the header is not that of a table of so many localities, or there are fewer bytes.
    BadLength,
    /// E19: the bytes of the table don't sum to 0 modulo 256.
    BadSum,
    /// E20: the entry in this row and column is one of the reserved values, 0 to 9.
    ReservedValue(usize, usize),
    /// E21: the distance of this locality to itself is above 10.
    BadDiagonal(usize),
}

impl SlitFault {
    /// The number and the name that a refusal's line has.
    pub fn title(self) -> &'static str
        ensures { result.now ≡ slit_title self }
    {
        match self {
            SlitFault::TooShort => "E15 TooShort",
            SlitFault::BadSignature => "E16 BadSignature",
            SlitFault::BadLength => "E17 BadLength",
            SlitFault::BadCount => "E18 BadCount",
            SlitFault::BadSum => "E19 BadSum",
            SlitFault::ReservedValue(_, _) => "E20 ReservedValue",
            SlitFault::BadDiagonal(_) => "E21 BadDiagonal",
        }
    }
}

impl Fault for SlitFault {}
