//! Costs that count moves besides the distance, each as one number.
ghost use Rattle.std.specs.Prelude.{◌≡◌, ◌<◌, ◌≤◌, ◌^◌};
ghost use Rattle.certificate.specs.Packed.{packed, distance_of, moves_of};

use crate::{MAX_WEIGHT, MOVE_SCALE};

/// What a CPU costs a row, or a plan costs, where moves are counted: of two costs the one of less distance is the
/// lesser, and of two of one distance the one of fewer moves.
#[derive(Clone, Copy, Debug, PartialEq, Eq)]
pub struct Cost {
    /// The distance to the nearest home node, as ACPI's SLIT counts distances: 10 is local. Of a plan that of all its
    /// CPUs.
    pub distance: u64,
    /// How many CPUs move, below [`MOVE_SCALE`].
    pub moves: u64,
}

impl Cost {
    /// The two parts of a weight or a total that counts moves.
    #[inline]
    pub fn unpack(number: u64) -> Cost
        ensures distance { result.distance ≡ distance_of number }
        ensures moves { result.moves ≡ moves_of number }
    {
        let scale = u64::from(MOVE_SCALE);
        Cost {
            distance: number / scale,
            moves: number % scale,
        }
    }

    /// Both parts as one number, as the total of a certificate has them: the distance [`MOVE_SCALE`] times, and the
    /// moves.
    #[inline]
    pub fn pack(self) -> u64
        requires { packed self.distance self.moves < 2 ^ 64 }
        ensures { result ≡ packed self.distance self.moves }
    {
        self.distance * u64::from(MOVE_SCALE) + self.moves
    }

    /// The same as the weight of a CPU.
    #[inline]
    pub fn weight(self) -> u32
        requires { packed self.distance self.moves ≤ MAX_WEIGHT }
        ensures { result ≡ packed self.distance self.moves }
    {
        self.pack() as u32
    }
}
