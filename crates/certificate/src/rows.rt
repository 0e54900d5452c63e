use crate::Offers;
use cpu_set::IdSet;
use std::marker::Model;

/// What one container asks for.
#[derive(Debug, Drop)]
pub struct Row {
    /// The container's id.
    pub id: String,
    /// How many CPUs it asks for, 1 to [`MAX_DEMAND`](crate::MAX_DEMAND).
    pub demand: u32,
    /// The CPUs that it may have, by weight. A CPU in no offer is not allowed.
    pub offers: Offers,
}

/// CPUs of one weight. A weight is what each of them costs the row that holds it; a plan costs the sum of the weights
/// of the CPUs that its rows hold.
#[derive(Clone, Copy, Debug)]
pub struct Offer {
    /// At most [`MAX_WEIGHT`](crate::MAX_WEIGHT). For pinning it is a [`Cost`](crate::Cost) as one number: the CPU's
    /// distance to the container's nearest home node, and one move where the container does not hold it. So of a local
    /// CPU, at distance 10, it is 655,360 or 655,361.
    pub weight: u32,
    pub cpus: IdSet,
}

impl Model for Row {
    ghost use Rattle.std.specs.Prelude.{string_bytes};
    ghost use Rattle.certificate.specs.RowView.{RowView, row_code};

    ghost Value = { RowView };

    ghost coded = { row_code };

    ghost view = { λ a. record { id = string_bytes a.id; demand = a.demand; offers = a.offers } };
}
