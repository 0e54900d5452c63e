use cpu_set::IdSet;
use std::marker::Model;

/// A set of CPUs for each row of a problem, in the rows' order.
#[derive(Debug, Drop)]
pub struct Plan {
    pub sets: Vec<IdSet>,
}

impl Model for Plan {
    ghost use Rattle.std.specs.Prelude.{List};
    ghost use Rattle.cpu_set.specs.Ids.{Ids};
    ghost use Rattle.certificate.specs.SetsCode.{sets_code};

    ghost Value = { List Ids };

    ghost coded = { sets_code };

    ghost view = { λ a. a.sets.items };
}
