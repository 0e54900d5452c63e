use cpu_set::IdSet;
use std::marker::Model;

/// The classes of twins: sets of CPUs, none of them empty, no CPU in two.
#[derive(Debug, Drop)]
pub struct Classes {
    pub sets: Vec<IdSet>,
}

impl Model for Classes {
    ghost use Rattle.std.specs.Prelude.{List};
    ghost use Rattle.cpu_set.specs.Ids.{Ids};
    ghost use Rattle.certificate.specs.SetsCode.{sets_code};

    ghost Value = { List Ids };

    ghost coded = { sets_code };

    ghost view = { λ a. a.sets.items };
}
