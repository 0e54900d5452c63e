use std::marker::Model;

/// Rows of a problem, each by its number, counted from 0.
#[derive(Debug, Drop)]
pub struct Members {
    pub rows: Vec<usize>,
}

impl Model for Members {
    ghost use Rattle.std.specs.Prelude.{List, ℕ};
    ghost use Rattle.certificate.specs.MembersCode.{members_code};

    ghost Value = { List ℕ };

    ghost coded = { members_code };

    ghost view = { λ a. a.rows.items };
}
