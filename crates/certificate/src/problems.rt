use crate::Row;
use std::marker::Model;

/// The rows for which a plan is sought. Their order counts: refusals name a row by its place.
#[derive(Debug, Drop)]
pub struct Problem {
    pub rows: Vec<Row>,
}

impl Model for Problem {
    ghost use Rattle.std.specs.Prelude.{List};
    ghost use Rattle.certificate.specs.RowView.{RowView, rows_code};

    ghost Value = { List RowView };

    ghost coded = { rows_code };

    ghost view = { λ a. a.rows.items };
}
