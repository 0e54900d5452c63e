//! What cores weigh in the rows of containers: laws over the definitions alone. Nothing here runs.
ghost use Rattle.rows.specs.Scaled.{ScaledRowsWeigh, ScaledRowsFit, PartsRise, PartsAreScaled, DistancesStay};
ghost use Rattle.rows.specs.Scaled.{MovesAreUnheld};
ghost use Rattle.rows.specs.Weighs.{RowsWeigh};

/// The lowest CPU of a core that is allowed and wholly online weighs its distance to the nearest home. No other CPU has
/// a weight.
pub fn rows_weigh()
    ensures { RowsWeigh }
{}

/// In a scaled row a CPU weighs its distance, and a move if it is not held (`weights`). So by distance it weighs as
/// much as in the row (`distance`), and by moves 1 if it is not held (`moves`).
pub fn scaled_rows_weigh()
    ensures weights { ScaledRowsWeigh }
    ensures distance { DistancesStay }
    ensures moves { MovesAreUnheld }
{}

/// A row of distances that is within the limits is within them when it is scaled.
pub fn scaled_rows_fit()
    ensures { ScaledRowsFit }
{}

/// The offers of a scaled row rise if those of the row do, and no CPU of them is more than one move.
pub fn parts_rise()
    ensures rising { PartsRise }
    ensures scaled { PartsAreScaled }
{}
