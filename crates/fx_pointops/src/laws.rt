//! What the definitions imply.

ghost use Rattle.fx_pointops.specs.Kept.{RowsKeepShapes};

/// No row changes how many points a zone has, or its contours.
#[tactic(auto, using(crate::proofs::Keeping::rows_keep))]
pub fn rows_keep_shapes()
    ensures { RowsKeepShapes }
{}
