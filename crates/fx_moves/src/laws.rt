//! What the definitions imply.

ghost use Rattle.fx_moves.specs.Laws.{AddNothing, InferredIsBetween};

/// An inferred delta lies between those of its two neighbours, unless these have one coordinate.
pub fn law_between()
    ensures { InferredIsBetween }
{}

/// Tuples none of which counts move no point.
pub fn law_add_nothing()
    ensures { AddNothing }
{}
