//! What the definitions imply.

ghost use Rattle.fx_vary.specs.Laws.{MovesByDelta, RestsWhereNoneCounts};

/// A tuple that counts 1 moves a point that it names by exactly its delta, if no other tuple moves it.
pub fn law_by_delta()
    ensures { MovesByDelta }
{}

/// Where none of its tuples counts, as at the defaults of most fonts, a glyph that has no fault is as in the font.
pub fn law_rests()
    ensures { RestsWhereNoneCounts }
{}
