//! What the definitions imply.

ghost use Rattle.fx_tuples.specs.Laws.{CountsAtMostOne, RestsAtDefaults};

/// No tuple counts more than 1.
pub fn law_at_most_one()
    ensures { CountsAtMostOne }
{}

/// At the defaults a tuple does not count if some axis does not count fully there.
pub fn law_rests()
    ensures { RestsAtDefaults }
{}
