//! What the definitions imply.

ghost use Rattle.fx_hint.specs.Runs.{ListsTheWalk};

/// The list of the programs that run is that of the outline's own recursion.
pub fn runs_are_the_walks()
    ensures { ListsTheWalk }
{}
