//! What the definitions imply.
ghost use Rattle.fx_arguments.specs.CommandLine.{MistakesAreUsage};

/// Something is wrong with arguments exactly if they are a usage fault.
#[tactic(auto, using(crate::proofs::Mistaken::mistakes))]
pub fn mistakes()
    ensures { MistakesAreUsage }
{}
