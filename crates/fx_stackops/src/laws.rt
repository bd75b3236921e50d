//! What the definitions imply.

ghost use Rattle.fx_stackops.specs.Rows.{FlooredIsGreatest, CeiledIsLeast};

/// FLOOR gives the greatest multiple of 64 not above a number, CEILING the least not below it.
#[tactic(auto, using(crate::proofs::Multiples::floored_is_greatest, crate::proofs::Multiples::ceiled_is_least))]
pub fn multiples()
    ensures floor { FlooredIsGreatest }
    ensures ceiling { CeiledIsLeast }
{}
