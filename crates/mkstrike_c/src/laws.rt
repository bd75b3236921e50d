//! What the definitions imply.
ghost use Rattle.mkstrike_c.specs.Reasons.{AdviceIsOfRefusals, NumbersAreApart, ReasonsAreNames};

/// The name of a refusal's number is the refusal's name.
pub fn reasons()
    ensures { ReasonsAreNames }
{}

/// What to do after a refusal's number is what to do after the refusal.
pub fn advice()
    ensures { AdviceIsOfRefusals }
{}

/// No refusal has a number that only C has, nor that of a call that is done or finds nothing.
pub fn numbers()
    ensures { NumbersAreApart }
{}
