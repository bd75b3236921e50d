//! What the definitions imply.
ghost use Rattle.fx_request.specs.Advice.{AdvisedAreNamed, NumbersHaveAdvice};
ghost use Rattle.fx_request.specs.Characters.{RisingAreRisen, RisenIsOne};
ghost use Rattle.fx_request.specs.Refusals.{NumbersHaveNames};

/// The code points in rising order rise, and are those of the request; no other list is so.
pub fn rising()
    ensures risen { RisingAreRisen }
    ensures one { RisenIsOne }
{}

/// The name of a refusal's number is the refusal's name.
pub fn names()
    ensures { NumbersHaveNames }
{}

/// What to do after a refusal's number is what to do after the refusal; and a number has advice exactly if it has a name.
pub fn advice()
    ensures numbers { NumbersHaveAdvice }
    ensures named { AdvisedAreNamed }
{}
