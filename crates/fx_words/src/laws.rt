//! What the definitions imply.
ghost use Rattle.fx_words.specs.Parts.{NamesAreApart};

/// After words that name neither, FONT and `-o FILE` leave the words for the program as they are.
pub fn names()
    ensures { NamesAreApart }
{}
