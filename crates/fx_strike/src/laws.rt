//! What the definitions imply.
ghost use Rattle.fx_strike.specs.Laws.{GlyphIsOne, TextIsOne, StrikeExists, PartIsOne, OneIsOfStrike};

/// A sketch has one glyph, and a strike one text.
pub fn text()
    ensures glyph { GlyphIsOne }
    ensures text { TextIsOne }
{
    fx_bdf::laws::trimmed();
}

/// If no cause refuses a strike, there are glyphs of its sketches.
pub fn exists()
    ensures { StrikeExists }
{}

/// A character's part depends on the font, the size, the mode and its code point alone.
pub fn part()
    ensures { PartIsOne }
{}

/// One character is the part of a strike of that character alone, or is refused as that strike is, whatever its title.
pub fn one()
    ensures { OneIsOfStrike }
{}
