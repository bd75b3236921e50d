//! Reading a glyph.

ghost use Rattle.std.specs.Prelude.{◌≡◌, IfOk, Ok};
ghost use Rattle.fx_glyf.specs.declared.glyph.Glyph.{Glyph};
ghost use Rattle.fx_glyf.specs.Grammar.{Describes};
ghost use Rattle.fx_glyf.specs.Glyphs.{glyph_of};

use crate::composite::Composite;
use crate::fault::GlyphFault;
use crate::glyph::Glyph;
use crate::simple::Simple;
use fx_sfnt::u16_in;

/// Reads the bytes of a glyph, whose number is g (OpenType, `glyf`).
///
/// The result is the one glyph that the grammar finds in a front of the bytes, else the first
/// fault: `GlyphShort` if the header or the end points are truncated, else `BadContours` if an end point
/// is below the one before it, else `GlyphShort`.
#[tactic(auto, using(crate::proofs::Described::found_glyph, crate::proofs::Described::only_glyph, crate::proofs::Described::if_ok))]
pub fn read<'a>(bytes: &'a [u8], g: u16) -> Result<Glyph<'a>, GlyphFault>
    ensures exact { result ≡ glyph_of bytes.now g }
    // What is read is described by the bytes.
    ensures found { IfOk result (λ glyph. Describes bytes.now glyph) }
    // What the bytes describe is read, and nothing else is.
    ensures only { (glyph : Glyph) → Describes bytes.now glyph → result ≡ Ok glyph }
{
    read_inner(bytes, g)
}

/// The same, by the number of contours.
#[tactic(auto, unfolding(crate::specs::Glyphs::glyph_of))]
fn read_inner<'a>(bytes: &'a [u8], g: u16) -> Result<Glyph<'a>, GlyphFault>
    ensures { result ≡ glyph_of bytes.now g }
{
    if bytes.is_empty() {
        return Ok(Glyph::Empty);
    }
    if bytes.len() < 10 {
        return Err(GlyphFault::GlyphShort(g));
    }
    let contours = u16_in(bytes, 0);
    if contours == 0 {
        return Ok(Glyph::Empty);
    }
    if contours < 0x8000 {
        let simple = Simple::read(contours, bytes, g)?;
        return Ok(Glyph::Simple(simple));
    }
    let composite = Composite::read(bytes, g)?;
    Ok(Glyph::Composite(composite))
}
