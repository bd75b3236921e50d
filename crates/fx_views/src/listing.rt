//! The listing of a font's program.
ghost use Rattle.std.specs.Prelude.{◌≡◌, ◌<◌, ◌^◌, ℕ, length, IfOk, IfErr, IsErrOf};
ghost use Rattle.fx_fixed.specs.Chain.{map_ok};
ghost use Rattle.fx_fixed.specs.Changes.{change_of};
ghost use Rattle.fx_views.specs.Listings.{program_of, IsListed, IsListedTo, IsNotListed, IsNoFault};

use fx_code::Code;
use fx_fixed::Sink;
use fx_glyf::{Glyph, read};
use fx_machine::FontProgram;
use fx_request::Refusal;
use fx_sfnt::{Font, FontFile};

/// A program of a font file; an absent table, or an empty glyph's, is an empty one.
#[tactic(auto, unfolding(crate::specs::Listings::program_of))]
fn program_of<'a>(font: &FontFile<'a>, what: FontProgram) -> Result<&'a [u8], Refusal>
    ensures value { map_ok (λ p. p.now) result ≡ program_of font.now what }
    ensures short { IfOk result (λ p. length p.now < 2 ^ 32) }
    ensures named { IfErr result IsNoFault }
{
    let font = Font::open(font)?;
    match what {
        FontProgram::Fpgm => Ok(font.table(*b"fpgm").unwrap_or(&[])),
        FontProgram::Prep => Ok(font.table(*b"prep").unwrap_or(&[])),
        FontProgram::Glyph(g) => match read(font.glyph_bytes(g)?, g)? {
            Glyph::Empty => Ok(&[]),
            Glyph::Simple(simple) => Ok(simple.code()),
            Glyph::Composite(composite) => Ok(composite.code()),
        },
    }
}

/// Writes the listing of one of a font's programs: a line for each instruction, with its address, its opcode, its name and the
/// numbers that it pushes. A program that is absent or empty has no line.
///
/// The first cause is returned, and nothing is written: the font's tables, then the glyph's number, its offsets and its bytes.
/// After `WriteFailed(n)` the writer holds the first n bytes of the listing. No memory is taken.
pub fn listing_of<W: Sink>(
    font: &FontFile<'_>,
    what: FontProgram,
    out: &mut W,
) -> Result<(), Refusal>
    requires { W.fault_count out.old < 2 ^ 63 }
    // The program exists, its listing was written, and the writer counted no fault.
    ensures text { IfOk result (λ _.
        IsListed (program_of font.now what) (change_of W.held W.fault_count out.old out.new)) }
    // The first cause was named, nothing was written, and the writer counted no fault.
    ensures cause { IfErr result (λ refusal. IsNoFault refusal →
        IsNotListed (program_of font.now what) (change_of W.held W.fault_count out.old out.new) refusal) }
    // The program exists, exactly the first n bytes of its listing were written, and the writer counted one fault.
    ensures writer { (n : ℕ) → IsErrOf result (Refusal.WriteFailed n) →
        IsListedTo (program_of font.now what) (change_of W.held W.fault_count out.old out.new) n }
{
    let code = Code::new(program_of(font, what)?);
    code.listing(out)?;
    Ok(())
}
