//! The second pass over the characters: it writes the lines that the first pass kept, makes the other characters again, and writes
//! theirs.
ghost use Rattle.std.specs.Prelude.{◌≡◌, ◌≤◌, ◌<◌, ◌^◌, ◌*◌, ℕ, List, [], ◌∷◌, length, OnOk};
ghost use Rattle.fx_fixed.specs.Texts.{Adds};
ghost use Rattle.fx_bdf.specs.Text.{longest_glyph};
ghost use Rattle.fx_fixed.specs.Changes.{change_of};
ghost use Rattle.fx_strike.specs.Strike.{sketches_in, max_code};
ghost use Rattle.fx_strike.specs.inner.Drawing.{CanBeDrawn, CanBeMade};
ghost use Rattle.fx_strike.specs.inner.Keeping.{IsKept, IsReady};
ghost use Rattle.fx_strike.specs.inner.Writing.{AddsPart, AreLinesIn, AreLinesOf, AreMapped, HasRoom, Stops, Writes};
ghost use Rattle.fx_strike.specs.inner.Writing.{draft_text, longest_glyphs, longest_text};

use crate::characters::Mapped;
use crate::fate::Fate;
use crate::kept_text::KeptText;
use crate::sketch::Sketch;
use crate::striker::Striker;
use fx_bdf::{Header, Property, write_end, write_glyph, write_header};
use fx_fixed::{Sink, TextWriter};
use fx_raster::Scan;
use fx_request::{OnRefused, Refusal};

/// A strike that was surveyed, and is not written yet: its name, its properties beside FONT_ASCENT and
/// FONT_DESCENT, the numbers of its header, its characters in rising order, and what becomes of refused characters.
#[derive(Clone, Copy)]
pub(crate) struct Draft<'d> {
    pub name: &'d str,
    pub properties: &'d [Property<'d>],
    pub header: Header,
    pub mapped: &'d [Mapped],
    pub refused: OnRefused,
}

impl<'a, S: Scan> Striker<'a, S> {
    /// Writes the lines of a character with this fate. One that is left out has none.
    fn write_fate<W: Sink>(
        &mut self,
        fate: &Fate,
        text: &mut TextWriter<'_, W>,
    ) -> Result<(), Refusal>
        requires room { HasRoom text.old longest_glyph }
        requires drawable { CanBeMade fate.now }
        ensures kept { self.new ≡ self.old }
        ensures lines { AddsPart (AreLinesIn (sketches_in fate.now)) longest_glyph text.old text.new result }
    {
        match fate {
            Fate::Drawn(sketch) => self.write_drawn(sketch, text),
            Fate::Unhinted(_, sketch) => self.write_drawn(sketch, text),
            Fate::LeftOut(_) => Ok(()),
        }
    }

    /// Makes the bits of a character, and writes its lines.
    fn write_drawn<W: Sink>(
        &mut self,
        sketch: &Sketch,
        text: &mut TextWriter<'_, W>,
    ) -> Result<(), Refusal>
        requires room { HasRoom text.old longest_glyph }
        requires drawable { CanBeDrawn sketch.now }
        ensures kept { self.new ≡ self.old }
        ensures lines { AddsPart (AreLinesIn (sketch.now ∷ [])) longest_glyph text.old text.new result }
    {
        fx_bdf::laws::trimmed();
        let drawn = self.glyph_of(sketch)?;
        write_glyph(&drawn, text)?;
        self.scratch.give_back(drawn.into_bitmap());
        Ok(())
    }

    /// Makes a character that the font has, and writes its lines.
    fn write_one<W: Sink>(
        &mut self,
        refused: OnRefused,
        m: Mapped,
        text: &mut TextWriter<'_, W>,
    ) -> Result<(), Refusal>
        requires room { HasRoom text.old longest_glyph }
        requires code { m.code ≤ max_code }
        ensures kept { self.new ≡ self.old }
        ensures lines { AddsPart (AreLinesOf self.old refused (m ∷ [])) longest_glyph text.old text.new result }
    {
        let fate = self.fate_of(refused, m)?;
        let written = self.write_fate(&fate, text);
        self.give_back(fate);
        written
    }

    /// Makes characters in their order, and writes their lines.
    fn write_made<W: Sink>(
        &mut self,
        refused: OnRefused,
        mapped: &[Mapped],
        text: &mut TextWriter<'_, W>,
    ) -> Result<(), Refusal>
        requires room { HasRoom text.old (length mapped.now * longest_glyph) }
        requires mapped { AreMapped mapped.now }
        ensures kept { self.new ≡ self.old }
        ensures lines { AddsPart (AreLinesOf self.old refused mapped.now) (length mapped.now * longest_glyph)
            text.old text.new result }
    {
        // The lines of the characters so far were written.
        'mapped: for m in mapped {
            self.write_one(refused, *m, text)?;
        }
        Ok(())
    }

    /// Writes the lines of all characters: those that the first pass kept, then those of the others, which are made once the memory
    /// of those is given back.
    fn write_all<W: Sink>(
        &mut self,
        refused: OnRefused,
        kept: KeptText,
        mapped: &[Mapped],
        text: &mut TextWriter<'_, W>,
    ) -> Result<(), Refusal>
        requires room { HasRoom text.old longest_glyphs }
        requires mapped { AreMapped mapped.now }
        requires lines { IsKept self.old refused mapped.now kept }
        ensures kept { self.new ≡ self.old }
        ensures lines { AddsPart (AreLinesOf self.old refused mapped.now) longest_glyphs text.old text.new result }
    {
        fx_bdf::laws::trimmed();
        text.add(&[kept.bytes.bytes.as_slice()])?;
        let (_, others) = mapped.split_at(kept.count);
        drop(kept);
        self.write_made(refused, others, text)
    }

    /// Writes the header of a strike, the lines of its glyphs, and the end.
    fn write_parts<W: Sink>(
        &mut self,
        kept: KeptText,
        draft: &Draft<'_>,
        text: &mut TextWriter<'_, W>,
    ) -> Result<(), Refusal>
        requires room { HasRoom text.old longest_text }
        requires ready { IsReady self.old draft.now kept }
        ensures kept { self.new ≡ self.old }
        ensures same { text.new.sink ≡ text.old.sink }
        ensures ended { OnOk result (text.new.waiting ≡ []) }
        ensures lines { (lines : List ℕ) → AreLinesOf self.old draft.now.refused draft.now.mapped.now lines
            → Adds Stops text.old text.new (draft_text draft.now lines) result }
    {
        write_header(draft.name, draft.properties, &draft.header, text)?;
        self.write_all(draft.refused, kept, draft.mapped, text)?;
        write_end(text)?;
        Ok(text.end()?)
    }

    /// Writes the text of a strike.
    pub(crate) fn write_text<W: Sink>(
        &mut self,
        kept: KeptText,
        draft: &Draft<'_>,
        out: &mut W,
    ) -> Result<(), Refusal>
        requires faults { W.fault_count out.old < 2 ^ 63 }
        requires ready { IsReady self.old draft.now kept }
        ensures kept { self.new ≡ self.old }
        ensures lines { (lines : List ℕ) → AreLinesOf self.old draft.now.refused draft.now.mapped.now lines
            → Writes (change_of W.held W.fault_count out.old out.new) (draft_text draft.now lines) result }
    {
        let mut text = TextWriter::new(out);
        let result = self.write_parts(kept, draft, &mut text);
        text.close();
        result
    }
}
