//! From characters to what a striker makes of them, once the checks passed.
ghost use Rattle.std.specs.Prelude.{◌≡◌, ◌<◌, ◌^◌, Ok, IfOk, IfErr, OnOk};
ghost use Rattle.fx_fixed.specs.Changes.{change_of};
ghost use Rattle.fx_strike.specs.Title.{titled};
ghost use Rattle.fx_strike.specs.Strike.{plan_with, plan_within, one_with, one_among, bounded_for, checked_chars, Fails};
ghost use Rattle.fx_request.specs.declared.request.OnRefused.TheVariants.{Stop};
ghost use Rattle.fx_request.specs.Notices.{Told};
ghost use Rattle.fx_strike.specs.Headline.{Leaves, IsOneOf, notices_of};
ghost use Rattle.fx_strike.specs.inner.Drawing.{Finds};
ghost use Rattle.fx_strike.specs.inner.Surveying.{AreChars, IsChecked};

use crate::first_pass::FirstPass;
use crate::second_pass::Draft;
use crate::striker::Striker;
use fx_bdf::{BitGlyph, Title};
use fx_fixed::Sink;
use fx_raster::Scan;
use fx_request::{Listener, OnRefused, Refusal, Report};

impl<'a, S: Scan> Striker<'a, S> {
    /// The glyph of a code point within the limit; none if the font lacks it.
    #[tactic(auto, unfolding(crate::specs::Strike::one_with))]
    pub(crate) fn one(&mut self, code: u32) -> Result<Option<BitGlyph>, Refusal>
        ensures kept { self.new ≡ self.old }
        ensures one { Finds (one_with self.old code) result }
    {
        let glyph = self.basis.opened.map.glyph(code);
        if glyph == 0 {
            return Ok(None);
        }
        let drawn = self.draw_alone(code, glyph)?;
        Ok(Some(drawn))
    }

    /// Refuses from now on those of these characters that take too much work together, if work is bounded, and no others.
    pub fn bound_for(&mut self, chars: &[u32]) -> Result<(), Refusal>
        requires { Ok tt ≡ checked_chars chars.now }
        ensures bounds { OnOk result (self.new ≡ bounded_for self.old Stop chars.now) }
        ensures memory { IfErr result (λ r. r ≡ Refusal.OutOfMemory) }
    {
        self.bound_chars(OnRefused::Stop, chars)?;
        Ok(())
    }

    /// The glyph of one of the characters for which `bound_for` was called; none if the font lacks it.
    #[tactic(auto, unfolding(crate::specs::Strike::one_among))]
    pub fn one_among(&mut self, code: u32) -> Result<Option<BitGlyph>, Refusal>
        ensures kept { self.new ≡ self.old }
        ensures glyph { IfOk result (IsOneOf (one_among self.old code)) }
        ensures cause { IfErr result (λ refusal. Fails refusal (one_among self.old code)) }
    {
        let glyph = self.basis.opened.map.glyph(code);
        if glyph == 0 {
            return Ok(None);
        }
        let drawn = self.draw(code, glyph)?;
        Ok(Some(drawn))
    }

    /// Writes the strike of characters and a title within their limits. If work is bounded, it finds first which of them take too
    /// much.
    pub(crate) fn write_strike<W: Sink, L: Listener>(
        &mut self,
        title: &Title<'_>,
        chars: &[u32],
        refused: OnRefused,
        out: &mut W,
        listener: &mut L,
    ) -> Result<Report, Refusal>
        requires faults { W.fault_count out.old < 2 ^ 63 }
        requires chars { AreChars chars.now }
        requires title { IsChecked (titled title.now) }
        ensures kept { self.new ≡ self.old }
        ensures leaves { Leaves {Y = Unit {0}} (Ok tt) (plan_with self.old (titled title.now) chars.now refused)
            (change_of W.held W.fault_count out.old out.new) result }
        ensures heard { Told L.Hears listener.old listener.new
            (notices_of (plan_with self.old (titled title.now) chars.now refused)) result }
    {
        let before = self.bound_chars(refused, chars)?;
        let result = self.write_within(title, chars, refused, out, listener);
        self.over = before;
        result
    }

    /// The same once these are known: a first pass surveys it and tells of refused characters, a second writes it. Lines are kept
    /// between them if there is to be room.
    fn write_within<W: Sink, L: Listener>(
        &mut self,
        title: &Title<'_>,
        chars: &[u32],
        refused: OnRefused,
        out: &mut W,
        listener: &mut L,
    ) -> Result<Report, Refusal>
        requires faults { W.fault_count out.old < 2 ^ 63 }
        requires chars { AreChars chars.now }
        requires title { IsChecked (titled title.now) }
        ensures kept { self.new ≡ self.old }
        ensures leaves { Leaves {Y = Unit {0}} (Ok tt) (plan_within self.old (titled title.now) chars.now refused)
            (change_of W.held W.fault_count out.old out.new) result }
        ensures heard { Told L.Hears listener.old listener.new
            (notices_of (plan_within self.old (titled title.now) chars.now refused)) result }
    {
        let ppem = self.basis.opened.ppem;
        let has_room = self.hinter.has_room();
        let first = self.first_pass(chars, refused, has_room, listener)?;
        let FirstPass {
            mapped,
            kept,
            survey,
        } = first;
        let properties = title.all_properties(self.alloc, ppem.pixels(), survey.summary)?;
        let draft = Draft {
            name: title.name,
            properties: &properties,
            header: survey.header(ppem),
            mapped: &mapped,
            refused,
        };
        self.write_text(kept, &draft, out)?;
        Ok(survey.report)
    }
}
