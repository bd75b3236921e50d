//! The first pass over the characters: a survey of the strike.
ghost use Rattle.std.specs.Prelude.{◌≡◌, ◌≤◌, IfErr, OnOk};
ghost use Rattle.fx_request.specs.Notices.{Told};
ghost use Rattle.fx_strike.specs.Strike.{glyph_fate_of, notices_in, plan_with, plan_within, max_code, Title};
ghost use Rattle.fx_strike.specs.Headline.{notices_of};
ghost use Rattle.fx_strike.specs.inner.Drawing.{CanBeDrawn, CanBeMade, IfDue};
ghost use Rattle.fx_strike.specs.inner.Keeping.{IsKept, IsOfNone};
ghost use Rattle.fx_strike.specs.inner.Mapping.{fates_in};
ghost use Rattle.fx_strike.specs.inner.Surveying.{AreChars, CanSee, Holds, IsNarrow, IsPassed, Has, HasFate, HearsBy, SeesOne};
ghost use Rattle.fx_strike.specs.inner.Surveying.{SurveysNameless, notices_about, notices_by, region_of, survey_from};
ghost use Rattle.fx_strike.specs.inner.Writing.{AreMapped};

use crate::characters::Mapped;
use crate::fate::Fate;
use crate::kept_text::{KeptBytes, KeptText};
use crate::seen::Seen;
use crate::sketch::Sketch;
use crate::striker::Striker;
use crate::surveyed::Survey;
use fx_bdf::Bounds;
use fx_raster::{Region, Scan};
use fx_request::{Deaf, Listener, OnRefused, Refusal, Report};

/// What the first pass leaves: the characters that the font has, the lines of the first ones, and the survey of all.
#[derive(Drop)]
pub(crate) struct FirstPass {
    pub mapped: Vec<Mapped>,
    pub kept: KeptText,
    pub survey: Survey,
}

/// The pixels of a box.
fn region_of(bounds: Bounds) -> Region
    ensures { result ≡ region_of bounds }
{
    Region {
        left: bounds.left,
        bottom: bounds.bottom,
        width: bounds.width,
        height: bounds.height,
    }
}

impl<'a, S: Scan> Striker<'a, S> {
    /// Adds what is seen of a character that is drawn. As long as there is room for lines, its glyph's bits are made and its lines
    /// kept; from then on its bits are made only if its shape does not lie in the box of the glyphs so far.
    fn see_drawn(
        &mut self,
        sketch: &Sketch,
        seen: &mut Seen,
        kept: &mut KeptBytes,
    ) -> Result<(), Refusal>
        requires seen { CanSee seen.old }
        requires drawable { CanBeDrawn sketch.now }
        ensures kept { self.new ≡ self.old }
        ensures seen { OnOk result (Has sketch.now seen.old seen.new kept.old kept.new) }
        ensures fault { IfErr result (λ e. e ≡ Refusal.OutOfMemory) }
    {
        if kept.is_full() && sketch.shape.lies_in(region_of(seen.bounds)) {
            seen.add(sketch, seen.bounds);
            return Ok(());
        }
        let made = self.glyph_of(sketch)?;
        let joined = seen.bounds.joined(made.bounds());
        kept.keep(&made);
        self.scratch.give_back(made.into_bitmap());
        seen.add(sketch, joined);
        Ok(())
    }

    /// Adds what is seen of a character with this fate, and tells of one that is refused.
    fn see_fate<L: Listener>(
        &mut self,
        fate: &Fate,
        seen: &mut Seen,
        kept: &mut KeptBytes,
        listener: &mut L,
    ) -> Result<(), Refusal>
        requires seen { CanSee seen.old }
        requires drawable { CanBeMade fate.now }
        ensures kept { self.new ≡ self.old }
        ensures seen { OnOk result (HasFate fate.now seen.old seen.new kept.old kept.new) }
        ensures heard { HearsBy L.Hears listener.old listener.new (notices_in fate.now) result }
        ensures fault { IfErr result (λ e. e ≡ Refusal.OutOfMemory) }
    {
        match fate {
            Fate::Drawn(sketch) => self.see_drawn(sketch, seen, kept),
            Fate::Unhinted(notice, sketch) => {
                self.see_drawn(sketch, seen, kept)?;
                listener.hear(*notice);
                Ok(())
            }
            Fate::LeftOut(notice) => {
                listener.hear(*notice);
                Ok(())
            }
        }
    }

    /// Adds what is seen of a character with this glyph, and tells of one that is refused; or the first cause that refuses the
    /// strike.
    fn see_one<L: Listener>(
        &mut self,
        refused: OnRefused,
        m: Mapped,
        seen: &mut Seen,
        kept: &mut KeptBytes,
        listener: &mut L,
    ) -> Result<(), Refusal>
        requires code { m.code ≤ max_code }
        requires seen { CanSee seen.old }
        ensures kept { self.new ≡ self.old }
        ensures seen { SeesOne (glyph_fate_of self.old refused m.code m.glyph) seen.old seen.new kept.old kept.new result }
        ensures heard { HearsBy L.Hears listener.old listener.new
            (notices_by (glyph_fate_of self.old refused m.code m.glyph)) result }
    {
        let fate = self.fate_of(refused, m)?;
        let done = self.see_fate(&fate, seen, kept, listener);
        self.give_back(fate);
        done
    }

    /// What is seen of characters, in their order; or the first cause that refuses the strike. Each one that is refused in spite
    /// of which there is a strike is told.
    fn see<L: Listener>(
        &mut self,
        refused: OnRefused,
        mapped: &[Mapped],
        kept: &mut KeptText,
        listener: &mut L,
    ) -> Result<Seen, Refusal>
        requires mapped { AreMapped mapped.now }
        requires none { IsOfNone kept.old }
        ensures kept { self.new ≡ self.old }
        ensures seen { IfDue (Holds self.old refused mapped.now) (fates_in self.old refused mapped.now) result }
        ensures lines { OnOk result (IsKept self.old refused mapped.now kept.new) }
        ensures heard { Told L.Hears listener.old listener.new (notices_about self.old refused mapped.now) result }
    {
        let mut seen = Seen::new();
        // `seen` is what is seen of the characters before this one, and what there is to tell of them was told. Their lines are
        // kept, as long as there was room.
        'mapped: for m in mapped {
            self.see_one(refused, *m, &mut seen, &mut kept.bytes, listener)?;
            kept.count_one();
        }
        Ok(seen)
    }

    /// The survey of the characters that were seen, with the number of those that the font lacks.
    fn survey_from(&self, seen: Seen, missing: u32) -> Survey
        requires { IsNarrow seen }
        ensures { result ≡ survey_from self.now seen missing }
    {
        Survey {
            bounds: seen.bounds,
            summary: seen.gathered.summary(seen.glyphs),
            wish: self.hinter.wish(),
            ascent: self.basis.opened.ascent(),
            descent: self.basis.opened.descent(),
            report: Report {
                glyphs: seen.glyphs,
                missing,
                usage: self.hinter.prelude().plus(seen.usage),
            },
        }
    }

    /// The first pass over the characters of a strike, whatever its title. If there is to be room, it keeps the lines of the first
    /// characters.
    pub(crate) fn first_pass<L: Listener>(
        &mut self,
        chars: &[u32],
        refused: OnRefused,
        has_room: bool,
        listener: &mut L,
    ) -> Result<FirstPass, Refusal>
        requires chars { AreChars chars.now }
        ensures kept { self.new ≡ self.old }
        ensures passes { (title : Title)
            → IfDue (IsPassed self.old title chars.now refused) (plan_within self.old title chars.now refused) result }
        ensures heard { (title : Title)
            → Told L.Hears listener.old listener.new (notices_of (plan_within self.old title chars.now refused)) result }
    {
        let characters = self.characters(chars)?;
        let mut kept = KeptText::new(self.alloc, has_room);
        let seen = self.see(refused, &characters.mapped, &mut kept, listener)?;
        let survey = self.survey_from(seen, characters.missing);
        Ok(FirstPass {
            mapped: characters.mapped,
            kept,
            survey,
        })
    }

    /// The survey of the strike of characters within their limits, whatever its title. If work is bounded, it finds first which of
    /// them take too much.
    pub(crate) fn survey_chars(
        &mut self,
        chars: &[u32],
        refused: OnRefused,
    ) -> Result<Survey, Refusal>
        requires chars { AreChars chars.now }
        ensures kept { self.new ≡ self.old }
        ensures survey { SurveysNameless (λ title. plan_with self.old title chars.now refused) result }
    {
        let before = self.bound_chars(refused, chars)?;
        let result = self.survey_within(chars, refused);
        self.over = before;
        result
    }

    /// The same once these are known.
    fn survey_within(&mut self, chars: &[u32], refused: OnRefused) -> Result<Survey, Refusal>
        requires chars { AreChars chars.now }
        ensures kept { self.new ≡ self.old }
        ensures survey { SurveysNameless (λ title. plan_within self.old title chars.now refused) result }
    {
        let first = self.first_pass(chars, refused, false, &mut Deaf)?;
        Ok(first.survey)
    }
}
