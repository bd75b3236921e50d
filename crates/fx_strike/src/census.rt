//! Which characters of a careful strike take too much work, found before any is made for good.
ghost use Rattle.std.specs.Prelude.{◌≡◌, ◌≤◌, [], length, Ok, IfOk, IfErr};
ghost use Rattle.fx_fixed.specs.Chain.{GivesUnless};
ghost use Rattle.fx_raster.specs.Work.{within};
ghost use Rattle.fx_request.specs.Limits.{max_characters};
ghost use Rattle.fx_strike.specs.Careful.{first_budget, filled, after_drawing, weighed, over_in};
ghost use Rattle.fx_strike.specs.Strike.{glyph_fate_of, drawing_by, drawing_in, programs_in, over_among, bounded, bounded_for, Fails};
ghost use Rattle.fx_strike.specs.inner.Mapping.{mapped_in};
ghost use Rattle.fx_strike.specs.inner.Weighing.{AreRising, Bounds};
ghost use Rattle.fx_strike.specs.inner.Surveying.{AreChars};

use crate::characters::Mapped;
use crate::fate::Fate;
use crate::over_codes::OverCodes;
use crate::striker::Striker;
use fx_raster::Scan;
use fx_request::{OnRefused, Refusal};
use std::alloc::AllocError;
use std::mem;

/// The most work that the programs of a character may do: instructions, numbers of the stack, points visited and bytes searched.
/// So much `fpgm` and `prep` may do together, whose bytes count too.
pub(crate) const CHARACTER_WORK: usize = 1_048_576;

/// The most work that the drawing of a character may be: rows of its frame, pieces, the rows and columns that they cross, and gaps.
const CHARACTER_DRAWING: usize = 1_048_576;

/// What a call begins with of either: as much as eight characters may take.
const FIRST: usize = 8_388_608;

/// What each character of a call adds to the work that programs may do.
const PROGRAMS_SHARE: usize = 32_768;

/// What each character of a call adds to the work that drawing may be.
const DRAWING_SHARE: usize = 32_768;

/// The most that is saved of either: more than a call of all characters adds.
const MOST_SAVED: usize = 1 << 32;

/// The work that the characters of a call may still take: that of their programs, and that of their drawing.
#[derive(Clone, Copy)]
pub(crate) struct Budget {
    pub programs: usize,
    pub drawing: usize,
}

impl Budget {
    /// The budget that a call begins with.
    fn first() -> Budget
        ensures { result ≡ first_budget }
    {
        Budget {
            programs: FIRST,
            drawing: FIRST,
        }
    }

    /// The budget with the shares of one character more. So each character may take its shares, whatever those before it took.
    fn filled(self) -> Budget
        ensures { result ≡ filled self }
    {
        Budget {
            programs: self.programs.saturating_add(PROGRAMS_SHARE).min(MOST_SAVED),
            drawing: self.drawing.saturating_add(DRAWING_SHARE).min(MOST_SAVED),
        }
    }
}

impl<'a, S: Scan> Striker<'a, S> {
    /// What becomes of a character, whatever takes too much work.
    fn fate_at_any_work(&mut self, refused: OnRefused, m: Mapped) -> Result<Fate, Refusal>
        ensures kept { self.new ≡ self.old }
        ensures fate { GivesUnless Fails (λ f. f) result
            (glyph_fate_of (record self.old { over = [] }) refused m.code m.glyph) }
    {
        let over = mem::replace(&mut self.over, OverCodes::none(self.alloc));
        let fate = self.fate_of(refused, m);
        self.over = over;
        fate
    }

    /// The work of drawing a character with this fate; none if it is more than `most`.
    fn fate_work(&mut self, fate: &Fate, most: usize) -> Result<Option<usize>, AllocError>
        ensures kept { self.new ≡ self.old }
        ensures work { IfOk result (λ w. w ≡ within most (drawing_by (Ok fate.now))) }
    {
        match fate {
            Fate::Drawn(sketch) | Fate::Unhinted(_, sketch) => {
                sketch
                    .shape
                    .work_within(self.alloc, self.scan, &mut self.scratch, most)
            }
            Fate::LeftOut(_) => Ok(Some(0)),
        }
    }

    /// The work of drawing a character; none if it is more than `most`. Nothing is drawn of one that is refused.
    fn drawing_within(
        &mut self,
        refused: OnRefused,
        m: Mapped,
        most: usize,
    ) -> Result<Option<usize>, AllocError>
        ensures kept { self.new ≡ self.old }
        ensures work { IfOk result (λ w. w ≡ within most (drawing_in self.old refused m)) }
    {
        match self.fate_at_any_work(refused, m) {
            Ok(fate) => {
                let work = self.fate_work(&fate, most);
                self.give_back(fate);
                work
            }
            Err(Refusal::OutOfMemory) => Err(AllocError),
            Err(_) => Ok(Some(0)),
        }
    }

    /// Whether the drawing of a character is more work than it may be. The budget pays for it.
    fn weigh_drawing(
        &mut self,
        refused: OnRefused,
        m: Mapped,
        budget: &mut Budget,
    ) -> Result<bool, AllocError>
        ensures kept { self.new ≡ self.old }
        ensures weighed { IfOk result (λ over.
            after_drawing (drawing_in self.old refused m) budget.old ≡ (over, budget.new)) }
    {
        let most = budget.drawing.min(CHARACTER_DRAWING);
        let work = self.drawing_within(refused, m, most)?;
        budget.drawing -= work.unwrap_or(most);
        Ok(work.is_none())
    }

    /// Whether a character takes too much work. It adds its shares to the budget, which pays for it.
    fn weigh(
        &mut self,
        refused: OnRefused,
        m: Mapped,
        budget: &mut Budget,
    ) -> Result<bool, AllocError>
        ensures kept { self.new ≡ self.old }
        ensures weighed { IfOk result (λ over.
            weighed (programs_in self.old) (drawing_in self.old refused) m budget.old ≡ (over, budget.new)) }
    {
        *budget = budget.filled();
        let most = budget.programs.min(CHARACTER_WORK);
        let left = self.programs_left(m.glyph, most)?;
        budget.programs -= most.saturating_sub(left.unwrap_or(0));
        if left.is_none() {
            return Ok(true);
        }
        self.weigh_drawing(refused, m, budget)
    }

    /// The code points of those of these characters that take too much work.
    fn census(&mut self, refused: OnRefused, mapped: &[Mapped]) -> Result<OverCodes, AllocError>
        requires few { length mapped.now ≤ max_characters }
        requires rise { AreRising mapped.now }
        ensures kept { self.new ≡ self.old }
        ensures over { IfOk result (λ over. over ≡ over_in (programs_in self.old) (drawing_in self.old refused) mapped.now
            first_budget) }
    {
        let mut over = OverCodes::none(self.alloc);
        let mut budget = Budget::first();
        // `over` has those of the characters before this one that take too much, and `budget` is what they left.
        'mapped: for m in mapped {
            if self.weigh(refused, *m, &mut budget)? {
                over.push(m.code)?;
            }
        }
        Ok(over)
    }

    /// The code points of those of these characters that take too much work, if work is bounded; none else.
    fn over_among(&mut self, refused: OnRefused, mapped: &[Mapped]) -> Result<OverCodes, AllocError>
        requires few { length mapped.now ≤ max_characters }
        requires rise { AreRising mapped.now }
        ensures kept { self.new ≡ self.old }
        ensures over { IfOk result (λ over. over ≡ over_among self.old refused mapped.now) }
    {
        if !self.basis.careful {
            return Ok(OverCodes::none(self.alloc));
        }
        self.census(refused, mapped)
    }

    /// Refuses from now on those of these characters that take too much work, if work is bounded, and no others. Returns the code
    /// points that were refused before.
    pub(crate) fn bound(
        &mut self,
        refused: OnRefused,
        mapped: &[Mapped],
    ) -> Result<OverCodes, AllocError>
        requires few { length mapped.now ≤ max_characters }
        requires rise { AreRising mapped.now }
        ensures bounds { Bounds self.old (bounded self.old refused mapped.now) self.new result }
    {
        let over = self.over_among(refused, mapped)?;
        Ok(mem::replace(&mut self.over, over))
    }

    /// The same of those of these code points that the font has.
    pub(crate) fn bound_chars(
        &mut self,
        refused: OnRefused,
        chars: &[u32],
    ) -> Result<OverCodes, Refusal>
        requires { AreChars chars.now }
        ensures bounds { Bounds self.old (bounded_for self.old refused chars.now) self.new result }
        ensures fault { IfErr result (λ e. e ≡ Refusal.OutOfMemory) }
    {
        if self.basis.careful {
            let characters = self.characters(chars)?;
            return Ok(self.bound(refused, &characters.mapped)?);
        }
        Ok(self.bound(refused, &[])?)
    }
}
