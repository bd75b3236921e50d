//! What pieces add to rows between their ends, row by row, from the lowest.

ghost use Rattle.std.specs.Prelude.{◌≡◌, ◌+◌, ◌≤◌, pos, ◌+ℤ◌, ◌*ℤ◌};
ghost use Rattle.fx_winding.specs.Winding.{centre};
ghost use Rattle.fx_rows.specs.inner.Sides.{end_at, place_at};
ghost use Rattle.fx_rows.specs.inner.Points.{IsInner};
ghost use Rattle.fx_rows.specs.inner.Bands.{bounded_span};
ghost use Rattle.fx_rows.specs.inner.Cuts.{IsCut, IsStripEnd};

use crate::above::side_above;
use crate::bounded::Bounded;
use crate::cells::Cut;
use crate::cut::{clear_cut, line_cut};
use crate::strip::Strip;
use fx_winding::Tally;

/// The cuts of a piece in rows between its ends, one after the other, from the lowest.
pub(crate) trait Cuts {
    ghost use Rattle.std.specs.Prelude.{ℤ};
    ghost use Rattle.fx_winding.specs.Area.{Place};
    ghost use Rattle.fx_rows.specs.declared.bounded.Bounded.{Bounded};

    // They are the piece's, and stand at the row that has this place at its base, at a column before this one or at it.
    ghost AreAt: { Self → Bounded → Place → ℤ → Type 0 };

    /// Where the columns end that are left of the piece in the row.
    fn end(&mut self, bounded: &Bounded, strip: Strip) -> u32
        requires at { AreAt self.old bounded.now (place_at strip 0) (end_at strip) }
        requires inner { IsInner bounded.now.piece.a.y bounded.now.piece.c.y (pos 128 *ℤ strip.row +ℤ pos 64) }
        ensures end { IsStripEnd (bounded_span bounded.now) strip result }
        ensures same { AreAt self.new bounded.now (place_at strip 0) (end_at strip) };

    /// What the piece adds to the row.
    fn cut(&mut self, bounded: &Bounded, strip: Strip, tally: &mut Tally) -> Cut
        requires at { AreAt self.old bounded.now (place_at strip 0) (end_at strip) }
        requires inner { IsInner bounded.now.piece.a.y bounded.now.piece.c.y (pos 128 *ℤ strip.row +ℤ pos 64) }
        ensures cut { IsCut (bounded_span bounded.now) strip result }
        ensures same { AreAt self.new bounded.now (place_at strip 0) (end_at strip) }
        ensures count { tally.new.count ≤ tally.old.count + 1 };

    /// The cuts go on to the row above, which need not be a row of pixels.
    fn move_up(&mut self, bounded: &Bounded, strip: Strip)
        requires at { AreAt self.old bounded.now (place_at strip 0) (end_at strip) }
        ensures { AreAt self.new bounded.now (centre (strip.base +ℤ pos 0) (strip.row +ℤ pos 1)) (end_at strip) };
}

/// The cuts of a piece that has no column's centre in its box.
#[derive(Clone, Copy)]
pub(crate) struct ClearCuts;

impl Cuts for ClearCuts {
    ghost use Rattle.std.specs.Prelude.{◌≤ℤ◌};

    ghost AreAt = { λ _ b _ _. b.across.end ≤ℤ b.across.first };

    #[inline(always)]
    fn end(&mut self, bounded: &Bounded, strip: Strip) -> u32 {
        clear_cut(bounded, strip).end
    }

    #[inline(always)]
    fn cut(&mut self, bounded: &Bounded, strip: Strip, _tally: &mut Tally) -> Cut {
        clear_cut(bounded, strip)
    }

    #[inline(always)]
    fn move_up(&mut self, _bounded: &Bounded, _strip: Strip) {}
}

/// The cuts of a line, or of an arc whose points are on one: the side of it on which the row's base lies.
#[derive(Clone, Copy)]
pub(crate) struct LineCuts {
    pub side: i64,
}

impl Cuts for LineCuts {
    ghost use Rattle.std.specs.Prelude.{◌≡◌};
    ghost use Rattle.fx_winding.specs.Winding.{place_of};
    ghost use Rattle.fx_rows.specs.Parts.{IsBent};
    ghost use Rattle.fx_rows.specs.inner.Bands.{bounded_span};
    ghost use Rattle.fx_rows.specs.inner.Sides.{side};

    ghost AreAt = { λ cuts b p _.
        (¬ (IsBent (bounded_span b))) × (cuts.side ≡ side (place_of b.piece.a) (place_of b.piece.c) p) };

    #[inline(always)]
    fn end(&mut self, bounded: &Bounded, strip: Strip) -> u32 {
        line_cut(bounded, strip, self.side).end
    }

    #[inline(always)]
    fn cut(&mut self, bounded: &Bounded, strip: Strip, _tally: &mut Tally) -> Cut {
        line_cut(bounded, strip, self.side)
    }

    #[inline(always)]
    fn move_up(&mut self, bounded: &Bounded, strip: Strip) {
        self.side = side_above(&bounded.piece, strip, self.side);
    }
}
