//! Pieces with their columns and the heights of their ends.

ghost use Rattle.std.specs.Prelude.{◌≡◌, ◌^◌};
ghost use Rattle.fx_fixed.specs.Ranges.{IsWithin};
ghost use Rattle.fx_winding.specs.Winding.{span_of};
ghost use Rattle.fx_rows.specs.inner.Points.{AreAcross, IsFootX, IsHeadX, IsRise};

use crate::across::Across;
use crate::narrow::across_of;
use fx_winding::Piece;

/// The heights of a chord's ends, and which way it goes.
#[derive(Clone, Copy)]
pub(crate) struct Rise {
    /// That of the lower end.
    pub foot: i32,
    /// That of the upper end.
    pub head: i32,
    /// 1 if the chord rises, and else -1.
    pub value: i32,
    ghost near_foot: { IsWithin (2 ^ 22) foot },
    ghost near_head: { IsWithin (2 ^ 22) head },
    ghost small: { IsWithin 1 value },
}

/// A piece with its columns, and the heights, in 1/128 pixel, of its chord's ends.
#[derive(Clone, Copy)]
pub(crate) struct Bounded {
    pub piece: Piece,
    pub across: Across,
    pub rise: Rise,
    ghost rises: { IsRise (span_of piece) rise.foot rise.head rise.value },
    ghost between: { AreAcross (span_of piece) across.first across.end },
}

/// The heights of the ends of a piece's chord, and which way it goes.
#[tactic(auto, using(fx_fixed::proofs::Linear::signed_linear))]
pub(crate) fn rise_of(piece: &Piece) -> Rise
    ensures { IsRise (span_of piece.now) result.foot result.head result.value }
{
    if piece.a.y < piece.c.y {
        return Rise {
            foot: piece.a.y,
            head: piece.c.y,
            value: 1,
        };
    }
    Rise {
        foot: piece.c.y,
        head: piece.a.y,
        value: -1,
    }
}

/// The x of the lower end of a piece's chord.
#[inline(always)]
pub(crate) fn foot_x(piece: &Piece) -> i32
    ensures near { IsWithin (2 ^ 30) result }
    ensures foot { IsFootX (span_of piece.now) result }
{
    if piece.a.y < piece.c.y {
        piece.a.x
    } else {
        piece.c.x
    }
}

/// The x of the upper end of a piece's chord.
#[inline(always)]
pub(crate) fn head_x(piece: &Piece) -> i32
    ensures near { IsWithin (2 ^ 30) result }
    ensures head { IsHeadX (span_of piece.now) result }
{
    if piece.a.y < piece.c.y {
        piece.c.x
    } else {
        piece.a.x
    }
}

/// A piece with its columns and the heights of its chord's ends.
pub(crate) fn bounds_of(piece: &Piece, rise: Rise) -> Bounded
    requires { IsRise (span_of piece.now) rise.foot rise.head rise.value }
    ensures piece { result.piece ≡ piece.now }
    ensures rise { result.rise ≡ rise }
{
    Bounded {
        piece: *piece,
        across: across_of(piece),
        rise,
    }
}
