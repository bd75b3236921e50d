//! The points of a simple glyph.

ghost use Rattle.std.specs.Prelude.{◌≡◌, ◌+◌, ◌-◌, ◌%◌, ◌≤◌, ◌∷◌, [], IsSome, MatchOption, length, drop, option_map};
ghost use Rattle.fx_glyf.specs.Words.{list_in};
ghost use Rattle.fx_glyf.specs.Points.{x_short_vector, y_short_vector, x_is_same_or_positive_x_short_vector, y_is_same_or_positive_y_short_vector, delta_of, deltas_from, points_of, point_at, points_seen};
ghost use Rattle.fx_glyf.specs.inner.Moves.{moved_by};

use crate::flags::{
    Flags, ON_CURVE_POINT, X_IS_SAME_OR_POSITIVE_X_SHORT_VECTOR, X_SHORT_VECTOR,
    Y_IS_SAME_OR_POSITIVE_Y_SHORT_VECTOR, Y_SHORT_VECTOR, has,
};
use crate::point::GlyphPoint;
use fx_fixed::after;
use fx_sfnt::u16_in;
use std::marker::Model;

/// One coordinate moved by the delta of a point, modulo 2 ^ 16, and the bytes after the delta; the bytes hold it.
#[tactic(auto, using(crate::proofs::Held::delta_steps))]
fn moved(short: u8, same: u8, flag: u8, at: u16, bytes: &[u8]) -> (u16, &[u8])
    requires { IsSome (delta_of short same flag bytes.now) }
    ensures { Some (result.0, result.1.now) ≡ moved_by at (delta_of short same flag bytes.now) }
{
    if has(flag, short) {
        let size = u16::from(bytes[0]);
        let to = if has(flag, same) {
            at.wrapping_add(size)
        } else {
            at.wrapping_sub(size)
        };
        return (to, after(bytes, 1));
    }
    if has(flag, same) {
        return (at, bytes);
    }
    (at.wrapping_add(u16_in(bytes, 0)), after(bytes, 2))
}

/// The points that are left.
#[derive(Drop)]
pub struct Points<'a> {
    flags: Flags<'a>,
    xs: &'a [u8],
    ys: &'a [u8],
    x: u16,
    y: u16,
}

impl<'a> Model for Points<'a> {
    ghost use Rattle.std.specs.Prelude.{List, IsSome};
    ghost use Rattle.fx_glyf.specs.declared.point.GlyphPoint.{GlyphPoint};
    ghost use Rattle.fx_glyf.specs.Words.{list_in};
    ghost use Rattle.fx_glyf.specs.Points.{x_short_vector, y_short_vector, x_is_same_or_positive_x_short_vector, y_is_same_or_positive_y_short_vector, deltas_from, points_of};

    ghost Value = { List GlyphPoint };

    ghost view = { λ p. points_of p.flags
        (list_in (deltas_from x_short_vector x_is_same_or_positive_x_short_vector p.flags p.xs.now))
        (list_in (deltas_from y_short_vector y_is_same_or_positive_y_short_vector p.flags p.ys.now))
        p.x p.y };

    ghost invariant = { λ p. IsSome (deltas_from x_short_vector x_is_same_or_positive_x_short_vector p.flags p.xs.now)
        × IsSome (deltas_from y_short_vector y_is_same_or_positive_y_short_vector p.flags p.ys.now) };
}

impl<'a> Points<'a> {
    /// The points of these flags and deltas.
    pub(crate) fn new(flags: Flags<'a>, xs: &'a [u8], ys: &'a [u8]) -> Points<'a>
        requires x { IsSome (deltas_from x_short_vector x_is_same_or_positive_x_short_vector flags xs.now) }
        requires y { IsSome (deltas_from y_short_vector y_is_same_or_positive_y_short_vector flags ys.now) }
        ensures { result ≡ points_seen flags.entry xs.now ys.now 0 0 }
    {
        Points {
            flags,
            xs,
            ys,
            x: 0,
            y: 0,
        }
    }
}

impl<'a> Iterator for Points<'a> {
    type Item = GlyphPoint;

    ghost use Rattle.std.specs.Iterator.{YieldsFirst, item_count};

    ghost next_gives = { YieldsFirst (λ ps. ps) };

    ghost remaining = { item_count (λ ps. ps) };

    #[tactic(auto, using(crate::proofs::Steps::points_first, crate::proofs::Steps::points_end))]
    fn next(&mut self) -> Option<GlyphPoint> {
        let Some(flag) = self.flags.next() else {
            return None;
        };
        let (x, xs) = moved(
            X_SHORT_VECTOR,
            X_IS_SAME_OR_POSITIVE_X_SHORT_VECTOR,
            flag,
            self.x,
            self.xs,
        );
        let (y, ys) = moved(
            Y_SHORT_VECTOR,
            Y_IS_SAME_OR_POSITIVE_Y_SHORT_VECTOR,
            flag,
            self.y,
            self.ys,
        );
        self.xs = xs;
        self.ys = ys;
        self.x = x;
        self.y = y;
        Some(point(x, y, flag))
    }
}

/// A point at coordinates modulo 2 ^ 16, which are signed.
#[tactic(auto, unfolding(crate::specs::Points::point_at))]
fn point(x: u16, y: u16, flag: u8) -> GlyphPoint
    ensures { result ≡ point_at x y flag }
{
    GlyphPoint {
        x: x.cast_signed(),
        y: y.cast_signed(),
        on_curve: has(flag, ON_CURVE_POINT),
    }
}
