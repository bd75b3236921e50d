//! Flags and deltas whose bytes are complete.

ghost use Rattle.std.specs.Prelude.{◌≡◌, length};
ghost use Rattle.fx_glyf.specs.Points.{glyph_points_of};

use crate::flags::{Flags, measured};
use crate::points::Points;
use fx_fixed::after;
use std::marker::Model;

/// The points of a glyph, in their bytes.
#[derive(Drop)]
pub struct PointBytes<'a> {
    count: u32,
    flags: &'a [u8],
    xs: &'a [u8],
    ys: &'a [u8],
}

impl<'a> Model for PointBytes<'a> {
    ghost use Rattle.std.specs.Prelude.{List, IsSome};
    ghost use Rattle.fx_glyf.specs.declared.point.GlyphPoint.{GlyphPoint};
    ghost use Rattle.fx_glyf.specs.Words.{list_in};
    ghost use Rattle.fx_glyf.specs.Points.{x_short_vector, y_short_vector, x_is_same_or_positive_x_short_vector, y_is_same_or_positive_y_short_vector, flags_from, deltas_from, points_seen, start};

    ghost Value = { List GlyphPoint };

    ghost view = { λ o. points_seen (list_in (flags_from o.count (start o.flags.now))) o.xs.now o.ys.now 0 0 };

    ghost invariant = { λ o. IsSome (flags_from o.count (start o.flags.now))
        × IsSome (deltas_from x_short_vector x_is_same_or_positive_x_short_vector
        (list_in (flags_from o.count (start o.flags.now))) o.xs.now)
        × IsSome (deltas_from y_short_vector y_is_same_or_positive_y_short_vector
        (list_in (flags_from o.count (start o.flags.now))) o.ys.now) };
}

impl<'a> PointBytes<'a> {
    /// `count` points at the front of the bytes, if their bytes are complete.
    pub fn read(count: u32, flags: &'a [u8]) -> Option<PointBytes<'a>>
        ensures { result ≡ glyph_points_of count flags.now }
    {
        let Some(measure) = measured(count, flags) else {
            return None;
        };
        let xs = measure.rest;
        if xs.len() < measure.xs {
            return None;
        }
        let ys = after(xs, measure.xs);
        if ys.len() < measure.ys {
            return None;
        }
        Some(PointBytes {
            count,
            flags,
            xs,
            ys,
        })
    }

    /// The number of points.
    #[tactic(auto, using(crate::proofs::Outlines::seen_count))]
    pub fn len(&self) -> u32
        ensures { result ≡ length self.now }
    {
        self.count
    }

    /// The points.
    pub fn points(&self) -> Points<'a>
        ensures { result ≡ self.now }
    {
        Points::new(Flags::new(self.count, self.flags), self.xs, self.ys)
    }
}
