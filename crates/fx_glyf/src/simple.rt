//! A simple glyph.

ghost use Rattle.std.specs.Prelude.{◌≡◌, ◌≤◌, ◌<◌, ◌^◌, length};
ghost use Rattle.fx_glyf.specs.Grammar.{AreEnds};
ghost use Rattle.fx_glyf.specs.Glyphs.{simple_of, x_min_of};

use crate::ends::{Ends, count_points};
use crate::fault::GlyphFault;
use crate::outline::PointBytes;
use crate::points::Points;
use crate::program::program;
use fx_fixed::after;
use fx_sfnt::i16_in;
use std::marker::Model;

/// A glyph of contours, in its bytes (OpenType, `glyf`, simple glyph description).
#[derive(Drop)]
pub struct Simple<'a> {
    x_min: i16,
    contours: u16,
    ends: &'a [u8],
    code: &'a [u8],
    outline: PointBytes<'a>,
}

impl<'a> Model for Simple<'a> {
    ghost use Rattle.std.specs.Prelude.{◌≡◌, Some, length, ◌*◌, ◌≤◌, ◌<◌, ◌^◌};
    ghost use Rattle.fx_glyf.specs.Shapes.{SimpleView};
    ghost use Rattle.fx_glyf.specs.Words.{words, count_from};

    ghost Value = { SimpleView };

    ghost view = { λ s. record { ends = words s.contours s.ends.now; points = s.outline; x_min = s.x_min; code = s.code.now } };

    ghost invariant = { λ s. (2 * s.contours ≤ length s.ends.now)
        × (count_from 0 (words s.contours s.ends.now) ≡ Some (length s.outline))
        × (length s.code.now < 2 ^ 16) };
}

/// The xMin of a header, in FUnits.
pub fn x_min(bytes: &[u8]) -> i16
    requires { 10 ≤ length bytes.now }
    ensures { result ≡ x_min_of bytes.now }
{
    i16_in(bytes, 2)
}

impl<'a> Simple<'a> {
    /// Reads a glyph of `contours` contours after its header; g is the glyph's number.
    #[tactic(auto, unfolding(crate::specs::Glyphs::simple_of))]
    pub(crate) fn read(contours: u16, bytes: &'a [u8], g: u16) -> Result<Simple<'a>, GlyphFault>
        requires { 10 ≤ length bytes.now }
        ensures { result ≡ simple_of contours bytes.now g }
    {
        let size = 2 * contours as usize;
        let ends = after(bytes, 10);
        if ends.len() < size {
            return Err(GlyphFault::GlyphShort(g));
        }
        let Some(count) = count_points(contours, ends) else {
            return Err(GlyphFault::BadContours(g));
        };
        let Some((code, rest)) = program(after(ends, size)) else {
            return Err(GlyphFault::GlyphShort(g));
        };
        let Some(outline) = PointBytes::read(count, rest) else {
            return Err(GlyphFault::GlyphShort(g));
        };
        Ok(Simple {
            x_min: x_min(bytes),
            contours,
            ends,
            code,
            outline,
        })
    }

    /// The number of contours.
    pub fn contour_count(&self) -> u16
        ensures { result ≡ length self.now.ends }
    {
        self.contours
    }

    /// The number of points of all contours.
    pub fn point_count(&self) -> u32
        ensures { result ≡ length self.now.points }
    {
        self.outline.len()
    }

    /// The number of the last point of each contour.
    #[tactic(auto, using(crate::proofs::EndPoints::ends_counted))]
    pub fn ends(&self) -> Ends<'a>
        ensures ends { result ≡ self.now.ends }
        // They do not fall, and the last one is the last point.
        ensures in_order { AreEnds 0 self.now.ends (length self.now.points) }
    {
        Ends::new(self.contours, self.ends)
    }

    /// The points of all contours, in their order.
    pub fn points(&self) -> Points<'a>
        ensures { result ≡ self.now.points }
    {
        self.outline.points()
    }

    /// The xMin of the header, in FUnits.
    pub fn x_min(&self) -> i16
        ensures { result ≡ self.now.x_min }
    {
        self.x_min
    }

    /// The program.
    pub fn code(&self) -> &'a [u8]
        ensures value { result.now ≡ self.now.code }
        ensures short { length result.now < 2 ^ 16 }
    {
        self.code
    }
}
