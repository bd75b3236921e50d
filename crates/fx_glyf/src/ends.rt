//! The end points of a glyph's contours.

ghost use Rattle.std.specs.Prelude.{◌≡◌, ◌*◌, ◌≤◌, length};
ghost use Rattle.fx_glyf.specs.Words.{words, count_from};

use fx_fixed::after;
use fx_sfnt::u16_in;
use std::marker::Model;

/// The number of points, one more than the last end point; none if an end point is below the one before it.
#[tactic(auto, unfolding(fx_sfnt::specs::Fields::field))]
pub fn count_points(contours: u16, bytes: &[u8]) -> Option<u32>
    requires { 2 * contours ≤ length bytes.now }
    ensures { result ≡ count_from 0 (words contours bytes.now) }
{
    let mut count = 0;
    let mut rest = bytes;
    // The end points that are left, counted on from `count`, give the number of all.
    'ends: for _k in 0..contours {
        let end = u32::from(u16_in(rest, 0));
        if end + 1 < count {
            return None;
        }
        count = end + 1;
        rest = after(rest, 2);
    }
    Some(count)
}

/// The end points that are left: the number of the last point of each contour.
#[derive(Drop)]
pub struct Ends<'a> {
    left: u16,
    bytes: &'a [u8],
}

impl<'a> Model for Ends<'a> {
    ghost use Rattle.std.specs.Prelude.{ℕ, List, length, ◌*◌, ◌≤◌};
    ghost use Rattle.fx_glyf.specs.Words.{words};

    ghost Value = { List ℕ };

    ghost view = { λ e. words e.left e.bytes.now };

    ghost invariant = { λ e. 2 * e.left ≤ length e.bytes.now };
}

impl<'a> Ends<'a> {
    /// The end points of `left` contours at the front of the bytes.
    pub(crate) fn new(left: u16, bytes: &'a [u8]) -> Ends<'a>
        requires { 2 * left ≤ length bytes.now }
        ensures { result ≡ words left bytes.now }
    {
        Ends { left, bytes }
    }
}

impl<'a> Iterator for Ends<'a> {
    type Item = u16;

    ghost use Rattle.std.specs.Iterator.{YieldsFirst, item_count};

    ghost next_gives = { YieldsFirst (λ ns. ns) };

    ghost remaining = { item_count (λ ns. ns) };

    #[tactic(auto, unfolding(crate::specs::Words::words, fx_sfnt::specs::Fields::field))]
    fn next(&mut self) -> Option<u16> {
        if self.left == 0 {
            return None;
        }
        let end = u16_in(self.bytes, 0);
        self.left -= 1;
        self.bytes = after(self.bytes, 2);
        Some(end)
    }
}
