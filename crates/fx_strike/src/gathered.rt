//! What is gathered of the glyphs so far, for the properties of X11.
ghost use Rattle.std.specs.Prelude.{◌≡◌, ◌*◌, ◌^◌, ◌<◌, ◌≤◌};
ghost use Rattle.fx_bdf.specs.X11.{mean_of};
ghost use Rattle.fx_strike.specs.inner.Gathering.{gathered_with, summary_with};

use fx_bdf::Summary;
use fx_fixed::near;

/// What is gathered of the glyphs so far, for the properties of X11.
#[derive(Clone, Copy)]
pub(crate) struct Gathered {
    /// The sum of the sizes of the advances, in pixels.
    pub total: u64,
    /// The first advance, in pixels.
    pub first: Option<i32>,
    /// Whether all advances are one.
    pub is_monospaced: bool,
    /// Whether U+FFFD was there.
    pub has_replacement: bool,
    /// Whether U+0020 was there.
    pub has_space: bool,
}

/// Ten times a mean of pixels, rounded: of `count` numbers that together are `total`; 0 of none.
fn mean_of(total: u64, count: u32) -> i32
    requires { total ≤ 2 ^ 25 * count }
    ensures { result ≡ mean_of total count }
{
    if count == 0 {
        return 0;
    }
    near(10 * i128::from(total), i128::from(count)) as i32
}

impl Gathered {
    /// One glyph more: its code point, and its advance in pixels.
    pub(crate) fn with(self, code: u32, dwidth: i32) -> Gathered
        requires { self.total < 2 ^ 63 }
        ensures { result ≡ gathered_with self code dwidth }
    {
        let first = self.first.unwrap_or(dwidth);
        Gathered {
            total: self.total + u64::from(dwidth.unsigned_abs()),
            first: Some(first),
            is_monospaced: self.is_monospaced && dwidth == first,
            has_replacement: self.has_replacement || code == 0xFFFD,
            has_space: self.has_space || code == 0x20,
        }
    }

    /// What the glyphs settle, of which there are `count`.
    pub(crate) fn summary(self, count: u32) -> Summary
        requires { self.total ≤ 2 ^ 25 * count }
        ensures { result ≡ summary_with self count }
    {
        Summary {
            is_monospaced: self.is_monospaced,
            average_width: mean_of(self.total, count),
            has_replacement: self.has_replacement,
            has_space: self.has_space,
        }
    }
}
