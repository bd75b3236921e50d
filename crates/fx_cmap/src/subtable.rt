//! What a subtable that is read offers.

ghost use Rattle.std.specs.Prelude.{◌≡◌, ℕ, ◌<◌, ◌≤◌};

/// A subtable that gives characters their glyphs. A cursor hands in the `near` that the last call left, 0 at first; what it means
/// is up to the subtable.
pub trait Subtable {
    // The glyph of a code.
    ghost glyph_of: { Self → ℕ → ℕ };

    /// The glyph of a code, 0 if it has none. A search may begin at `near`, and leave there where it ended.
    fn glyph(&self, near: &mut u32, code: u32) -> u16
        ensures { result ≡ glyph_of self.now code };

    /// A code up to which, from the given one on, no code has a glyph; 0 says nothing. It is asked after `glyph` returned 0, with
    /// the `near` that `glyph` left.
    fn gap_end(&self, _near: u32, _code: u32) -> u32
        ensures { (c : ℕ) → _code ≤ c → c < result → glyph_of self.now c ≡ 0 }
    {
        0
    }
}
