//! All characters of a map.

ghost use Rattle.std.specs.Prelude.{◌≡◌, ◌⊎◌, ◌+◌, ◌<◌, ◌≤◌, length, take, drop, set};
ghost use Rattle.fx_cmap.specs.Mapped.{mapped_below};

use crate::char_map::CharMap;

impl<'a> CharMap<'a> {
    /// Puts the codes below `end` that have a glyph at the front of a buffer, in rising order, as many as fit; what lies after them
    /// stays. Returns how many there are.
    pub fn mapped_below(&self, end: u32, codes: &mut [u32]) -> usize
        ensures count { result ≡ length (mapped_below self.now end) }
        ensures front { take result codes.new ≡ take (length codes.old) (mapped_below self.now end) }
        ensures rest { drop result codes.new ≡ drop result codes.old }
    {
        let mut cursor = self.cursor();
        let mut count = 0usize;
        let mut code = 0u32;
        // `codes` has those below `code`, which are `count`.
        'codes: while code < end {
            if cursor.glyph(code) != 0 {
                put(codes, count, code);
                count += 1;
                code += 1;
            } else {
                code = next_after(code, cursor.gap_end(code + 1), end);
            }
        }
        count
    }
}

/// Puts a code into its place, if there is one.
fn put(codes: &mut [u32], place: usize, code: u32)
    ensures { codes.new ≡ set codes.old place code }
{
    if place < codes.len() {
        codes[place] = code;
    }
}

/// The next code that is looked at, after one without a glyph and a gap up to another.
fn next_after(code: u32, gap: u32, end: u32) -> u32
    requires { code < end }
    ensures above { code < result }
    ensures within { result ≤ end }
    ensures gap { (result ≤ gap) ⊎ (result ≡ code + 1) }
{
    if gap <= code { code + 1 } else { gap.min(end) }
}
