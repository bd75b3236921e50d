//! The program of a glyph.

ghost use Rattle.std.specs.Prelude.{◌≡◌, ◌<◌, ◌^◌, length, option_map, IfSome};
ghost use Rattle.fx_glyf.specs.Words.{program_of};

use fx_fixed::{after, before};
use fx_sfnt::u16_in;

/// A program after its length, and the bytes after it.
#[tactic(auto, unfolding(crate::specs::Words::program_of))]
pub fn program(bytes: &[u8]) -> Option<(&[u8], &[u8])>
    ensures value { option_map (λ p. (p.0.now, p.1.now)) result ≡ program_of bytes.now }
    ensures short { IfSome result (λ p. length p.0.now < 2 ^ 16) }
{
    if bytes.len() < 2 {
        return None;
    }
    let size = u16_in(bytes, 0) as usize;
    let rest = after(bytes, 2);
    if rest.len() < size {
        return None;
    }
    Some((before(rest, size), after(rest, size)))
}
