//! How long the lists are that `fpgm` and `prep` leave.

ghost use Rattle.std.specs.Prelude.{◌≡◌, ◌≤◌, ℕ, length, IsTrue};
ghost use Rattle.fx_machine.specs.Blocks.{SaysAll, font_sizes, sizes_in};

use crate::block::{HEAD, count_in};
use crate::limits::FEWEST_FUNCTIONS;
use crate::state::control_count;
use fx_sfnt::Font;

/// How many numbers, points and functions there are.
#[derive(Clone, Copy)]
pub struct Sizes {
    pub storage: usize,
    pub cvt: usize,
    pub twilight: usize,
    pub functions: usize,
    pub opcodes: usize,
}

impl Sizes {
    /// Those of a font, which are the same at each number of pixels.
    pub(crate) fn of(font: &Font<'_>) -> Sizes
        ensures { (ppem : ℕ) → result ≡ font_sizes font.now ppem }
    {
        let maxp = font.maxp();
        Sizes {
            storage: usize::from(maxp.max_storage),
            cvt: control_count(font),
            twilight: usize::from(maxp.max_twilight_points),
            functions: usize::from(maxp.max_function_defs.max(FEWEST_FUNCTIONS)),
            opcodes: 256,
        }
    }

    /// Whether words say these.
    fn are_in(self, words: &[u32]) -> bool
        requires { 20 ≤ length words.now }
        ensures right { IsTrue result → sizes_in words.now ≡ self }
        ensures found { sizes_in words.now ≡ self → IsTrue result }
    {
        words[0] as usize == self.storage
            && words[1] as usize == self.cvt
            && words[2] as usize == self.twilight
            && words[3] as usize == self.functions
            && words[4] as usize == self.opcodes
    }

    /// Whether words say something for lists of these sizes.
    pub(crate) fn are_said(self, words: &[u32]) -> bool
        ensures right { IsTrue result → SaysAll self words.now }
        ensures found { SaysAll self words.now → IsTrue result }
    {
        HEAD <= words.len()
            && self.are_in(words)
            && count_in(words) <= words.len()
            && words[15] <= 6
    }
}
