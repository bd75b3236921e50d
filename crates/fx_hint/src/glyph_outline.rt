//! What a glyph's outline comes with.

use fx_fixed::F26;
use fx_gstate::ScanType;
use fx_machine::Usage;
use fx_outline::Outline;

/// The outline of a glyph at one size, how far the pen moves after it, what its programs used up, and the drop-out control that
/// they ask for. With hinting off they use up nothing, and ask for nothing.
#[derive(Drop)]
pub struct GlyphOutline {
    pub outline: Outline,
    pub advance: F26,
    pub usage: Usage,
    /// What the glyph's own program left asked for, by itself or by `prep`; of a glyph without a program what `prep` did. None if
    /// nothing was asked.
    pub wish: Option<ScanType>,
}
