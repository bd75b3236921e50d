//! What C hands over to a call that draws.
ghost use Rattle.std.specs.Prelude.{◌≡◌};
ghost use Rattle.mkstrike_c.specs.FontAt.{file_at};

use fx_sfnt::FontFile;
use std::alloc::Global;

/// A font at a size, in a mode, and the memory that the call may take.
#[repr(C)]
pub struct FontAt<'a> {
    /// The bytes of its file, and the number of its face there.
    pub font: &'a [u8],
    pub face: u32,
    /// The size in pixels per em.
    pub ppem: u16,
    /// How outlines become pixels, and in which form pixels are told.
    pub mode: u32,
    /// The memory. It has no bytes of its own, so a struct of C has no field for it.
    pub alloc: Global,
}

/// The same with a block.
#[repr(C)]
pub struct PreparedFont<'a> {
    pub at: FontAt<'a>,
    pub block: &'a [u32],
}

impl<'a> FontAt<'a> {
    /// The face of its file.
    pub fn file(&self) -> FontFile<'a>
        ensures { result ≡ file_at self.now }
    {
        FontFile::new(self.font, self.face)
    }
}
