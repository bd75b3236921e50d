//! The picture of a glyph of a font.
ghost use Rattle.std.specs.Prelude.{◌<◌, ◌^◌};
ghost use Rattle.fx_fixed.specs.Changes.{change_of};
ghost use Rattle.fx_cli.specs.Runs.{ShowLeaves};

use crate::picture::put_shown;
use fx_arguments::Show;
use fx_fixed::Sink;
use fx_request::Refusal;
use fx_sfnt::FontFile;
use fx_views::chosen;
use std::alloc::Global;

/// Writes the picture of a glyph of a font.
pub fn put_picture<O: Sink>(
    alloc: Global,
    show: &Show,
    font: &FontFile<'_>,
    out: &mut O,
) -> Result<(), Refusal>
    requires { O.fault_count out.old < 2 ^ 63 }
    ensures { ShowLeaves show.now font.now (change_of O.held O.fault_count out.old out.new) result }
{
    let glyph = chosen(alloc, font, show.ppem, show.choice, show.mode)?;
    put_shown(&glyph, out)?;
    Ok(())
}
