//! The outline of a glyph whose programs have a budget of work.

ghost use Rattle.std.specs.Prelude.{◌≡◌, option_map};
ghost use Rattle.fx_fixed.specs.Chain.{GivesUnless};
ghost use Rattle.fx_hint.specs.Bounded.{left_after, outline_within, UnlessMemory};
ghost use Rattle.fx_hint.specs.Faults.{Fails};
ghost use Rattle.fx_hint.specs.Outlines.{view_of_glyph_outline};

use crate::fault::HintFault;
use crate::glyph_outline::GlyphOutline;
use crate::kept_glyphs::KeptGlyphs;
use crate::outlines::outline_in;
use crate::programmed::WatchedMachine;
use crate::spare::Spare;
use crate::watcher::{AnyComponent, RunWatching};
use fx_fixed::Ppem;
use fx_machine::WorkBudget;
use fx_sfnt::Font;
use std::alloc::Global;

/// The outline of glyph `g` at `ppem` pixels an em, as a machine makes it whose programs have a budget; none if the programs of the
/// glyph and of its components do more work than the budget has. Nothing is kept for the next outline, so that each program is
/// paid for, also one that halts.
pub fn outline_within(
    alloc: Global,
    spare: &mut Spare,
    machine: &mut WatchedMachine<'_, AnyComponent<WorkBudget>>,
    font: &Font<'_>,
    ppem: Ppem,
    g: u16,
) -> Result<Option<GlyphOutline>, HintFault>
    ensures known { machine.new.machine.known ≡ machine.old.machine.known }
    ensures left { UnlessMemory result (machine.new.watcher.watcher.watcher.left
        ≡ left_after machine.old.machine.known machine.old.watcher.watcher.watcher font.now ppem g) }
    ensures value { GivesUnless Fails (λ made. option_map view_of_glyph_outline made) result
        (outline_within machine.old.machine.known machine.old.watcher.watcher.watcher font.now ppem g) }
{
    let mut kept = KeptGlyphs::new(alloc, false);
    let result = outline_in(alloc, spare, &mut kept, machine, font, ppem, g);
    if machine.watcher.watcher.stops() {
        return Ok(None);
    }
    Ok(Some(result?))
}
