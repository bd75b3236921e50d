//! The outline of a glyph.

ghost use Rattle.std.specs.Prelude.{◌≡◌, map, Ok, IfOk};
ghost use Rattle.fx_fixed.specs.Chain.{GivesUnless};
ghost use Rattle.fx_machine.specs.Known.{machine_of};
ghost use Rattle.fx_hint.specs.Faults.{Fails};
ghost use Rattle.fx_hint.specs.Kept.{IsKeptFor};
ghost use Rattle.fx_hint.specs.Outlines.{moved_point, moved_outline_of, view_of_glyph_outline, outline_with, hinted_outline_of, IsSound};
ghost use Rattle.fx_scale.specs.Scaling.{scale_of};
ghost use Rattle.fx_hint.specs.Runs.{HasRun, runs_of};
ghost use Rattle.fx_hint.specs.Machines.{hinting_with, IfMachine, IsOf, KnowsSame};

use crate::count::Count;
use crate::fault::HintFault;
use crate::glyph_outline::GlyphOutline;
use crate::hinter::{Hinter, NoHinter};
use crate::kept_glyphs::KeptGlyphs;
use crate::made::Made;
use crate::spare::{Spare, no_outline};
use crate::walk::Walk;
use fx_fixed::{F26, Ppem};
use fx_machine::{Machine, Usage};
use fx_outline::{Outline, OutlinePoint};
use fx_scale::Scale;
use fx_sfnt::Font;
use fx_zone::{Zone, ZonePoint};
use std::alloc::{AllocError, Global};
use std::mem;

/// A point to be written over.
const BLANK: OutlinePoint = OutlinePoint {
    x: F26(0),
    y: F26(0),
    on_curve: false,
};

/// The outline of glyph `g` at `ppem` pixels an em, scaled, its composites put together. A machine is one of this font and size,
/// and hints it; nothing that it ran before has a part in the outline. Without a machine hinting is off: no program runs, and
/// nothing but the scaled values themselves is rounded.
///
/// The faults come in the order of the walk: for each component record its depth, the number of records, its number and
/// bytes, its reading, the number of points, its program, its place. `OutOfMemory` may come in place of any of them, and of an
/// outline.
pub fn outline(
    alloc: Global,
    font: &Font<'_>,
    ppem: Ppem,
    machine: Option<&mut Machine<'_>>,
    g: u16,
) -> Result<GlyphOutline, HintFault>
    requires { IfMachine (IsOf font.now ppem) machine }
    ensures value { GivesUnless Fails view_of_glyph_outline result (outline_with (hinting_with machine.entry) font.now ppem g) }
    ensures hinted { IfMachine (λ known. machine_of font.now ppem ≡ Ok known
        → GivesUnless Fails view_of_glyph_outline result (hinted_outline_of font.now ppem g)) machine.entry }
    ensures kept { KnowsSame machine.entry machine.exit }
{
    match machine {
        None => outline_with(alloc, &mut NoHinter, font, ppem, g),
        Some(machine) => outline_with(alloc, machine, font, ppem, g),
    }
}

/// The outline of glyph `g` at `ppem` pixels an em, as a hinter makes it.
pub fn outline_with<H: Hinter>(
    alloc: Global,
    hinter: &mut H,
    font: &Font<'_>,
    ppem: Ppem,
    g: u16,
) -> Result<GlyphOutline, HintFault>
    ensures known { H.known hinter.new ≡ H.known hinter.old }
    ensures kept { H.hinting hinter.new ≡ H.hinting hinter.old }
    ensures leads { HasRun H.Leads hinter.old hinter.new result
        (runs_of (H.hinting hinter.old) font.now (scale_of font.now ppem) g) }
    ensures value { GivesUnless Fails view_of_glyph_outline result (outline_with (H.hinting hinter.old) font.now ppem g) }
{
    let mut kept = KeptGlyphs::new(alloc, false);
    outline_in(
        alloc,
        &mut Spare::new(alloc),
        &mut kept,
        hinter,
        font,
        ppem,
        g,
    )
}

/// The same outline, in lists that the caller gives. The list of its points before they were moved is left there for the next one,
/// and simple components are kept for it.
#[tactic(auto, unfolding(crate::specs::Outlines::outline_with, crate::specs::Runs::runs_of))]
pub fn outline_in<H: Hinter>(
    alloc: Global,
    spare: &mut Spare,
    kept: &mut KeptGlyphs,
    hinter: &mut H,
    font: &Font<'_>,
    ppem: Ppem,
    g: u16,
) -> Result<GlyphOutline, HintFault>
    requires held { IsKeptFor H.Leads (H.hinting hinter.old) kept.old }
    ensures known { H.known hinter.new ≡ H.known hinter.old }
    ensures kept { H.hinting hinter.new ≡ H.hinting hinter.old }
    ensures held { IsKeptFor H.Leads (H.hinting hinter.old) kept.new }
    ensures leads { HasRun H.Leads hinter.old hinter.new result
        (runs_of (H.hinting hinter.old) font.now (scale_of font.now ppem) g) }
    ensures value { GivesUnless Fails view_of_glyph_outline result (outline_with (H.hinting hinter.old) font.now ppem g) }
{
    let scale = Scale::of(font, ppem);
    hinter.law_keeps_shape();
    let walk = Walk {
        alloc,
        font,
        scale: &scale,
        root: g,
    };
    let mut count = Count {
        records: 0,
        points: 0,
        usage: Usage::none(),
    };
    walk.assembled(
        hinter,
        kept,
        &mut count,
        &mut spare.root,
        &mut spare.component,
    )?;
    let lists = mem::replace(&mut spare.outline, no_outline(alloc));
    let outline = moved_outline(alloc, &mut spare.root, lists, count.usage)?;
    Ok(outline)
}

/// The outline of the root, moved so that its first phantom point lies at x = 0, in the lists of one that is done with. The root
/// keeps its points as they were, and gets a list for contours.
#[tactic(auto, unfolding(crate::specs::Outlines::moved_outline_of))]
fn moved_outline(
    alloc: Global,
    root: &mut Made,
    lists: Outline,
    usage: Usage,
) -> Result<GlyphOutline, AllocError>
    requires { IsSound root.old }
    ensures { IfOk result (λ o. view_of_glyph_outline o ≡ moved_outline_of root.old usage) }
{
    let origin = root.phantoms.origin.cur.x;
    let advance = root.phantoms.advance.cur.x.minus(origin);
    let Outline { points, ends } = lists;
    let points = moved_points(points, root.zone.points(), origin)?;
    let mut none = ends;
    none.clear();
    let (unmoved, ends) = mem::replace(&mut root.zone, Zone::new(alloc)).into_lists();
    root.zone = Zone::of(unmoved, none);
    let outline = Outline { points, ends };
    Ok(GlyphOutline {
        outline,
        advance,
        usage,
        wish: root.wish,
    })
}

/// The points at their current places, moved so that the origin lies at x = 0, in their order, in a list whose points are lost.
fn moved_points(
    list: Vec<OutlinePoint>,
    points: &[ZonePoint],
    origin: F26,
) -> Result<Vec<OutlinePoint>, AllocError>
    ensures { IfOk result (λ v. v.items ≡ map (moved_point origin) points.now) }
{
    let mut moved = list;
    moved.resize(points.len(), BLANK)?;
    // There are as many moved points as points, and those before `number` are these points moved. They are written field by field:
    // a whole point would be written with its padding.
    'points: for number in 0..points.len() {
        moved[number].x = points[number].cur.x.minus(origin);
        moved[number].y = points[number].cur.y;
        moved[number].on_curve = points[number].on;
    }
    Ok(moved)
}
