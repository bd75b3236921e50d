//! The outline of a glyph as text.
ghost use Rattle.std.specs.Prelude.{◌≡◌, ◌*◌, ◌<◌, ◌≤◌, ◌^◌, [], length, option_map, OnOk};
ghost use Rattle.fx_fixed.specs.Changes.{change_of};
ghost use Rattle.fx_fixed.specs.Texts.{Adds, Fails};
ghost use Rattle.fx_fixed.specs.Wrote.{Wrote};
ghost use Rattle.fx_hint.specs.Outlines.{view_of_glyph_outline};
ghost use Rattle.fx_views.specs.Outlines.{advance_line, contour_at, curve_word, outline_text, point_line, point_lines};
ghost use Rattle.fx_views.specs.inner.Lengths.{AddsFew, longest_outline};

use fx_fixed::{Digits, F26, Sink, TextWriter, WriteFailed};
use fx_hint::GlyphOutline;
use fx_outline::OutlinePoint;

/// Writes the text of an outline, or `missing` if there is none. No memory is taken.
pub(crate) fn put_outline<W: Sink>(
    outline: &Option<GlyphOutline>,
    out: &mut W,
) -> Result<(), WriteFailed>
    requires { W.fault_count out.old < 2 ^ 63 }
    ensures { Wrote (change_of W.held W.fault_count out.old out.new)
        (outline_text (option_map view_of_glyph_outline outline.now)) result }
{
    let mut text = TextWriter::new(out);
    let result = add_text(outline, &mut text);
    text.close();
    result
}

/// Adds the text of an outline, or `missing`, and ends it.
fn add_text<W: Sink>(
    outline: &Option<GlyphOutline>,
    text: &mut TextWriter<'_, W>,
) -> Result<(), WriteFailed>
    requires { text.old.faults < 2 ^ 63 }
    ensures text { AddsFew longest_outline text.old text.new (outline_text (option_map view_of_glyph_outline outline.now)) result }
    ensures ended { OnOk result (text.new.waiting ≡ []) }
{
    add_outline(outline, text)?;
    text.end()
}

/// Adds the text of an outline, its points and then its advance, or `missing`.
fn add_outline<W: Sink>(
    outline: &Option<GlyphOutline>,
    text: &mut TextWriter<'_, W>,
) -> Result<(), WriteFailed>
    requires { text.old.faults < 2 ^ 63 }
    ensures { AddsFew longest_outline text.old text.new (outline_text (option_map view_of_glyph_outline outline.now)) result }
{
    match outline {
        Some(made) => {
            add_points(&made.outline.points, &made.outline.ends, text)?;
            add_advance(made.advance, text)
        }
        None => text.add(&[b"missing\n"]),
    }
}

/// Adds the line of an advance in 1/64 pixels.
fn add_advance<W: Sink>(advance: F26, text: &mut TextWriter<'_, W>) -> Result<(), WriteFailed>
    requires { text.old.faults < 2 ^ 63 }
    ensures text { Adds Fails text.old text.new (advance_line advance) result }
    ensures short { length (advance_line advance) ≤ 29 }
{
    let digits = Digits::signed(advance.0);
    text.add(&[b"advance ", digits.text(), b"\n"])
}

/// Adds the lines of points, by the last points of their contours.
fn add_points<W: Sink>(
    points: &[OutlinePoint],
    ends: &[u16],
    text: &mut TextWriter<'_, W>,
) -> Result<(), WriteFailed>
    requires { text.old.faults < 2 ^ 63 }
    ensures { AddsFew (88 * length points.now) text.old text.new (point_lines ends.now 0 points.now) result }
{
    // The lines of the points before i were added.
    'points: for i in 0..points.len() {
        let contour = contour_at(ends, i);
        add_point(contour, i, &points[i], text)?;
    }
    Ok(())
}

/// The contour of a point: how many end before it.
#[tactic(auto, using(std::proofs::lemmas::List::Sums::count_by_more_yes, std::proofs::lemmas::List::Sums::count_by_more_no))]
fn contour_at(ends: &[u16], number: usize) -> usize
    ensures { result ≡ contour_at ends.now number }
{
    let mut contour = 0;
    // `contour` is how many of the ends before this one lie before the point.
    'ends: for last in ends {
        if usize::from(*last) < number {
            contour += 1;
        }
    }
    contour
}

/// Adds the line of a point.
fn add_point<W: Sink>(
    contour: usize,
    number: usize,
    point: &OutlinePoint,
    text: &mut TextWriter<'_, W>,
) -> Result<(), WriteFailed>
    requires { text.old.faults < 2 ^ 63 }
    ensures text { Adds Fails text.old text.new (point_line contour number point.now) result }
    ensures short { length (point_line contour number point.now) ≤ 88 }
{
    let contour = Digits::unsigned(contour as u64);
    let number = Digits::unsigned(number as u64);
    let word = curve_word(point.on_curve);
    let x = Digits::signed(point.x.0);
    let y = Digits::signed(point.y.0);
    text.add(&[
        contour.text(),
        b" ",
        number.text(),
        word,
        x.text(),
        b" ",
        y.text(),
        b"\n",
    ])
}

/// Whether a point is on the curve, as a word.
fn curve_word(on_curve: bool) -> &'static [u8]
    ensures value { result.now ≡ curve_word on_curve }
    ensures short { length result.now ≤ 5 }
{
    if on_curve { b" on " } else { b" off " }
}
