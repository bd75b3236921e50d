//! The picture of a glyph, as text.
ghost use Rattle.std.specs.Prelude.{◌≡◌, ◌+◌, ◌<◌, ◌≤◌, ◌^◌, [], length, map, take, slice_index_or, OnOk, IfErr};
ghost use Rattle.std.specs.List.{flat_map};
ghost use Rattle.fx_fixed.specs.Changes.{change_of};
ghost use Rattle.fx_fixed.specs.Texts.{Adds, Fails, length_of};
ghost use Rattle.fx_fixed.specs.Wrote.{Wrote};
ghost use Rattle.fx_winding.specs.Limits.{greatest_side};
ghost use Rattle.fx_cli.specs.Pictures.{dot_of, longest_picture, row_line, shown_of};

use fx_bdf::BitGlyph;
use fx_fixed::{Sink, TextWriter, WriteFailed};
use fx_winding::MAX_SIDE;

/// The size of a buffer for the widest row.
const ROW_BUFFER: usize = MAX_SIDE as usize;

/// Writes the picture of a glyph, or `missing` if there is none. No memory is taken.
pub fn put_shown<O: Sink>(glyph: &Option<BitGlyph>, out: &mut O) -> Result<(), WriteFailed>
    requires { O.fault_count out.old < 2 ^ 63 }
    ensures { Wrote (change_of O.held O.fault_count out.old out.new) (shown_of glyph.now) result }
{
    let mut text = TextWriter::new(out);
    let result = add_shown(glyph, &mut text);
    text.close();
    result
}

/// Adds the picture of a glyph, or `missing`, to a text, and ends it.
fn add_shown<O: Sink>(
    glyph: &Option<BitGlyph>,
    text: &mut TextWriter<'_, O>,
) -> Result<(), WriteFailed>
    requires { text.old.faults < 2 ^ 63 }
    ensures text { Adds Fails text.old text.new (shown_of glyph.now) result }
    ensures ended { OnOk result (text.new.waiting ≡ []) }
    ensures short { IfErr result (λ e. e.0 ≤ length_of text.old + longest_picture) }
{
    add_glyph(glyph, text)?;
    text.end()
}

/// Adds the picture of a glyph: the rows of its tight box from the top, or `empty`; `missing` if there is no glyph.
#[tactic(auto, unfolding(crate::specs::Pictures::picture_of))]
fn add_glyph<O: Sink>(
    glyph: &Option<BitGlyph>,
    text: &mut TextWriter<'_, O>,
) -> Result<(), WriteFailed>
    requires { text.old.faults < 2 ^ 63 }
    ensures text { Adds Fails text.old text.new (shown_of glyph.now) result }
    // So the count in a write fault is exact.
    ensures short { length (shown_of glyph.now) ≤ longest_picture }
{
    let Some(glyph) = glyph else {
        return text.add(&[b"missing\n"]);
    };
    if glyph.bounds().is_empty() {
        return text.add(&[b"empty\n"]);
    }
    add_rows(glyph, text)
}

/// Adds the rows of a glyph from the top, a line a row.
fn add_rows<O: Sink>(glyph: &BitGlyph, text: &mut TextWriter<'_, O>) -> Result<(), WriteFailed>
    requires { text.old.faults < 2 ^ 63 }
    ensures { Adds Fails text.old text.new (flat_map row_line glyph.now.rows) result }
{
    let mut buffer = [0; ROW_BUFFER];
    // The rows before i were added.
    'rows: for i in 0..glyph.bounds().height {
        let width = put_dots(glyph, i, &mut buffer);
        text.add(&[&buffer[..width], b"\n"])?;
    }
    Ok(())
}

/// Puts the dots of a row, counted from the top, at the front of the buffer, and returns how many there are.
fn put_dots(glyph: &BitGlyph, i: u32, buffer: &mut [u8; ROW_BUFFER]) -> usize
    requires { i < glyph.now.box.height }
    ensures within { result ≤ greatest_side }
    ensures dots { take result buffer.new ≡ map dot_of (slice_index_or glyph.now.rows i []) }
{
    let width = glyph.bounds().width;
    // The dots of the pixels before j are written.
    'pixels: for j in 0..width {
        buffer[j as usize] = dot(glyph.pixel(i, j));
    }
    width as usize
}

/// The dot of a bit.
fn dot(bit: bool) -> u8
    ensures { result ≡ dot_of bit }
{
    if bit { b'#' } else { b'.' }
}
