//! The pixels of a glyph as bytes: a byte a pixel, or packed, eight pixels a byte.
ghost use Rattle.std.specs.Prelude.{◌≡◌, ℕ, ◌<◌, ◌≤◌, ◌-◌, ◌*◌, ◌+◌, ◌++◌, [], List, Bool, false, true, map, length, take, drop};
ghost use Rattle.std.specs.Prelude.{slice_index_or};
ghost use Rattle.std.specs.List.{flat_map, range_with_len};
ghost use Rattle.fx_bdf.specs.Text.{eight_pixels, four_pixels};
ghost use Rattle.fx_winding.specs.Limits.{greatest_side};
ghost use Rattle.mkstrike_c.specs.Pixels.{row_byte, row_bytes, size_of, stride_of};

use fx_bdf::{BitGlyph, Row};
use fx_fixed::put_over;

/// The bytes of a row of this width.
pub fn stride(width: u32, packed: bool) -> u32
    requires { width ≤ greatest_side }
    ensures value { result ≡ stride_of packed width }
    ensures few { result ≤ greatest_side }
{
    if packed { (width + 7) / 8 } else { width }
}

/// The bytes of four pixels, by the number below 16 of which the leftmost is the highest bit.
static OF_FOUR: [[u8; 4]; 16] = [
    [0, 0, 0, 0],
    [0, 0, 0, 255],
    [0, 0, 255, 0],
    [0, 0, 255, 255],
    [0, 255, 0, 0],
    [0, 255, 0, 255],
    [0, 255, 255, 0],
    [0, 255, 255, 255],
    [255, 0, 0, 0],
    [255, 0, 0, 255],
    [255, 0, 255, 0],
    [255, 0, 255, 255],
    [255, 255, 0, 0],
    [255, 255, 0, 255],
    [255, 255, 255, 0],
    [255, 255, 255, 255],
];

/// The bytes of four pixels, by that number.
#[inline(always)]
fn bytes_of_four(four: u8) -> &'static [u8; 4]
    requires { four < 16 }
    ensures { (row : List Bool) (k : ℕ) → four ≡ four_pixels row k
        → result.now ≡ map (row_byte false row) (range_with_len k 4) }
{
    &OF_FOUR[four as usize]
}

/// The bytes of eight pixels, by the byte of which the leftmost is the highest bit.
fn bytes_of_eight(eight: u8) -> [u8; 8]
    ensures { (row : List Bool) (k : ℕ) → eight ≡ eight_pixels row k
        → result ≡ map (row_byte false row) (range_with_len k 8) }
{
    let [a, b, c, d] = *bytes_of_four(eight / 16);
    let [e, f, g, h] = *bytes_of_four(eight % 16);
    [a, b, c, d, e, f, g, h]
}

/// Puts the bytes of eight pixels over those from `start` on.
#[inline(always)]
fn put_whole(bytes: &mut [u8], start: usize, eight: u8)
    requires { start + 8 ≤ length bytes.old }
    ensures long { length bytes.new ≡ length bytes.old }
    ensures bytes { (row : List Bool) (k : ℕ) → eight ≡ eight_pixels row k → bytes.new ≡ take start bytes.old
        ++ (map (row_byte false row) (range_with_len k 8) ++ drop (start + 8) bytes.old) }
{
    put_over(bytes, start, bytes_of_four(eight / 16));
    put_over(bytes, start + 4, bytes_of_four(eight % 16));
}

/// Puts the bytes of eight pixels over those from `start` on, as many as there are.
#[inline(always)]
fn put_eight(bytes: &mut [u8], start: usize, eight: u8)
    requires { start ≤ length bytes.old }
    ensures long { length bytes.new ≡ length bytes.old }
    ensures bytes { (row : List Bool) (k : ℕ) → eight ≡ eight_pixels row k → bytes.new ≡ take start bytes.old
        ++ (take (length bytes.old - start) (map (row_byte false row) (range_with_len k 8)) ++ drop (start + 8) bytes.old) }
{
    let room = bytes.len() - start;
    if room >= 8 {
        put_whole(bytes, start, eight);
    } else {
        put_over(bytes, start, &bytes_of_eight(eight)[..room]);
    }
}

/// Puts a byte a pixel of a row of this width over as many bytes.
#[inline(always)]
fn put_each(row: &Row<'_>, width: u32, bytes: &mut [u8])
    requires width { width ≡ length row.now }
    requires few { width ≤ greatest_side }
    requires long { length bytes.old ≡ width }
    ensures { bytes.new ≡ row_bytes false row.now }
{
    // The bytes of the pixels before 8 k are in their places.
    'eights: for k in 0..(width + 7) / 8 {
        put_eight(bytes, 8 * k as usize, row.byte(k));
    }
}

/// Puts eight pixels a byte of a row of this width over as many bytes.
#[inline(always)]
fn put_packed(row: &Row<'_>, width: u32, bytes: &mut [u8])
    requires width { width ≡ length row.now }
    requires few { width ≤ greatest_side }
    requires long { length bytes.old ≡ stride_of true width }
    ensures { bytes.new ≡ row_bytes true row.now }
{
    // The bytes before k are in their places.
    'bytes: for k in 0..(width + 7) / 8 {
        bytes[k as usize] = row.byte(k);
    }
}

/// Puts the bytes of a row, counted from the top, over as many bytes.
#[inline(always)]
fn put_row(glyph: &BitGlyph, i: u32, packed: bool, bytes: &mut [u8])
    requires row { i < glyph.now.box.height }
    requires stride { length bytes.old ≡ stride_of packed glyph.now.box.width }
    ensures { bytes.new ≡ row_bytes packed (slice_index_or glyph.now.rows i []) }
{
    let width = glyph.bounds().width;
    if packed {
        put_packed(&glyph.row(i), width, bytes);
    } else {
        put_each(&glyph.row(i), width, bytes);
    }
}

/// Puts the bytes of a glyph's pixels over as many bytes, row by row from the top.
///
/// It is compiled once for each form, so that its loops do not test which it is.
#[inline(always)]
fn put_rows(glyph: &BitGlyph, packed: bool, pixels: &mut [u8])
    requires { length pixels.old ≡ size_of packed glyph.now }
    ensures { pixels.new ≡ flat_map (row_bytes packed) glyph.now.rows }
{
    let stride = stride(glyph.bounds().width, packed) as usize;
    let mut start = 0;
    // The rows before i stand before `start`.
    'rows: for i in 0..glyph.bounds().height {
        put_row(glyph, i, packed, &mut pixels[start..start + stride]);
        start += stride;
    }
}

/// Puts the bytes of a glyph's pixels over as many bytes, row by row from the top.
///
/// It is compiled into its callers: there the glyph is a value of their own, which the loops need not read again at each byte.
#[inline(always)]
pub fn put_pixels(glyph: &BitGlyph, packed: bool, pixels: &mut [u8])
    requires { length pixels.old ≡ size_of packed glyph.now }
    ensures { pixels.new ≡ flat_map (row_bytes packed) glyph.now.rows }
{
    if packed {
        put_rows(glyph, true, pixels);
    } else {
        put_rows(glyph, false, pixels);
    }
}
