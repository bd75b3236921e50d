//! What programs ask of drop-out control: SCANCTRL and SCANTYPE.

ghost use Rattle.std.specs.Prelude.{◌≡◌, ◌<◌, ◌/◌, ◌%◌, ◌==◌};
ghost use Rattle.fx_gstate.specs.Scan.{low_word, is_blocked, scan_control_of, scan_type_of};

use crate::rounding::low_byte;
use fx_fixed::Ppem;

/// Drop-out control, as a type of SCANTYPE asks for it (Apple TrueType Reference Manual, "Scan conversion").
#[derive(Clone, Copy, Debug, PartialEq, Eq)]
pub enum ScanType {
    /// No gap is closed.
    Off,
    /// The left or the lower pixel of a gap is set.
    Leftmost,
    /// The pixel of a gap is set that is nearer to the middle of the stroke.
    Nearest,
}

/// The flags of SCANCTRL that can matter to a glyph that is neither rotated nor stretched.
const ON_UP_TO_THRESHOLD: u16 = 0x0100;

const OFF_ABOVE_THRESHOLD: u16 = 0x0800;

const OFF_UNLESS_ROTATED: u16 = 0x1000;

const OFF_UNLESS_STRETCHED: u16 = 0x2000;

/// The low word of a stack number.
fn low_word(n: i32) -> u16
    ensures { result ≡ low_word n }
{
    n.rem_euclid(65_536) as u16
}

/// Whether a word has a flag.
fn has_flag(word: u16, flag: u16) -> bool
    requires { 0 < flag }
    ensures { result ≡ (word / flag % 2 == 1) }
{
    word / flag % 2 == 1
}

/// Whether a word of SCANCTRL turns drop-out control off at a size.
fn is_blocked(n: i32, ppem: Ppem) -> bool
    ensures { result ≡ is_blocked n ppem }
{
    let word = low_word(n);
    has_flag(word, OFF_ABOVE_THRESHOLD) && u16::from(low_byte(n)) < ppem.pixels()
        || has_flag(word, OFF_UNLESS_ROTATED)
        || has_flag(word, OFF_UNLESS_STRETCHED)
}

/// Whether drop-out control is on after SCANCTRL with a number, at a size, if it was on or off before.
#[tactic(auto, unfolding(crate::specs::Scan::scan_control_of))]
pub fn scan_control_of(n: i32, ppem: Ppem, before: bool) -> bool
    ensures { result ≡ scan_control_of n ppem before }
{
    let threshold = low_byte(n);
    if threshold == 255 {
        return true;
    }
    if threshold == 0 || is_blocked(n, ppem) {
        return false;
    }
    if has_flag(low_word(n), ON_UP_TO_THRESHOLD) && ppem.pixels() <= u16::from(threshold) {
        return true;
    }
    before
}

/// The drop-out control of a type of SCANTYPE; none if the number is no type.
#[tactic(auto, unfolding(crate::specs::Scan::scan_type_of))]
pub fn scan_type_of(n: i32) -> Option<ScanType>
    ensures { result ≡ scan_type_of n }
{
    match n {
        0 | 1 => Some(ScanType::Leftmost),
        4 | 5 => Some(ScanType::Nearest),
        2 | 3 | 6 | 7 | 8 => Some(ScanType::Off),
        _ => None,
    }
}
