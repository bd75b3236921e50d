//! The directory of a font file, which names its tables (OpenType, "Organization of an OpenType font").

ghost use Rattle.std.specs.Prelude.{◌≡◌, ◌+◌, ◌*◌, ◌^◌, ◌<◌, ◌≤◌, length, option_map, IfSome};
ghost use Rattle.fx_fixed.specs.Chain.{map_ok};
ghost use Rattle.fx_sfnt.specs.Fields.{field};
ghost use Rattle.fx_sfnt.specs.Tables.{table_of, required_table_of, is_directory};

use crate::fault::FontFault;
use crate::fields::{u16_in, u32_in};
use fx_fixed::{after, part};

/// Whether a file, from its directory on, has a version that is read, and includes its records.
pub fn is_directory(directory: &[u8]) -> bool
    ensures { result ≡ is_directory directory.now }
{
    if directory.len() < 12 {
        return false;
    }
    let version = u32_in(directory, 0);
    let count = u16_in(directory, 4) as usize;
    (version == 0x0001_0000 || version == 0x7472_7565) && 12 + 16 * count <= directory.len()
}

/// The table of a tag in a file: that of the first record of the directory with the tag.
pub fn find_table<'a>(file: &'a [u8], directory: &[u8], tag: [u8; 4]) -> Option<&'a [u8]>
    requires { 12 + 16 * field 2 directory.now 4 ≤ length directory.now }
    ensures table { option_map (λ t. t.now) result ≡ table_of file.now directory.now tag }
    ensures short { IfSome result (λ t. length t.now < 2 ^ 32) }
{
    let count = u16_in(directory, 4);
    let want = u32_in(&tag, 0);
    let mut rest = after(directory, 12);
    // The first record with the tag among the records that are left is that among all.
    'records: for k in 0..count {
        if u32_in(rest, 0) == want {
            let offset = u32_in(rest, 8) as usize;
            let len = u32_in(rest, 12) as usize;
            return Some(part(file, offset, len));
        }
        rest = after(rest, 16);
    }
    None
}

/// A table that is required.
pub fn required_table<'a>(
    file: &'a [u8],
    directory: &[u8],
    tag: [u8; 4],
) -> Result<&'a [u8], FontFault>
    requires { 12 + 16 * field 2 directory.now 4 ≤ length directory.now }
    ensures { map_ok (λ t. t.now) result ≡ required_table_of file.now directory.now tag }
{
    find_table(file, directory, tag).ok_or(FontFault::TableMissing(tag))
}
