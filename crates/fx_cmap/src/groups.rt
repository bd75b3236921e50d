//! The groups of a subtable of format 12.

ghost use Rattle.std.specs.Prelude.{◌≡◌, ◌+◌, ◌*◌, ◌≤◌, length};
ghost use Rattle.fx_cmap.specs.Groups.{group_of, group_for, groups_at};

use crate::codes::Codes;
use crate::fault::CharMapFault;
use crate::group::Group;
use crate::rising::RisingCodes;
use crate::subtable::Subtable;
use fx_sfnt::u32_in;
use std::marker::Model;

/// A subtable of format 12 in the bytes of `cmap`.
#[derive(Drop)]
pub struct Groups<'a> {
    cmap: &'a [u8],
    // The offset of the subtable in `cmap`.
    start: u32,
    // The number of its groups.
    num_groups: u32,
    // Their last codes.
    end_char_codes: RisingCodes<'a>,
}

impl<'a> Model for Groups<'a> {
    ghost use Rattle.std.specs.Prelude.{List, ◌≡◌, ◌+◌, ◌*◌, ◌≤◌, length, map};
    ghost use Rattle.fx_cmap.specs.Groups.{groups_of};
    ghost use Rattle.fx_cmap.specs.declared.group.Group.{Group};

    ghost Value = { List Group };

    ghost view = { λ g. groups_of g.cmap.now g.start g.num_groups };

    ghost invariant = { λ g. (g.start + 16 + 12 * g.num_groups ≤ length g.cmap.now)
        × (map (λ (x : Group). x.end_char_code) (groups_of g.cmap.now g.start g.num_groups) ≡ g.end_char_codes) };
}

impl<'a> Groups<'a> {
    /// Reads the subtable at an offset of `cmap`, or returns the first fault; its length and language are not looked at.
    #[tactic(auto, using(crate::proofs::Searching::end_char_codes_of), unfolding(crate::specs::Groups::groups_at))]
    pub fn read(cmap: &'a [u8], start: u32) -> Result<Groups<'a>, CharMapFault>
        ensures { result ≡ groups_at cmap.now start }
    {
        let at = start as usize;
        if cmap.len() < at + 16 {
            return Err(CharMapFault::BadCharMap);
        }
        let num_groups = u32_in(cmap, at + 12);
        if cmap.len() < at + 16 + 12 * num_groups as usize {
            return Err(CharMapFault::BadCharMap);
        }
        let end_char_codes = Codes::wide(cmap, at + 20, 12, num_groups);
        if end_char_codes.fall() {
            return Err(CharMapFault::BadCharMap);
        }
        Ok(Groups {
            cmap,
            start,
            num_groups,
            end_char_codes: RisingCodes::of(end_char_codes),
        })
    }

    /// The group that counts for a code. The search begins at the group with the number `near`, which becomes that of the group
    /// that is found, or the number of all groups.
    #[inline]
    fn find(&self, near: &mut u32, code: u32) -> Option<Group>
        ensures { result ≡ group_for self.now code }
    {
        match self.end_char_codes.find(near, code) {
            Some(k) => Some(group(self.cmap, self.start, k)),
            None => None,
        }
    }
}

impl<'a> Subtable for Groups<'a> {
    ghost use Rattle.fx_cmap.specs.Groups.{glyph_by_groups};

    ghost glyph_of = { glyph_by_groups };

    #[inline]
    fn glyph(&self, near: &mut u32, code: u32) -> u16 {
        match self.find(near, code) {
            Some(group) => group.glyph(code),
            None => 0,
        }
    }

    /// The first code of the group that counts for the given one. If none does, none counts for a later one, and the result is
    /// the greatest number.
    fn gap_end(&self, near: u32, code: u32) -> u32 {
        let mut near = near;
        match self.find(&mut near, code) {
            Some(group) => group.start_char_code.min(group.end_char_code),
            None => u32::MAX,
        }
    }
}

/// The group with a number, of the subtable at an offset of `cmap`.
#[tactic(auto, unfolding(crate::specs::Groups::group_of))]
fn group(cmap: &[u8], start: u32, k: u32) -> Group
    requires { start + 28 + 12 * k ≤ length cmap.now }
    ensures { result ≡ group_of cmap.now start k }
{
    let at = start as usize + 12 * k as usize;
    Group {
        start_char_code: u32_in(cmap, at + 16),
        end_char_code: u32_in(cmap, at + 20),
        start_glyph_id: u32_in(cmap, at + 24),
    }
}
