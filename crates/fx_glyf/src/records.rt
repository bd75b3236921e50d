//! The component records of a composite glyph.

ghost use Rattle.std.specs.Prelude.{◌≡◌, ◌+◌, ◌*◌, ◌≤◌, true, length, drop, option_map, None, IfSome, IfNone};
ghost use Rattle.fx_sfnt.specs.Fields.{field, signed_field};
ghost use Rattle.fx_glyf.specs.Components.{args_size, scales_size, component_size, argument_of, scales_of, component_of, next_component, components_in, ending_of};

use crate::component::{
    ARG_1_AND_2_ARE_WORDS, ARGS_ARE_XY_VALUES, Component, WE_HAVE_A_SCALE, WE_HAVE_A_TWO_BY_TWO,
    WE_HAVE_AN_X_AND_Y_SCALE, has, has_program, is_followed,
};
use fx_fixed::{F2, after, before};
use fx_sfnt::{i16_in, u16_in};

/// The bytes of both arguments.
fn args_size(flags: u16) -> usize
    ensures { result ≡ args_size flags }
{
    if has(flags, ARG_1_AND_2_ARE_WORDS) {
        4
    } else {
        2
    }
}

/// The bytes of the scales.
fn scales_size(flags: u16) -> usize
    ensures { result ≡ scales_size flags }
{
    if has(flags, WE_HAVE_A_SCALE) {
        2
    } else if has(flags, WE_HAVE_AN_X_AND_Y_SCALE) {
        4
    } else if has(flags, WE_HAVE_A_TWO_BY_TWO) {
        8
    } else {
        0
    }
}

/// An argument, the first or the second.
#[tactic(auto, unfolding(crate::specs::Components::argument_by))]
fn argument(flags: u16, bytes: &[u8], k: usize) -> i32
    requires which { k ≤ 1 }
    requires inside { args_size flags ≤ length bytes.now }
    ensures { result ≡ argument_of flags bytes.now k }
{
    match (
        has(flags, ARG_1_AND_2_ARE_WORDS),
        has(flags, ARGS_ARE_XY_VALUES),
    ) {
        (true, true) => i32::from(i16_in(bytes, 2 * k)),
        (true, false) => i32::from(u16_in(bytes, 2 * k)),
        (false, true) => i32::from(bytes[k].cast_signed()),
        (false, false) => i32::from(bytes[k]),
    }
}

/// The number in 2.14 at an offset.
fn f2_in(bytes: &[u8], at: usize) -> F2
    requires { at + 2 ≤ length bytes.now }
    ensures { result ≡ signed_field bytes.now at }
{
    F2(i16_in(bytes, at))
}

/// The four numbers of the transformation.
#[tactic(auto, unfolding(crate::specs::Components::scales_by))]
fn scales(flags: u16, bytes: &[u8]) -> (F2, F2, F2, F2)
    requires { scales_size flags ≤ length bytes.now }
    ensures { result ≡ scales_of flags bytes.now }
{
    if has(flags, WE_HAVE_A_SCALE) {
        (f2_in(bytes, 0), F2(0), F2(0), f2_in(bytes, 0))
    } else if has(flags, WE_HAVE_AN_X_AND_Y_SCALE) {
        (f2_in(bytes, 0), F2(0), F2(0), f2_in(bytes, 2))
    } else if has(flags, WE_HAVE_A_TWO_BY_TWO) {
        (
            f2_in(bytes, 0),
            f2_in(bytes, 2),
            f2_in(bytes, 4),
            f2_in(bytes, 6),
        )
    } else {
        (F2::ONE, F2(0), F2(0), F2::ONE)
    }
}

/// The component that bytes are.
#[tactic(auto, unfolding(crate::specs::Components::component_of))]
fn component(bytes: &[u8]) -> Component
    requires { component_size (field 2 bytes.now 0) ≤ length bytes.now }
    ensures { result ≡ component_of bytes.now }
{
    let flags = u16_in(bytes, 0);
    let rest = after(bytes, 4);
    let (a, b, c, d) = scales(flags, after(rest, args_size(flags)));
    Component {
        glyph: u16_in(bytes, 2),
        args: (argument(flags, rest, 0), argument(flags, rest, 1)),
        flags,
        a,
        b,
        c,
        d,
    }
}

/// The bytes of a component with these flags.
pub fn component_size(flags: u16) -> usize
    ensures { result ≡ component_size flags }
{
    4 + args_size(flags) + scales_size(flags)
}

/// The flags of the component at the front of the bytes, if they hold all of it.
#[tactic(auto, unfolding(crate::specs::Components::next_component))]
fn next_flags(bytes: &[u8]) -> Option<u16>
    ensures value { IfSome result (λ flags. flags ≡ field 2 bytes.now 0) }
    ensures inside { IfSome result (λ flags. component_size flags ≤ length bytes.now) }
    ensures none { IfNone result (None ≡ next_component bytes.now) }
{
    if bytes.len() < 4 {
        return None;
    }
    let flags = u16_in(bytes, 0);
    if bytes.len() < component_size(flags) {
        return None;
    }
    Some(flags)
}

/// The component at the front of the bytes; the next one comes after its size.
pub fn next_component(bytes: &[u8]) -> Option<Component>
    ensures value { option_map (λ p. (p, drop (component_size p.flags) bytes.now)) result ≡ next_component bytes.now }
    ensures inside { IfSome result (λ p. component_size p.flags ≤ length bytes.now) }
{
    let size = component_size(next_flags(bytes)?);
    Some(component(before(bytes, size)))
}

/// Whether any component announces a program, and the bytes after the last.
#[tactic(auto, using(crate::proofs::ComponentRecords::skip_steps))]
pub fn skip_components(bytes: &[u8]) -> Option<(bool, &[u8])>
    ensures { option_map (λ p. (p.0, p.1.now)) result ≡ option_map ending_of (components_in true bytes.now) }
{
    let mut announced = false;
    let mut more = true;
    let mut rest = bytes;
    // What comes after the components that are left comes after all.
    'components: while more {
        let flags = next_flags(rest)?;
        announced |= has_program(flags);
        more = is_followed(flags);
        rest = after(rest, component_size(flags));
    }
    Some((announced, rest))
}
