//! The numbers and states of the graphics state, and what INSTCTRL set, by name.

ghost use Rattle.std.specs.Prelude.{◌≡◌};
ghost use Rattle.fx_trace.specs.Changes.{bit_of, zone_of, scan_control_of, scan_type_of, axes_of, settings_of};

use crate::values::TraceValue;
use fx_gstate::{GState, ScanType, Vector, ZonePointer};
use fx_machine::InstructControl;
use std::marker::Model;

/// A setting, by its name in a line, and its value.
#[derive(Drop)]
pub struct Setting(pub &'static [u8], pub TraceValue);

impl Model for Setting {
    ghost use Rattle.fx_trace.specs.Changes.{SettingView};

    ghost Value = { SettingView };

    ghost view = { λ s. record { name = s.0.now; value = s.1 } };
}

/// 1 for true.
#[inline(always)]
pub fn bit_of(bit: bool) -> TraceValue
    ensures { result ≡ bit_of bit }
{
    TraceValue::Number(if bit { 1 } else { 0 })
}

/// The number of a zone.
fn zone_of(zone: ZonePointer) -> TraceValue
    ensures { result ≡ zone_of zone }
{
    match zone {
        ZonePointer::Twilight => TraceValue::Number(0),
        ZonePointer::Glyph => TraceValue::Number(1),
    }
}

/// Whether drop-out control is on, 1 or 0; -1 before the first SCANCTRL.
fn scan_control_of(control: Option<bool>) -> TraceValue
    ensures { result ≡ scan_control_of control }
{
    match control {
        None => TraceValue::Number(-1),
        Some(on) => bit_of(on),
    }
}

/// The least type of SCANTYPE that asks for this drop-out control.
fn scan_type_of(kind: ScanType) -> TraceValue
    ensures { result ≡ scan_type_of kind }
{
    match kind {
        ScanType::Leftmost => TraceValue::Number(0),
        ScanType::Off => TraceValue::Number(2),
        ScanType::Nearest => TraceValue::Number(4),
    }
}

/// A vector's coordinates in 2.14.
fn axes_of(vector: Vector) -> TraceValue
    ensures { result ≡ axes_of vector }
{
    TraceValue::Pair(i32::from(vector.x().0), i32::from(vector.y().0))
}

/// All of them, in the order of a line (Apple TrueType Reference Manual, "Graphics state").
pub fn settings_of(g: &GState, flags: InstructControl) -> [Setting; 22]
    ensures { result ≡ settings_of g.now flags }
{
    [
        Setting(b"rp0", TraceValue::Number(g.rp0)),
        Setting(b"rp1", TraceValue::Number(g.rp1)),
        Setting(b"rp2", TraceValue::Number(g.rp2)),
        Setting(b"zp0", zone_of(g.zp0)),
        Setting(b"zp1", zone_of(g.zp1)),
        Setting(b"zp2", zone_of(g.zp2)),
        Setting(b"auto-flip", bit_of(g.auto_flip)),
        Setting(b"cut-in", TraceValue::Number(g.cut_in.0)),
        Setting(
            b"minimum-distance",
            TraceValue::Number(g.minimum_distance.0),
        ),
        Setting(b"single-width", TraceValue::Number(g.single_width.0)),
        Setting(
            b"single-width-cut-in",
            TraceValue::Number(g.single_width_cut_in.0),
        ),
        Setting(b"delta-base", TraceValue::Number(g.delta_base)),
        Setting(
            b"delta-shift",
            TraceValue::Number(i32::from(g.delta_shift.shift())),
        ),
        Setting(b"scan-control", scan_control_of(g.scan_control)),
        Setting(b"scan-type", scan_type_of(g.scan_type)),
        Setting(b"freedom", axes_of(g.freedom)),
        Setting(b"projection", axes_of(g.projection)),
        Setting(b"dual", axes_of(g.dual)),
        Setting(b"loop", TraceValue::Count(u64::from(g.loop_count))),
        Setting(b"round", TraceValue::Round(g.round_state)),
        Setting(b"no-programs", bit_of(flags.no_programs)),
        Setting(b"default-state", bit_of(flags.default_state)),
    ]
}
