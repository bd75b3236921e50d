//! What an instruction changed, as text.

ghost use Rattle.std.specs.Prelude.{◌≡◌};
ghost use Rattle.fx_trace.specs.Changes.{cell_change, change, each_from, coordinates_of, point_change, setting_change};
ghost use Rattle.fx_trace.specs.Snapshots.{changes_text, snapshot_of};
ghost use Rattle.fx_trace.specs.inner.Telling.{Says};

use crate::settings::{Setting, bit_of, settings_of};
use crate::snapshot::Snapshot;
use crate::text::TraceText;
use crate::values::{TraceValue, add_values, is_same};
use fx_fixed::{Place, Sink};
use fx_machine::State;
use fx_zone::ZonePoint;

/// Adds the change of what has this name and these numbers, if its value changed.
#[inline(always)]
fn add_change<S: Sink>(
    text: &mut TraceText<'_, S>,
    name: &[u8],
    numbers: &[TraceValue],
    was: TraceValue,
    now: TraceValue,
)
    ensures { Says text.old text.new (change name.now numbers.now was now) }
{
    if is_same(&was, &now) {
        return;
    }
    text.add(&[b"; ", name]);
    add_values(text, numbers);
    add_values(text, &[was, now]);
}

/// A place's coordinates.
#[inline(always)]
fn coordinates_of(place: &Place) -> TraceValue
    ensures { result ≡ coordinates_of place.now }
{
    TraceValue::Pair(place.x.0, place.y.0)
}

/// Adds the changes of a point.
fn add_point<S: Sink>(
    text: &mut TraceText<'_, S>,
    zone: u64,
    number: usize,
    was: &ZonePoint,
    now: &ZonePoint,
)
    ensures { Says text.old text.new (point_change zone number was.now now.now) }
{
    let numbers = [TraceValue::Count(zone), TraceValue::Count(number as u64)];
    add_change(
        text,
        b"point",
        &numbers,
        coordinates_of(&was.cur),
        coordinates_of(&now.cur),
    );
    add_change(
        text,
        b"original",
        &numbers,
        coordinates_of(&was.org),
        coordinates_of(&now.org),
    );
    add_change(
        text,
        b"touched-x",
        &numbers,
        bit_of(was.touched_x),
        bit_of(now.touched_x),
    );
    add_change(
        text,
        b"touched-y",
        &numbers,
        bit_of(was.touched_y),
        bit_of(now.touched_y),
    );
    add_change(text, b"on-curve", &numbers, bit_of(was.on), bit_of(now.on));
}

/// Adds the changes of a zone's points.
fn add_points<S: Sink>(text: &mut TraceText<'_, S>, zone: u64, was: &[ZonePoint], now: &[ZonePoint])
    ensures { Says text.old text.new (each_from (point_change zone) 0 was.now now.now) }
{
    // The changes of the points before i were added.
    'points: for i in 0..was.len().min(now.len()) {
        add_point(text, zone, i, &was[i], &now[i]);
    }
}

/// Adds the change of a table's entry.
#[inline(always)]
fn add_cell<S: Sink>(text: &mut TraceText<'_, S>, name: &[u8], number: usize, was: &i32, now: &i32)
    ensures { Says text.old text.new (cell_change name.now number was.now now.now) }
{
    if *was == *now {
        return;
    }
    let number = TraceValue::Count(number as u64);
    add_change(
        text,
        name,
        &[number],
        TraceValue::Number(*was),
        TraceValue::Number(*now),
    );
}

/// Adds the changes of a table's entries.
fn add_cells<S: Sink>(text: &mut TraceText<'_, S>, name: &[u8], was: &[i32], now: &[i32])
    ensures { Says text.old text.new (each_from (cell_change name.now) 0 was.now now.now) }
{
    // The changes of the entries before i were added.
    'cells: for i in 0..was.len().min(now.len()) {
        add_cell(text, name, i, &was[i], &now[i]);
    }
}

/// Adds the change of a setting.
#[inline(always)]
fn add_setting<S: Sink>(text: &mut TraceText<'_, S>, was: &Setting, now: &Setting)
    ensures { Says text.old text.new (setting_change was.now now.now) }
{
    add_change(text, was.0, &[], was.1, now.1);
}

/// Adds the changes of settings.
fn add_settings<S: Sink>(text: &mut TraceText<'_, S>, was: &[Setting], now: &[Setting])
    ensures { Says text.old text.new (each_from (λ n. setting_change) 0 was.now now.now) }
{
    // The changes of the settings before i were added.
    'settings: for i in 0..was.len().min(now.len()) {
        add_setting(text, &was[i], &now[i]);
    }
}

/// Adds what an instruction changed.
pub fn add_changes<S: Sink>(text: &mut TraceText<'_, S>, was: &Snapshot, now: &State)
    ensures { Says text.old text.new (changes_text was.now (snapshot_of now.now)) }
{
    add_points(text, 0, &was.twilight, now.zones.twilight.points());
    add_points(text, 1, &was.glyph, now.zones.glyph.points());
    add_cells(
        text,
        b"storage",
        &was.storage,
        now.store.storage().numbers(),
    );
    add_cells(text, b"cvt", &was.cvt, now.store.controls().numbers());
    add_settings(
        text,
        &settings_of(&was.graphics, was.flags),
        &settings_of(&now.graphics, now.flags),
    );
}
