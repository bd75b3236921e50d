//! The points of a simple glyph at a size.

ghost use Rattle.std.specs.Prelude.{◌≡◌, ◌<◌, ◌≤◌, ◌^◌, [], IfOk, OnOk, length, map, vec_capacity};
ghost use Rattle.std.specs.List.{All};
ghost use Rattle.fx_zone.specs.Points.{resting};
ghost use Rattle.fx_scale.specs.Scaling.{scaled_of};
ghost use Rattle.fx_scale.specs.Zones.{scaled_point, zone_of_simple};

use crate::factor::Factor;
use crate::scale::Scale;
use crate::source::PointSource;
use fx_fixed::Place;
use fx_glyf::Simple;
use fx_zone::Zone;
use std::alloc::{AllocError, Global};
use std::mem;

/// Makes a zone that of a simple glyph, with points from any source: each is scaled by itself, original and current places alike,
/// untouched, and the contours are the glyph's (OpenType, `glyf`, simple glyph description). The zone's lists are filled anew. If
/// memory is refused it may hold anything.
pub fn fill_zone<S: PointSource + Drop>(
    alloc: Global,
    zone: &mut Zone,
    simple: &Simple<'_>,
    source: S,
    scale: &Scale,
) -> Result<(), AllocError>
    requires { length (S.left source) ≡ length simple.now.points }
    ensures { OnOk result (zone.new ≡ zone_of_simple scale.now (record simple.now { points = S.left source })) }
{
    let (points, ends) = mem::replace(zone, Zone::new(alloc)).into_lists();
    let points = scaled_points(points, simple.point_count() as usize, source, scale)?;
    let ends = contour_ends(ends, simple)?;
    *zone = Zone::of(points, ends);
    Ok(())
}

/// The number of phantom points, which may be appended to a glyph's points.
const PHANTOM_POINTS: usize = 4;

/// The points of a source scaled, in their order, in a list whose points are lost, with room for the phantom points.
fn scaled_points<S: PointSource + Drop>(
    list: Vec<fx_zone::ZonePoint>,
    count: usize,
    source: S,
    scale: &Scale,
) -> Result<Vec<fx_zone::ZonePoint>, AllocError>
    requires size { count < 2 ^ 32 }
    requires all { length (S.left source) ≡ count }
    ensures { IfOk result (λ v. v.items ≡ map (scaled_point scale.now) (S.left source)) }
{
    let mut scaled = list;
    let blank = fx_zone::ZonePoint::resting(Place::origin(), false);
    scaled.resize(count + PHANTOM_POINTS, blank)?;
    scaled.truncate(count);
    let factor = scale.factor();
    let mut left = source;
    let mut number = 0;
    // The points before `number` are scaled, and those from it on are left.
    'points: while let Some(point) = left.next_point() {
        write_scaled(&mut scaled[number], &factor, point);
        number += 1;
    }
    Ok(scaled)
}

/// Writes a point scaled, original and current place alike, untouched, over another point, field by field: a whole point would be
/// written with its padding.
#[inline(always)]
fn write_scaled(scaled: &mut fx_zone::ZonePoint, factor: &Factor, point: fx_glyf::GlyphPoint)
    ensures { scaled.new ≡ resting (record {
      x = scaled_of point.x factor.now.ppem factor.now.units_per_em;
      y = scaled_of point.y factor.now.ppem factor.now.units_per_em;
    }) point.on_curve }
{
    let x = factor.apply(i32::from(point.x));
    let y = factor.apply(i32::from(point.y));
    scaled.org.x = x;
    scaled.org.y = y;
    scaled.cur.x = x;
    scaled.cur.y = y;
    scaled.on = point.on_curve;
    scaled.touched_x = false;
    scaled.touched_y = false;
}

/// The number of each contour's last point, in a list whose numbers are lost.
fn contour_ends(list: Vec<u16>, simple: &Simple<'_>) -> Result<Vec<u16>, AllocError>
    ensures value { IfOk result (λ v. v.items ≡ simple.now.ends) }
    ensures below { IfOk result (λ v. All (λ e. e < length simple.now.points) v.items) }
{
    let mut numbers = list;
    numbers.clear();
    numbers.reserve(usize::from(simple.contour_count()))?;
    let ends = simple.ends();
    // There is room for the ends that are left.
    'contours: for end in ends {
        numbers.push_reserved(end);
    }
    Ok(numbers)
}
