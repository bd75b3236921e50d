//! A glyph of a font at a place.

ghost use Rattle.std.specs.Prelude.{◌≡◌, ◌+◌, ◌≤◌, ◌<◌, ◌^◌, false, unsigned_abs, IfOk, OnOk, length};
ghost use Rattle.fx_fixed.specs.Chain.{wanted, GivesUnless};
ghost use Rattle.fx_axes.specs.Fvar.{axis_count};
ghost use Rattle.fx_axes.specs.Places.{axes_of};
ghost use Rattle.fx_vary.specs.declared.fault.ShapeFault.TheVariants.{BadVariations as Bad};
ghost use Rattle.fx_moves.specs.Adding.{AreWithin, sums};
ghost use Rattle.fx_vary.specs.Faults.{Fails};
ghost use Rattle.fx_vary.specs.Gvar.{glyph_count};
ghost use Rattle.fx_vary.specs.Metrics.{bearings_of};
ghost use Rattle.fx_vary.specs.Shape.{sum_at, both_settled, point_moved, component_moved, all_moved, glyph_moved, with_lists};
ghost use Rattle.fx_vary.specs.Shape.{own_points, phantom_sum, x_min_of, summed, shape_in, shape_of};

use crate::fault::ShapeFault;
use crate::instance::Instance;
use crate::lists::{Moved, append, ends_of, points_before};
use crate::metrics::{Bearings, metrics_at_place};
use crate::settling::settled;
use fx_axes::{Axes, AxisValue};
use fx_fixed::F2;
use fx_glyf::{Component, Composite, Glyph, GlyphPoint, Simple, read};
use fx_moves::GivenPoint;
use fx_sfnt::{Font, Metrics};

/// The sum of a point, by its number.
pub fn sum_at(points: &[GivenPoint], number: usize) -> i128
    requires { AreWithin 4095 (sums points.now) }
    ensures value { result ≡ sum_at points.now number }
    ensures small { unsigned_abs result ≤ 2 ^ 117 }
{
    if number < points.len() {
        points[number].sum
    } else {
        0
    }
}

/// Both coordinates, by their sums.
fn both_settled(at: (i32, i32), x: i128, y: i128) -> Option<(i16, i16)>
    requires x { unsigned_abs x ≤ 2 ^ 117 }
    requires y { unsigned_abs y ≤ 2 ^ 117 }
    ensures { result ≡ both_settled at x y }
{
    Some((settled(at.0, x)?, settled(at.1, y)?))
}

/// A point of a contour moved.
#[tactic(auto, unfolding(crate::specs::Shape::point_moved))]
fn point_moved(x: i128, y: i128, point: GlyphPoint) -> Option<GlyphPoint>
    requires x { unsigned_abs x ≤ 2 ^ 117 }
    requires y { unsigned_abs y ≤ 2 ^ 117 }
    ensures { result ≡ point_moved x y point }
{
    let (x, y) = both_settled((i32::from(point.x), i32::from(point.y)), x, y)?;
    Some(GlyphPoint {
        x,
        y,
        on_curve: point.on_curve,
    })
}

/// The point of a number moved.
fn point_by(
    xs: &[GivenPoint],
    ys: &[GivenPoint],
    number: usize,
    point: GlyphPoint,
) -> Option<GlyphPoint>
    requires x { AreWithin 4095 (sums xs.now) }
    requires y { AreWithin 4095 (sums ys.now) }
    ensures { result ≡ point_moved (sum_at xs.now number) (sum_at ys.now number) point }
{
    point_moved(sum_at(xs, number), sum_at(ys, number), point)
}

/// A component at other offsets.
fn with_offsets(component: Component, at: (i16, i16)) -> Component
    ensures { result ≡ record component { args = at } }
{
    Component {
        args: (i32::from(at.0), i32::from(at.1)),
        ..component
    }
}

/// A component moved; one that is placed by the numbers of points stays.
#[tactic(auto, unfolding(crate::specs::Shape::component_moved))]
fn component_moved(x: i128, y: i128, component: Component) -> Option<Component>
    requires x { unsigned_abs x ≤ 2 ^ 117 }
    requires y { unsigned_abs y ≤ 2 ^ 117 }
    ensures { result ≡ component_moved x y component }
{
    if component.has_offsets() {
        let at = both_settled(component.args, x, y)?;
        Some(with_offsets(component, at))
    } else {
        Some(component)
    }
}

/// The component of a number moved.
fn component_by(
    xs: &[GivenPoint],
    ys: &[GivenPoint],
    number: usize,
    component: Component,
) -> Option<Component>
    requires x { AreWithin 4095 (sums xs.now) }
    requires y { AreWithin 4095 (sums ys.now) }
    ensures { result ≡ component_moved (sum_at xs.now number) (sum_at ys.now number) component }
{
    component_moved(sum_at(xs, number), sum_at(ys, number), component)
}

/// Makes a list the points of a simple glyph moved.
fn move_points(
    list: &mut Vec<GlyphPoint>,
    g: u16,
    simple: &Simple<'_>,
    xs: &[GivenPoint],
    ys: &[GivenPoint],
) -> Result<(), ShapeFault>
    requires x { AreWithin 4095 (sums xs.now) }
    requires y { AreWithin 4095 (sums ys.now) }
    ensures { GivesUnless Fails (λ _. list.new.items) result
        (wanted (all_moved point_moved xs.now ys.now 0 simple.now.points) (Bad g)) }
{
    list.clear();
    // The points that are left, moved, are the rest of the whole list.
    'points: for point in simple.points() {
        let number = list.len();
        let Some(moved) = point_by(xs, ys, number, point) else {
            return Err(ShapeFault::BadVariations(g));
        };
        append(list, moved)?;
    }
    Ok(())
}

/// Makes a list the components of a composite moved.
fn move_components(
    list: &mut Vec<Component>,
    g: u16,
    composite: &Composite<'_>,
    xs: &[GivenPoint],
    ys: &[GivenPoint],
) -> Result<(), ShapeFault>
    requires x { AreWithin 4095 (sums xs.now) }
    requires y { AreWithin 4095 (sums ys.now) }
    ensures { GivesUnless Fails (λ _. list.new.items) result
        (wanted (all_moved component_moved xs.now ys.now 0 composite.now.components) (Bad g)) }
{
    list.clear();
    // The components that are left, moved, are the rest of the whole list.
    'components: for component in composite.components() {
        let number = list.len();
        let Some(moved) = component_by(xs, ys, number, component) else {
            return Err(ShapeFault::BadVariations(g));
        };
        append(list, moved)?;
    }
    Ok(())
}

/// Makes the list of a glyph's kind its points or components moved.
#[tactic(auto, unfolding(crate::specs::Shape::glyph_moved, crate::specs::Shape::with_lists))]
fn move_glyph(
    points: &mut Vec<GlyphPoint>,
    components: &mut Vec<Component>,
    g: u16,
    glyph: &Glyph<'_>,
    xs: &[GivenPoint],
    ys: &[GivenPoint],
) -> Result<(), ShapeFault>
    requires x { AreWithin 4095 (sums xs.now) }
    requires y { AreWithin 4095 (sums ys.now) }
    ensures { GivesUnless Fails (λ _. with_lists glyph.now points.new.items components.new.items) result
        (wanted (glyph_moved xs.now ys.now glyph.now) (Bad g)) }
{
    match glyph {
        Glyph::Empty => Ok(()),
        Glyph::Simple(simple) => move_points(points, g, simple, xs, ys),
        Glyph::Composite(composite) => move_components(components, g, composite, xs, ys),
    }
}

/// The xMin of a glyph's header.
#[tactic(auto, unfolding(crate::specs::Shape::x_min_of))]
pub fn x_min_of(glyph: &Glyph<'_>) -> i16
    ensures { result ≡ x_min_of glyph.now }
{
    match glyph {
        Glyph::Empty => 0,
        Glyph::Simple(simple) => simple.x_min(),
        Glyph::Composite(composite) => composite.x_min(),
    }
}

/// The origin and the advance of a glyph, by its points along x, the last four of which are phantom points.
fn bearings_in(
    g: u16,
    metrics: Metrics,
    glyph: &Glyph<'_>,
    xs: &[GivenPoint],
) -> Result<Bearings, ShapeFault>
    requires room { AreWithin 4095 (sums xs.now) }
    requires phantoms { length xs.now ≡ length (own_points false glyph.now) + 4 }
    ensures value { result ≡ wanted
        (bearings_of metrics (x_min_of glyph.now) (phantom_sum glyph.now xs.now 0) (phantom_sum glyph.now xs.now 1)) (Bad g) }
    ensures origin { IfOk result (λ b. unsigned_abs b.origin ≤ 65535) }
{
    let first = xs.len() - 4;
    let x_min = x_min_of(glyph);
    match metrics_at_place(metrics, x_min, sum_at(xs, first), sum_at(xs, first + 1)) {
        Some(bearings) => Ok(bearings),
        None => Err(ShapeFault::BadVariations(g)),
    }
}

impl<'a> Instance<'a> {
    /// Makes lists a glyph's points along x, or along y as the second coordinate, with what its tuples add, and the last points of
    /// its contours.
    #[tactic(auto, unfolding(crate::specs::Shape::summed))]
    fn sum(
        &self,
        g: u16,
        second: bool,
        glyph: &Glyph<'_>,
        ends: &mut Vec<u16>,
        points: &mut Vec<GivenPoint>,
    ) -> Result<(), ShapeFault>
        requires { g < glyph_count self.now.gvar }
        ensures value { GivesUnless Fails (λ _. points.new.items) result (summed self.now g second glyph.now) }
        ensures room { OnOk result (AreWithin 4095 (sums points.new.items)) }
        ensures phantoms { OnOk result (length points.new.items ≡ length (own_points second glyph.now) + 4) }
    {
        points_before(points, second, glyph)?;
        ends_of(ends, glyph)?;
        match self.add(g, ends, second, points) {
            Ok(()) => Ok(()),
            Err(_) => Err(ShapeFault::BadVariations(g)),
        }
    }

    /// Makes lists the points or the components of a glyph at the place, by its number, its metrics and its reading, and returns
    /// its origin and advance; or returns the first fault: of its tuples, of a coordinate that has not 16 bits, of an origin or
    /// an advance that no font can have.
    #[tactic(auto, unfolding(crate::specs::Shape::shape_in))]
    pub fn shape(
        &self,
        g: u16,
        metrics: Metrics,
        glyph: &Glyph<'_>,
        moved: &mut Moved,
    ) -> Result<Bearings, ShapeFault>
        requires { g < glyph_count self.now.gvar }
        ensures value { GivesUnless Fails
            (λ b. record { glyph = with_lists glyph.now moved.new.points.items moved.new.components.items; bearings = b }) result
            (shape_in self.now g metrics glyph.now) }
        ensures origin { IfOk result (λ b. unsigned_abs b.origin ≤ 65535) }
    {
        self.sum(g, false, glyph, &mut moved.ends, &mut moved.xs)?;
        self.sum(g, true, glyph, &mut moved.ends, &mut moved.ys)?;
        move_glyph(
            &mut moved.points,
            &mut moved.components,
            g,
            glyph,
            &moved.xs,
            &moved.ys,
        )?;
        bearings_in(g, metrics, glyph, &moved.xs)
    }
}

/// Makes lists the points or the components of a glyph of a font at values along its axes, and returns its reading, which has its
/// contours and its program, with its origin and advance; or returns the first fault.
///
/// `place` has a coordinate for each axis, and becomes the place of the values.
#[tactic(auto, using(crate::proofs::Numbering::numbered), unfolding(crate::specs::Shape::shape_of))]
pub fn shape_at<'a>(
    font: &Font<'a>,
    values: &[AxisValue],
    place: &mut [F2],
    g: u16,
    moved: &mut Moved,
) -> Result<(Glyph<'a>, Bearings), ShapeFault>
    requires few { length place.old < 2 ^ 16 }
    requires room { IfOk (axes_of font.now) (λ a. length place.old ≡ axis_count a.fvar) }
    ensures value { GivesUnless Fails
        (λ r. record { glyph = with_lists r.0 moved.new.points.items moved.new.components.items; bearings = r.1 }) result
        (shape_of font.now values.now g) }
    ensures origin { IfOk result (λ r. unsigned_abs r.1.origin ≤ 65535) }
{
    let axes = Axes::open(font)?;
    axes.place(values, place)?;
    let instance = Instance::open(font, place)?;
    let metrics = font.metrics(g)?;
    let glyph = read(font.glyph_bytes(g)?, g)?;
    let bearings = instance.shape(g, metrics, &glyph, moved)?;
    Ok((glyph, bearings))
}
