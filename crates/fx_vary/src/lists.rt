//! The lists of a glyph at a place.

ghost use Rattle.std.specs.Prelude.{◌≡◌, ◌++◌, ◌∷◌, ◌<◌, [], false, OnOk, map, length};
ghost use Rattle.std.specs.List.{All};
ghost use Rattle.fx_vary.specs.Shape.{point_at, blank, phantoms, along, own_points, points_before, ends_of};

use fx_glyf::{Component, Composite, Glyph, GlyphPoint, Simple};
use fx_moves::GivenPoint;
use std::alloc::{AllocError, Global};

/// The points or the components of a glyph at a place, in lists that one glyph leaves to the next, so that it asks for no memory.
#[derive(Drop)]
pub struct Moved {
    /// The points of a simple glyph.
    pub points: Vec<GlyphPoint>,
    /// The components of a composite.
    pub components: Vec<Component>,
    pub(crate) ends: Vec<u16>,
    pub(crate) xs: Vec<GivenPoint>,
    pub(crate) ys: Vec<GivenPoint>,
}

impl Moved {
    /// Lists without memory.
    pub fn new(alloc: Global) -> Moved {
        Moved {
            points: Vec::new(alloc),
            components: Vec::new(alloc),
            ends: Vec::new(alloc),
            xs: Vec::new(alloc),
            ys: Vec::new(alloc),
        }
    }
}

/// A point at a coordinate, before any tuple.
pub fn point_at(at: i16) -> GivenPoint
    ensures { result ≡ point_at at }
{
    GivenPoint {
        at,
        named: false,
        delta: 0,
        moved: 0,
        sum: 0,
    }
}

/// Appends to a list.
pub fn append<T: Drop>(list: &mut Vec<T>, item: T) -> Result<(), AllocError>
    ensures { OnOk result (list.new.items ≡ list.old.items ++ item ∷ []) }
{
    list.push(item)?;
    Ok(())
}

/// The x of a point, or its y as the second coordinate.
fn along(second: bool, point: GlyphPoint) -> i16
    ensures { result ≡ along second point }
{
    if second { point.y } else { point.x }
}

/// Appends the points of contours.
fn push_points(
    list: &mut Vec<GivenPoint>,
    second: bool,
    simple: &Simple<'_>,
) -> Result<(), AllocError>
    ensures { OnOk result (list.new.items ≡ list.old.items ++ map (λ p. point_at (along second p)) simple.now.points) }
{
    // With the points that are left, the list is the whole one.
    'points: for point in simple.points() {
        list.push(point_at(along(second, point)))?;
    }
    Ok(())
}

/// Appends a point for each component.
fn push_components(list: &mut Vec<GivenPoint>, composite: &Composite<'_>) -> Result<(), AllocError>
    ensures { OnOk result (list.new.items ≡ list.old.items ++ map (λ _. blank) composite.now.components) }
{
    // With a point for each component that is left, the list is the whole one.
    'components: for _component in composite.components() {
        list.push(point_at(0))?;
    }
    Ok(())
}

/// Makes a list the points of contours, or one for each component.
#[tactic(auto, unfolding(crate::specs::Shape::own_points))]
fn own_points(list: &mut Vec<GivenPoint>, second: bool, glyph: &Glyph<'_>) -> Result<(), AllocError>
    ensures { OnOk result (list.new.items ≡ own_points second glyph.now) }
{
    list.clear();
    match glyph {
        Glyph::Empty => Ok(()),
        Glyph::Simple(simple) => push_points(list, second, simple),
        Glyph::Composite(composite) => push_components(list, composite),
    }
}

/// Appends the four phantom points.
fn push_phantoms(list: &mut Vec<GivenPoint>) -> Result<(), AllocError>
    ensures { OnOk result (list.new.items ≡ list.old.items ++ phantoms) }
{
    list.push(point_at(0))?;
    list.push(point_at(0))?;
    list.push(point_at(0))?;
    list.push(point_at(0))?;
    Ok(())
}

/// Makes a list a glyph's points along x, or along y as the second coordinate, before any tuple.
pub fn points_before(
    list: &mut Vec<GivenPoint>,
    second: bool,
    glyph: &Glyph<'_>,
) -> Result<(), AllocError>
    ensures { OnOk result (list.new.items ≡ points_before second glyph.now) }
{
    own_points(list, second, glyph)?;
    push_phantoms(list)
}

/// Appends the last points of contours.
fn push_ends(list: &mut Vec<u16>, simple: &Simple<'_>) -> Result<(), AllocError>
    ensures value { OnOk result (list.new.items ≡ list.old.items ++ simple.now.ends) }
    ensures below { All (λ e. e < length simple.now.points) simple.now.ends }
{
    let ends = simple.ends();
    // With the ends that are left, the list is the whole one.
    'ends: for end in ends {
        list.push(end)?;
    }
    Ok(())
}

/// Makes a list the last points of a glyph's contours.
#[tactic(auto, using(crate::proofs::Listing::ends_steps), unfolding(crate::specs::Shape::ends_of))]
pub fn ends_of(list: &mut Vec<u16>, glyph: &Glyph<'_>) -> Result<(), AllocError>
    ensures value { OnOk result (list.new.items ≡ ends_of glyph.now) }
    ensures below { OnOk result (All (λ e. e < length (own_points false glyph.now)) (ends_of glyph.now)) }
{
    list.clear();
    match glyph {
        Glyph::Empty => Ok(()),
        Glyph::Simple(simple) => push_ends(list, simple),
        Glyph::Composite(_composite) => Ok(()),
    }
}
