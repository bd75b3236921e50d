//! Which points are named, and where the others go.

ghost use Rattle.std.specs.Prelude.{◌≡◌, Bool, map};

/// A rule for the points of a contour that are not named.
pub trait Rule {
    /// A point of a contour.
    type Point: Copy;

    // Whether a point is named.
    ghost is_named: { Self → Self.Point → Bool };

    // A point, the third one, between the named ones before and after it.
    ghost between: { Self → Self.Point → Self.Point → Self.Point → Self.Point };

    /// Whether a point is named.
    fn is_named(&self, point: &Self::Point) -> bool
        ensures { result ≡ is_named self.now point.now };

    /// Fills a run of points between the named ones before and after it.
    fn fill_run(&self, points: &mut [Self::Point], before: &Self::Point, after: &Self::Point)
        ensures { points.new ≡ map (between self.now before.now after.now) points.old };
}
