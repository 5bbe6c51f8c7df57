//! Laws of the slabs of polygons: each holds by the contract of a function that does nothing.

ghost use Rattle.std.specs.Prelude.{◌≡◌, List};
ghost use Rattle.leg_geom.specs.Plane.{PointModel, RectModel};
ghost use Rattle.leg_polygon.specs.Slab.{slabs, AreSlabs};

/// The slabs of a polygon have exactly the unit squares inside it, each once, span bands between heights of its corners,
/// and stand in order, none touching the next of its band.
pub fn slabs_have_the_squares()
    ensures { (points : List PointModel) → AreSlabs points (slabs points) }
{}

/// No other list of rectangles is that of its slabs.
pub fn slabs_are_determined()
    ensures { (points : List PointModel) (rects : List RectModel) → AreSlabs points rects → rects ≡ slabs points }
{}
