//! Laws of rectangles and orientations: each holds by the contract of a function that does nothing.

ghost use Rattle.std.specs.Prelude.{◌≡◌, ℤ};
ghost use Rattle.leg_geom.specs.Plane.{PointModel, RectModel, IsRect, ShareSquare, HasAllPoints};
ghost use Rattle.leg_geom.specs.Orientation.{turned, placed, placed_rect, IsImage};
ghost use Rattle.leg_geom.specs.declared.orient.Orient.{Orient};
ghost use Rattle.leg_geom.specs.Gap.{x_gap, y_gap, IsXGap, IsYGap};

/// Rectangles share a unit square in either order.
pub fn sharing_is_symmetric()
    ensures { (a b : RectModel) → ShareSquare a b → ShareSquare b a }
{}

/// A rectangle is determined by its points: two with the same points have the same corners.
pub fn points_determine_a_rectangle()
    ensures { (a b : RectModel) → IsRect a → IsRect b → HasAllPoints a b → HasAllPoints b a → a ≡ b }
{}

/// The gaps of two rectangles are the least differences between the coordinates of their points.
pub fn gaps_are_least()
    ensures along_x { (a b : RectModel) → IsRect a → IsRect b → IsXGap a b (x_gap a b) }
    ensures along_y { (a b : RectModel) → IsRect a → IsRect b → IsYGap a b (y_gap a b) }
{}

/// An orientation takes different points of a box to different points.
pub fn orientations_keep_points_apart()
    ensures { (o : Orient) (w h : ℤ) (p q : PointModel) → turned o w h p ≡ turned o w h q → p ≡ q }
{}

/// The rectangle between the images of two opposite corners has exactly the images of the rectangle's points.
pub fn placed_rectangles_are_images()
    ensures { (at : PointModel) (o : Orient) (w h : ℤ) (r : RectModel) → IsRect r → IsImage (placed at o w h) r (placed_rect at o w h r) }
{}
