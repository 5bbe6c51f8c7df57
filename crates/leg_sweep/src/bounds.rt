//! Bounds that enclose rectangles, in coarse steps, and what lies near a rectangle.

ghost use Rattle.std.specs.Prelude.{◌≡◌, ◌<◌, ◌^◌, unsigned_abs};
ghost use Rattle.leg_geom.specs.Plane.{IsRect};
ghost use Rattle.leg_sweep.specs.Counts.{near_along_both};
ghost use Rattle.leg_sweep.specs.Steps.Bounds.{step_of, bounds_around, meet, IsWithin, IsWindow};

use leg_geom::Rect;

/// How many database units a step has. The number of a step then fits in 32 bits.
const STEP: i64 = 8;

/// The sides of a rectangle, or of one that encloses others, each by the number of the step that it lies in. Rectangles that
/// share a point have bounds that meet; those of rectangles that lie a few units apart may meet too.
#[derive(Clone, Copy)]
pub(crate) struct Bounds {
    x1: i32,
    y1: i32,
    x2: i32,
    y2: i32,
}

impl Bounds {
    /// The bounds of this rectangle with what lies around it, up to a reach along each axis.
    pub(crate) fn around(rect: &Rect, reach: u32) -> Bounds
        ensures is { result ≡ bounds_around rect.now reach }
        ensures proper { IsRect rect.now }
    {
        let reach = i64::from(reach);
        Bounds {
            x1: step_of(rect.x1() - reach),
            y1: step_of(rect.y1() - reach),
            x2: step_of(rect.x2() + reach),
            y2: step_of(rect.y2() + reach),
        }
    }

    /// Bounds that no rectangle has, and that lie within all others.
    pub(crate) fn of_nothing() -> Bounds {
        Bounds {
            x1: i32::MAX,
            y1: i32::MAX,
            x2: i32::MIN,
            y2: i32::MIN,
        }
    }

    /// The least bounds that enclose both.
    pub(crate) fn joined(&self, other: &Bounds) -> Bounds
        ensures first { IsWithin self.now result }
        ensures second { IsWithin other.now result }
    {
        Bounds {
            x1: self.x1.min(other.x1),
            y1: self.y1.min(other.y1),
            x2: self.x2.max(other.x2),
            y2: self.y2.max(other.y2),
        }
    }

    /// Whether some step along x, and some along y, lies in both. It has no branches: which way they went could not be foreseen.
    pub(crate) fn meet(&self, other: &Bounds) -> bool
        ensures { result ≡ meet self.now other.now }
    {
        let right = other.x1 <= self.x2;
        let left = self.x1 <= other.x2;
        let top = other.y1 <= self.y2;
        let bottom = self.y1 <= other.y2;
        right & left & top & bottom
    }
}

/// The number of the step that the coordinate lies in.
fn step_of(coordinate: i64) -> i32
    requires { unsigned_abs coordinate < 2 ^ 34 }
    ensures { result ≡ step_of coordinate }
{
    coordinate.div_euclid(STEP) as i32
}

/// A rectangle with all that lies around it, up to a reach along each axis.
#[derive(Clone, Copy)]
pub(crate) struct Window {
    rect: Rect,
    reach: u32,
    bounds: Bounds,
}

impl Window {
    /// The window around this rectangle.
    pub(crate) fn around(rect: &Rect, reach: u32) -> Window
        ensures rect { result.rect ≡ rect.now }
        ensures reach { result.reach ≡ reach }
        ensures window { IsWindow result }
    {
        Window {
            rect: *rect,
            reach,
            bounds: Bounds::around(rect, reach),
        }
    }

    /// Whether a rectangle with these bounds, or within them, can reach into the window.
    pub(crate) fn can_meet(&self, bounds: &Bounds) -> bool
        ensures { result ≡ meet self.now.bounds bounds.now }
    {
        self.bounds.meet(bounds)
    }

    /// Whether the rectangle reaches into the window.
    pub(crate) fn meets(&self, rect: &Rect) -> bool
        ensures { result ≡ near_along_both self.now.reach self.now.rect rect.now }
    {
        let reach = u64::from(self.reach);
        self.rect.x_gap(rect) <= reach && self.rect.y_gap(rect) <= reach
    }
}
