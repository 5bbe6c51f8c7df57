//! Boxes round points: those of a terminal's shapes, and those of the centres of a net's terminals.

ghost use Rattle.std.specs.Prelude.{◌≡◌, ◌≤◌, ◌*◌, Some};
ghost use Rattle.leg_geom.specs.declared.limits.TheConstants.{COORDINATE_LIMIT};
ghost use Rattle.leg_geom.specs.Plane.{PointModel, IsCoordinate, IsHalfway, IsCentre};
ghost use Rattle.leg_rules.specs.Wirelength.{half_perimeter};
ghost use Rattle.leg_print.specs.Steps.Wirelength.{point_box, joined, joined_if_any};

use leg_geom::Rect;
use std::marker::Model;

/// A box by its sides, in database units. It may be as thin as a line or a point.
#[derive(Clone, Copy)]
pub(crate) struct Bounds {
    x1: i64,
    y1: i64,
    x2: i64,
    y2: i64,
}

impl Model for Bounds {
    ghost use Rattle.leg_geom.specs.Plane.{RectModel};
    ghost use Rattle.leg_print.specs.Steps.Wirelength.{IsBox};

    ghost Value = { RectModel };

    ghost view = { λ b. record { x1 = b.x1; y1 = b.y1; x2 = b.x2; y2 = b.y2 } };

    ghost invariant = { λ b. IsBox (record { x1 = b.x1; y1 = b.y1; x2 = b.x2; y2 = b.y2 }) };

    ghost inverse = { λ s. record { x1 = s.x1; y1 = s.y1; x2 = s.x2; y2 = s.y2 } };
}

impl Bounds {
    /// The box that a rectangle is.
    pub(crate) fn of(rect: &Rect) -> Bounds
        ensures { result ≡ rect.now }
    {
        Bounds {
            x1: rect.x1(),
            y1: rect.y1(),
            x2: rect.x2(),
            y2: rect.y2(),
        }
    }

    /// The least box that holds this one and another.
    fn with(&self, other: &Bounds) -> Bounds
        ensures { result ≡ joined self.now other.now }
    {
        Bounds {
            x1: self.x1.min(other.x1),
            y1: self.y1.min(other.y1),
            x2: self.x2.max(other.x2),
            y2: self.y2.max(other.y2),
        }
    }

    /// The point in the middle, each coordinate rounded down, as a box.
    pub(crate) fn centre(&self) -> Bounds
        ensures { (p : PointModel) × (result ≡ point_box p) × IsCentre self.now p }
    {
        let x = middle(self.x1, self.x2);
        let y = middle(self.y1, self.y2);
        Bounds {
            x1: x,
            y1: y,
            x2: x,
            y2: y,
        }
    }

    /// Half of the way round.
    pub(crate) fn half_perimeter(&self) -> u64
        ensures is { result ≡ half_perimeter (Some self.now) }
        ensures small { result ≤ 4 * COORDINATE_LIMIT }
    {
        self.x1.abs_diff(self.x2) + self.y1.abs_diff(self.y2)
    }
}

/// The number halfway between two others, rounded down.
fn middle(low: i64, high: i64) -> i64
    requires low { IsCoordinate low }
    requires high { IsCoordinate high }
    ensures halfway { IsHalfway low high result }
    ensures within { IsCoordinate result }
{
    (low + high).div_euclid(2)
}

/// The least box that holds both, where they are there.
pub(crate) fn joined(a: Option<Bounds>, b: Option<Bounds>) -> Option<Bounds>
    ensures { result ≡ joined_if_any a b }
{
    let Some(first) = a else {
        return b;
    };
    match b {
        Some(second) => Some(first.with(&second)),
        None => a,
    }
}
