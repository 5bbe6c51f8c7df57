//! Points, sizes and rectangles: in millionths of a micron as texts write them, and sizes in database units.

ghost use Rattle.std.specs.Prelude.{◌≡◌};
ghost use Rattle.leg_lib_records.specs.Measure.{HasArea, IsExtent, IsProper};

use leg_lex::Micron;
use std::marker::Model;

/// A point in millionths of a micron.
#[derive(Clone, Copy, PartialEq, Eq, Debug)]
pub struct RawPoint {
    x: Micron,
    y: Micron,
}

impl Model for RawPoint {
    ghost use Rattle.leg_geom.specs.Plane.{PointModel};

    ghost Value = { PointModel };

    ghost view = { λ p. record { x = p.x; y = p.y } };

    ghost inverse = { λ p. record { x = p.x; y = p.y } };
}

impl RawPoint {
    /// The point with these coordinates.
    pub fn new(x: Micron, y: Micron) -> RawPoint
        ensures { result ≡ record { x = x; y = y } }
    {
        RawPoint { x, y }
    }

    /// The x coordinate, in millionths of a micron.
    pub fn x(&self) -> Micron
        ensures { result ≡ self.now.x }
    {
        self.x
    }

    /// The y coordinate, in millionths of a micron.
    pub fn y(&self) -> Micron
        ensures { result ≡ self.now.y }
    {
        self.y
    }
}

/// A width and a height in millionths of a micron, both above 0.
#[derive(Clone, Copy, PartialEq, Eq, Debug)]
pub struct RawExtent {
    width: Micron,
    height: Micron,
}

impl Model for RawExtent {
    ghost use Rattle.leg_lib_records.specs.Measure.{ExtentModel, HasArea};

    ghost Value = { ExtentModel };

    ghost view = { λ e. record { width = e.width; height = e.height } };

    ghost invariant = { λ e. HasArea (record { width = e.width; height = e.height }) };

    ghost inverse = { λ e. record { width = e.width; height = e.height } };
}

impl RawExtent {
    /// The size with this width and height.
    pub fn new(width: Micron, height: Micron) -> RawExtent
        requires { HasArea (record { width = width; height = height }) }
        ensures { result ≡ record { width = width; height = height } }
    {
        RawExtent { width, height }
    }

    /// The width, in millionths of a micron.
    pub fn width(&self) -> Micron
        ensures is { result ≡ self.now.width }
        ensures proper { HasArea self.now }
    {
        self.width
    }

    /// The height, in millionths of a micron.
    pub fn height(&self) -> Micron
        ensures is { result ≡ self.now.height }
        ensures proper { HasArea self.now }
    {
        self.height
    }
}

/// A rectangle in millionths of a micron, which has area.
#[derive(Clone, Copy, PartialEq, Eq, Debug)]
pub struct RawRect {
    x1: Micron,
    y1: Micron,
    x2: Micron,
    y2: Micron,
}

impl Model for RawRect {
    ghost use Rattle.leg_geom.specs.Plane.{RectModel};
    ghost use Rattle.leg_lib_records.specs.Measure.{IsProper};

    ghost Value = { RectModel };

    ghost view = { λ r. record { x1 = r.x1; y1 = r.y1; x2 = r.x2; y2 = r.y2 } };

    ghost invariant = { λ r. IsProper (record { x1 = r.x1; y1 = r.y1; x2 = r.x2; y2 = r.y2 }) };

    ghost inverse = { λ r. record { x1 = r.x1; y1 = r.y1; x2 = r.x2; y2 = r.y2 } };
}

impl RawRect {
    /// The rectangle with these sides.
    pub fn new(x1: Micron, y1: Micron, x2: Micron, y2: Micron) -> RawRect
        requires { IsProper (record { x1 = x1; y1 = y1; x2 = x2; y2 = y2 }) }
        ensures { result ≡ record { x1 = x1; y1 = y1; x2 = x2; y2 = y2 } }
    {
        RawRect { x1, y1, x2, y2 }
    }

    /// The left side, in millionths of a micron.
    pub fn x1(&self) -> Micron
        ensures is { result ≡ self.now.x1 }
        ensures proper { IsProper self.now }
    {
        self.x1
    }

    /// The lower side, in millionths of a micron.
    pub fn y1(&self) -> Micron
        ensures is { result ≡ self.now.y1 }
        ensures proper { IsProper self.now }
    {
        self.y1
    }

    /// The right side, in millionths of a micron.
    pub fn x2(&self) -> Micron
        ensures is { result ≡ self.now.x2 }
        ensures proper { IsProper self.now }
    {
        self.x2
    }

    /// The upper side, in millionths of a micron.
    pub fn y2(&self) -> Micron
        ensures is { result ≡ self.now.y2 }
        ensures proper { IsProper self.now }
    {
        self.y2
    }
}

/// A width and a height in database units, both above 0 and within the limit of numbers.
#[derive(Clone, Copy, PartialEq, Eq, Debug)]
pub struct Extent {
    width: i64,
    height: i64,
}

impl Model for Extent {
    ghost use Rattle.leg_lib_records.specs.Measure.{ExtentModel, IsExtent};

    ghost Value = { ExtentModel };

    ghost view = { λ e. record { width = e.width; height = e.height } };

    ghost invariant = { λ e. IsExtent (record { width = e.width; height = e.height }) };

    ghost inverse = { λ e. record { width = e.width; height = e.height } };
}

impl Extent {
    /// The size with this width and height.
    pub fn new(width: i64, height: i64) -> Extent
        requires { IsExtent (record { width = width; height = height }) }
        ensures { result ≡ record { width = width; height = height } }
    {
        Extent { width, height }
    }

    /// The width, in database units.
    pub fn width(&self) -> i64
        ensures is { result ≡ self.now.width }
        ensures proper { IsExtent self.now }
    {
        self.width
    }

    /// The height, in database units.
    pub fn height(&self) -> i64
        ensures is { result ≡ self.now.height }
        ensures proper { IsExtent self.now }
    {
        self.height
    }
}
