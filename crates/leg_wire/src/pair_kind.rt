//! Kinds of violations of two shapes.

ghost use Rattle.std.specs.Prelude.{◌≡◌, ◌↔◌, IsTrue};
ghost use Rattle.leg_wire.specs.Steps.PairViolations.{fault_of, IsOfKind};

use leg_design_records::Fault;
use leg_flat::Shape;

/// A kind of violation of two comparable shapes that are too close.
#[derive(Clone, Copy)]
pub(crate) enum PairKind {
    /// They share a point.
    Short,
    /// They share none.
    TooNear,
}

impl PairKind {
    /// Whether two shapes that are too close are of this kind.
    pub(crate) fn holds(self, a: &Shape, b: &Shape) -> bool
        ensures { IsTrue result ↔ IsOfKind self a.now b.now }
    {
        match self {
            PairKind::Short => a.rect.shares_point(&b.rect),
            PairKind::TooNear => !a.rect.shares_point(&b.rect),
        }
    }

    /// The violation of this kind of the shapes of these numbers.
    pub(crate) fn fault(self, i: u32, j: u32) -> Fault
        ensures { result ≡ fault_of self i j }
    {
        match self {
            PairKind::Short => Fault::Short(i, j),
            PairKind::TooNear => Fault::TooNear(i, j),
        }
    }
}
