//! Which shapes are compared with one another.

ghost use Rattle.std.specs.Prelude.{◌↔◌, IsTrue};
ghost use Rattle.leg_rules.specs.Spacing.Comparable.{AreOfOneComponent, AreComparable};

use leg_rules::Shape;

/// Whether the shapes are compared with one another: they lie on one layer, have different owners, are not of one
/// component, and are not both of obstructions or blockages.
pub(crate) fn are_comparable(a: &Shape, b: &Shape) -> bool
    ensures { IsTrue result ↔ AreComparable a.now b.now }
{
    a.layer == b.layer
        && a.owner != b.owner
        && !are_of_one_component(a, b)
        && !(a.owner.is_obstruction() && b.owner.is_obstruction())
}

/// Whether both shapes belong to one component.
fn are_of_one_component(a: &Shape, b: &Shape) -> bool
    ensures { IsTrue result ↔ AreOfOneComponent a.now b.now }
{
    match (a.component, b.component) {
        (Some(first), Some(second)) => first == second,
        _ => false,
    }
}
