//! What all differences of two designs are together.

ghost use Rattle.std.specs.Prelude.{◌↔◌, IsTrue};
ghost use Rattle.leg_rules.specs.Compare.Verdicts.{IsMove, IsGrowth, IsVerdict};

use leg_design_records::Design;
use leg_rules::{Change, Difference, Section, Verdict};
use std::alloc::Allocator;

/// Whether a movable component has another place.
fn is_move<A: Allocator + Copy>(first: &Design<'_, A>, difference: &Difference) -> bool
    ensures { IsTrue result ↔ IsMove first.now difference.now }
{
    match difference {
        Difference::Changed(Section::Components, Change::Place, i) => first.is_movable(*i),
        _ => false,
    }
}

/// Whether an entry of `NETS` has more wires.
fn is_growth(difference: &Difference) -> bool
    ensures { IsTrue result ↔ IsGrowth difference.now }
{
    match difference {
        Difference::Changed(Section::Nets, Change::MoreWires, _) => true,
        _ => false,
    }
}

/// The verdict on all differences of a design from the first one.
pub fn verdict_of<A: Allocator + Copy>(first: &Design<'_, A>, differences: &[Difference]) -> Verdict
    ensures { IsVerdict first.now differences.now result }
{
    let mut moves = 0;
    let mut growths = 0;
    for difference in differences {
        if is_move(first, difference) {
            moves += 1;
        } else if is_growth(difference) {
            growths += 1;
        } else {
            return Verdict::Differs(differences.len());
        }
    }
    match (moves, growths) {
        (0, 0) => Verdict::Same,
        (_, 0) => Verdict::Places(moves),
        (0, _) => Verdict::Wires(growths),
        _ => Verdict::PlacesAndWires(moves, growths),
    }
}
