//! Free positions of a component, and which of them is better.

ghost use Rattle.std.specs.Prelude.{◌↔◌, IsTrue, MatchBool};
ghost use Rattle.leg_rules.specs.Placement.Sites.{Fits};
ghost use Rattle.leg_legal_sites.specs.Steps.BestPosition.{IsBetterOf};
ghost use Rattle.leg_rules.specs.Legalise.Preference.{IsTurned, IsNoWorse};

use leg_geom::{Orient, Point};
use leg_rules::Candidate;

/// What a component asks of a position.
#[derive(Clone, Copy)]
pub struct Wanted {
    /// The lower left corner of its box as it starts.
    pub start: Point,
    /// The site of its macro, by number.
    pub site: usize,
    /// The width of such a site, in database units.
    pub site_width: i64,
    /// How many sites it takes.
    pub many: u64,
    /// The orientation that it has as it starts, if it is placed.
    pub orient: Option<Orient>,
    /// Whether its macro has Y symmetry.
    pub y_symmetric: bool,
}

/// Whether an orientation fits a row of this orientation: it is the row's, or for a macro with Y symmetry that mirrored on
/// the y axis.
pub fn fits(row: Orient, orient: Orient, y_symmetric: bool) -> bool
    ensures { IsTrue result ↔ Fits row y_symmetric orient }
{
    orient == row || y_symmetric && orient == row.mirror_y()
}

/// Whether the component gets another orientation in a row of this one.
pub(crate) fn is_turned(row: Orient, wanted: &Wanted) -> bool
    ensures { IsTrue result ↔ IsTurned row wanted.now.y_symmetric wanted.now.orient }
{
    match wanted.orient {
        Some(orient) => !fits(row, orient, wanted.y_symmetric),
        None => false,
    }
}

/// Whether a position is as good as another one or better; if not, the other one is.
fn is_no_worse(a: &Candidate, b: &Candidate) -> bool
    ensures { MatchBool result (IsNoWorse a.now b.now) (IsNoWorse b.now a.now) }
{
    if a.distance != b.distance {
        return a.distance < b.distance;
    }
    if a.turned != b.turned {
        return b.turned;
    }
    if a.row != b.row {
        return a.row < b.row;
    }
    a.first <= b.first
}

/// The better of two positions, if there are any.
pub(crate) fn better(best: Option<Candidate>, found: Option<Candidate>) -> Option<Candidate>
    ensures { IsBetterOf best found result }
{
    let Some(a) = best else {
        return found;
    };
    let Some(b) = found else {
        return best;
    };
    if is_no_worse(&a, &b) { best } else { found }
}
