//! Sites side by side, as a row has them and as a box reaches over them (LEF/DEF 5.8, "Rows", "Site").

ghost use Rattle.std.specs.Prelude.{◌≡◌};
ghost use Rattle.leg_place.specs.Steps.SiteSpan.{orient_rank, span_of, covers, begins_by};

use leg_geom::{Orient, Rect};
use leg_lib_records::Extent;

/// What sites have in common whose edges coincide wherever they overlap.
#[derive(Clone, Copy, PartialEq, Eq, PartialOrd, Ord)]
pub(crate) struct SiteLine {
    /// The number of the site.
    pub site: usize,
    /// The rank of the orientation.
    pub orient: u8,
    /// The y of the lower edge.
    pub bottom: i64,
    /// By how much the sites' edges lie to the right of the multiples of their width.
    pub shift: i64,
}

/// Sites of one line, side by side.
#[derive(Clone, Copy, PartialEq, Eq, PartialOrd, Ord)]
pub(crate) struct SiteSpan {
    pub line: SiteLine,
    /// The x of the left edge of the first site.
    pub left: i64,
    /// The x of the right edge of the last one.
    pub right: i64,
}

/// The place of an orientation among all of them, by which lines are sorted.
fn orient_rank(orient: Orient) -> u8
    ensures { result ≡ orient_rank orient }
{
    orient as u8
}

impl SiteSpan {
    /// The sites of this number, size and orientation, one of which begins at the rectangle's lower left corner, from
    /// its left edge to its right one.
    pub(crate) fn new(site: usize, size: &Extent, orient: Orient, rect: &Rect) -> SiteSpan
        ensures { result ≡ span_of site size.now orient rect.now }
    {
        let line = SiteLine {
            site,
            orient: orient_rank(orient),
            bottom: rect.y1(),
            shift: rect.x1().rem_euclid(size.width()),
        };
        SiteSpan {
            line,
            left: rect.x1(),
            right: rect.x2(),
        }
    }

    /// Whether all sites of the other span are among these.
    pub(crate) fn covers(&self, other: &SiteSpan) -> bool
        ensures { result ≡ covers self.now other.now }
    {
        self.line == other.line && self.left <= other.left && other.right <= self.right
    }

    /// Whether these sites are of an earlier line than the other span, or of its line and begin where it begins or to
    /// the left.
    pub(crate) fn begins_by(&self, other: &SiteSpan) -> bool
        ensures { result ≡ begins_by self.now other.now }
    {
        self.line
            .cmp(&other.line)
            .then(self.left.cmp(&other.left))
            .is_le()
    }
}
