//! Which rectangles of elements may not lie near one another, where they are of different nets.

ghost use Rattle.std.specs.Prelude.{◌<◌, ℕ, All, IfOk, OnOk};

use crate::element::Element;
use leg_geom::Rect;
use std::alloc::{AllocError, Allocator};

/// A rectangle that nodes or vias of a level have, given from their point.
#[derive(Clone, Copy, PartialEq, Eq, Debug)]
pub struct Part {
    pub element: Element,
    /// The level of the slots whose nodes these are, or whose steps up.
    pub level: usize,
    /// The number of the rectangle's layer.
    pub layer: usize,
    pub rect: Rect,
    /// The spacing of the layer, in database units.
    pub spacing: i64,
}

/// A rectangle of an element, and one on the same layer that may be another net's.
#[derive(Clone, Copy)]
pub(crate) struct Clash {
    pub(crate) element: Element,
    pub(crate) level: usize,
    pub(crate) other: Element,
    pub(crate) other_level: usize,
    rect: Rect,
    other_rect: Rect,
    /// That of their layer.
    spacing: i64,
}

/// How far two stretches lie apart.
fn gap(low: i64, high: i64, other_low: i64, other_high: i64) -> u64 {
    other_low
        .saturating_sub(high)
        .max(low.saturating_sub(other_high))
        .max(0)
        .unsigned_abs()
}

impl Clash {
    /// From where on and up to where along x the other element lies near one at x.
    pub(crate) fn columns(&self, x: i64) -> (i64, i64) {
        let low = self.rect.x1().saturating_sub(self.spacing);
        let high = self.rect.x2().saturating_add(self.spacing);
        (
            x.saturating_add(low.saturating_sub(self.other_rect.x2())),
            x.saturating_add(high.saturating_sub(self.other_rect.x1())),
        )
    }

    /// The same along y.
    pub(crate) fn rows(&self, y: i64) -> (i64, i64) {
        let low = self.rect.y1().saturating_sub(self.spacing);
        let high = self.rect.y2().saturating_add(self.spacing);
        (
            y.saturating_add(low.saturating_sub(self.other_rect.y2())),
            y.saturating_add(high.saturating_sub(self.other_rect.y1())),
        )
    }

    /// Whether the two share a point or are nearer than their layer's spacing, where the other element is so far away.
    pub(crate) fn holds(&self, x: i64, y: i64) -> bool {
        let (own, other) = (&self.rect, &self.other_rect);
        let across = gap(
            own.x1(),
            own.x2(),
            x.saturating_add(other.x1()),
            x.saturating_add(other.x2()),
        );
        let up = gap(
            own.y1(),
            own.y2(),
            y.saturating_add(other.y1()),
            y.saturating_add(other.y2()),
        );
        let spacing = self.spacing.unsigned_abs();
        let square = across
            .saturating_mul(across)
            .saturating_add(up.saturating_mul(up));
        square == 0 || square < spacing.saturating_mul(spacing)
    }
}

/// Adds what this part clashes with.
fn push_clashes<A: Allocator>(
    part: &Part,
    parts: &[Part],
    clashes: &mut Vec<Clash, A>,
) -> Result<(), AllocError>
    ensures { (levels : ℕ) → All (λ part. part.level < levels) parts.now → All (λ clash. clash.other_level < levels) clashes.old.items
        → OnOk result (All (λ clash. clash.other_level < levels) clashes.new.items) }
{
    for other in parts {
        if other.layer == part.layer {
            clashes.push(Clash {
                element: part.element,
                level: part.level,
                other: other.element,
                other_level: other.level,
                rect: part.rect,
                other_rect: other.rect,
                spacing: part.spacing,
            })?;
        }
    }
    Ok(())
}

/// All pairs of these parts that lie on one layer.
pub(crate) fn clashes_of<A: Allocator + Copy>(
    alloc: A,
    parts: &[Part],
) -> Result<Vec<Clash, A>, AllocError>
    ensures { (levels : ℕ) → All (λ part. part.level < levels) parts.now → IfOk result (λ clashes. All (λ clash. clash.other_level < levels) clashes.items) }
{
    let mut clashes = Vec::new(alloc);
    for part in parts {
        push_clashes(part, parts, &mut clashes)?;
    }
    Ok(clashes)
}
