//! The rectangles of items, as far as their gaps tell them.

ghost use Rattle.std.specs.Prelude.{◌≡◌, ◌<◌, ◌+◌, ◌-◌, ◌^◌, ◌≤ℤ◌, length, map, All, IfOk, OnOk};
ghost use Rattle.leg_sweep.specs.Steps.Cut.{cut_at, left_edge_at};

use crate::rule::LayeredRule;
use leg_geom::Rect;
use std::alloc::{AllocError, Allocator};

/// The rectangles of the items, each cut at the rightmost left edge, which is that of the item with the number: what lies right
/// of it changes no gap between two items. A rule doesn't tell right edges, so each is a look.
pub(crate) fn cut_rects<R: LayeredRule, A: Allocator>(
    alloc: A,
    items: &[R::Item],
    rule: &mut R,
    rightmost: usize,
) -> Result<Vec<Rect, A>, AllocError>
    requires there { rightmost < length items.now }
    requires right { All (λ a. (R.rect_of (R.fixed rule.old) a).x1 ≤ℤ left_edge_at (R.rect_of (R.fixed rule.old)) items.now rightmost) items.now }
    requires looks { R.looks_of rule.old + length items.now < 2 ^ 64 }
    ensures cut { let rect_of = R.rect_of (R.fixed rule.old) in IfOk result (λ rects. rects.items
        ≡ map (λ a. cut_at (left_edge_at rect_of items.now rightmost) (rect_of a)) items.now) }
    ensures looks { OnOk result (R.looks_of rule.new ≡ R.looks_of rule.old + length items.now) }
    ensures tests { OnOk result (R.tests_of rule.new ≡ R.tests_of rule.old) }
    ensures same { R.fixed rule.new ≡ R.fixed rule.old }
{
    let mut rects = Vec::with_capacity(alloc, items.len())?;
    for item in items {
        rects.push(cut_rect(rule, item, &items[rightmost]))?;
    }
    Ok(rects)
}

/// The rectangle of an item, cut at the left edge of another one that is no further left. A look.
fn cut_rect<R: LayeredRule>(rule: &mut R, item: &R::Item, rightmost: &R::Item) -> Rect
    requires right { (R.rect_of (R.fixed rule.old) item.now).x1 ≤ℤ (R.rect_of (R.fixed rule.old) rightmost.now).x1 }
    requires looks { R.looks_of rule.old < 2 ^ 64 - 1 }
    ensures cut { result ≡ cut_at (R.rect_of (R.fixed rule.old) rightmost.now).x1 (R.rect_of (R.fixed rule.old) item.now) }
    ensures looks { R.looks_of rule.new ≡ R.looks_of rule.old + 1 }
    ensures tests { R.tests_of rule.new ≡ R.tests_of rule.old }
    ensures same { R.fixed rule.new ≡ R.fixed rule.old }
{
    let (gap, _) = rule.gaps(item, rightmost);
    let left = rule.left(item);
    let right = (rule.left(rightmost) - gap).max(left + 1);
    Rect::new(left, rule.bottom(item), right, rule.top(item)).unwrap()
}
