//! Pieces that share single points.

ghost use Rattle.std.specs.Prelude.{◌≡◌, None, IfOk};
ghost use Rattle.leg_geom.specs.Plane.{SharePoint, ShareTwoPoints};
ghost use Rattle.leg_wire.specs.declared.corner.Beside.{Beside};
ghost use Rattle.leg_wire.specs.Steps.SharedPoints.{first_seen, pieces_beside, spot_of, IsOnlyShared, IsPointSeen};

use crate::piece_shape::PieceShape;
use std::alloc::{AllocError, Allocator};
use std::collections::HashMap;
use std::hash::{BuildHasherDefault, FoldHasher};
use std::marker::Model;

/// Two pieces of a net, the lower one first, and a layer.
#[derive(Clone, Copy, PartialEq, Eq, Hash)]
struct Beside {
    low: u32,
    high: u32,
    layer: usize,
}

/// For two pieces of a net and a layer, the first single point that rectangles of theirs were seen to share there.
/// Contracts see it as the list of these, in no order.
#[derive(Drop)]
pub(crate) struct Corners<A: Allocator> {
    first: HashMap<Beside, (i64, i64), BuildHasherDefault<FoldHasher>, A>,
}

impl<A: Allocator> Model for Corners<A> {
    ghost use Rattle.std.specs.Prelude.{ℤ, List};
    ghost use Rattle.leg_wire.specs.declared.corner.Beside.{Beside};

    ghost Value = { List (Beside × (ℤ × ℤ)) };

    ghost view = { λ s. s.first.entries };
}

impl<A: Allocator + Copy> Corners<A> {
    /// No point was seen yet.
    pub(crate) fn new(alloc: A) -> Corners<A>
        ensures { (pieces : Beside) → first_seen result pieces ≡ None }
    {
        Corners {
            first: HashMap::with_hasher(alloc, BuildHasherDefault::new()),
        }
    }

    /// Whether another point was seen before than the single one that these rectangles share. If none was, it is kept.
    pub(crate) fn has_other(&mut self, a: &PieceShape, b: &PieceShape) -> Result<bool, AllocError>
        requires meet { SharePoint a.now.rect b.now.rect }
        requires single { ShareTwoPoints a.now.rect b.now.rect → ⊥ }
        ensures { IfOk result (λ other. IsPointSeen self.old self.new a.now b.now other) }
    {
        let pieces = pieces_of(a, b);
        let corner = corner_of(a, b);
        if let Some(first) = self.first.get(&pieces) {
            return Ok(*first != corner);
        }
        self.first.insert(pieces, corner)?;
        Ok(false)
    }
}

/// The pieces that the rectangles are of, and their layer.
fn pieces_of(a: &PieceShape, b: &PieceShape) -> Beside
    ensures { result ≡ pieces_beside a.now b.now }
{
    Beside {
        low: a.piece.min(b.piece),
        high: a.piece.max(b.piece),
        layer: a.layer,
    }
}

/// The lower left corner of what two rectangles share, which is the only point of it if it is a single one.
fn corner_of(a: &PieceShape, b: &PieceShape) -> (i64, i64)
    requires meet { SharePoint a.now.rect b.now.rect }
    requires single { ShareTwoPoints a.now.rect b.now.rect → ⊥ }
    ensures { IsOnlyShared a.now.rect b.now.rect (spot_of result) }
{
    (a.rect.x1().max(b.rect.x1()), a.rect.y1().max(b.rect.y1()))
}
