//! Kinds of metal: where many shapes are equal, one of each kind stands for them.

ghost use Rattle.std.specs.Prelude.{◌≡◌, ◌<◌, ◌≤◌, ◌^◌, ◌++◌, ◌↔◌, List, All, IsTrue, length, IfOk, OnOk};
ghost use Rattle.std.proofs.Common.{refl};
ghost use Rattle.leg_wire.specs.Steps.Kinds.{AreAlike, AreSameMetal, IsOfKind, AreKinds};

use crate::piece_shape::PieceShape;
use leg_flat::Shape;
use leg_geom::Rect;
use std::alloc::{AllocError, Allocator};

/// Metal that can be of one kind with other metal.
pub(crate) trait Metal: Copy {
    ghost Alike: { Self → Self → Type 0 };

    /// Whether both are of one kind.
    fn is_like(&self, other: &Self) -> bool
        ensures { IsTrue result ↔ Alike self.now other.now };

    /// A number that is the same for all metal of a kind, and mostly another one for that of another kind.
    fn digest(&self) -> u64;

    // Metal is of one kind with itself.
    ghost itself: { (a : Self) → Alike a a };
}

/// Shapes are of one kind where they differ in their pieces at most.
impl Metal for Shape {
    ghost Alike = { λ a b. AreAlike a b };

    fn is_like(&self, other: &Shape) -> bool {
        self.layer == other.layer
            && self.rect.is(&other.rect)
            && self.owner == other.owner
            && are_same_components(self.component, other.component)
    }

    fn digest(&self) -> u64 {
        digest_of(self.layer, &self.rect)
    }

    ghost itself = { λ a. record { layer = refl; rect = refl; owner = refl; component = refl } };
}

/// Whether both are one component, or none.
fn are_same_components(a: Option<u32>, b: Option<u32>) -> bool
    ensures { IsTrue result ↔ a ≡ b }
{
    a == b
}

/// Metal of a net's pieces is of one kind where it differs in its pieces at most.
impl Metal for PieceShape {
    ghost Alike = { λ a b. AreSameMetal a b };

    fn is_like(&self, other: &PieceShape) -> bool {
        self.layer == other.layer && self.rect.is(&other.rect)
    }

    fn digest(&self) -> u64 {
        digest_of(self.layer, &self.rect)
    }

    ghost itself = { λ a. record { layer = refl; rect = refl } };
}

/// A number made of the sides of a rectangle and its layer.
fn digest_of(layer: usize, rect: &Rect) -> u64 {
    let left = mixed(layer as u64, rect.x1().unsigned_abs());
    let bottom = mixed(left, rect.y1().unsigned_abs());
    let right = mixed(bottom, rect.x2().unsigned_abs());
    mixed(right, rect.y2().unsigned_abs())
}

/// A number made of two (Fibonacci hashing).
fn mixed(digest: u64, number: u64) -> u64 {
    let product = (digest ^ number).wrapping_mul(0x9E37_79B9_7F4A_7C15);
    product ^ (product >> 29)
}

/// One of this many places, by a digest.
fn place_of(digest: u64, places: usize) -> usize
    requires { 0 < places }
    ensures { result < places }
{
    (digest % places as u64) as usize
}

/// One in so many shapes is looked at to see whether many are equal: the look costs little beside a search.
const ONE_IN: usize = 17;

/// Whether many shapes are of one kind: of those that are looked at, more pairs are than there are of them. It may miss some, but
/// few.
pub(crate) fn are_many_alike<M: Metal, A: Allocator>(
    alloc: A,
    metal: &[M],
) -> Result<bool, AllocError>
    requires { length metal.now < 2 ^ 32 }
{
    let looks = metal.len() / ONE_IN;
    let mut latest = Vec::from_elem(alloc, (0u32, 0u32), looks)?;
    let mut pairs = 0u64;
    for look in 0..looks {
        let earlier = count_earlier(metal, &mut latest, ONE_IN * look);
        pairs = pairs.saturating_add(u64::from(earlier));
    }
    Ok(pairs > looks as u64)
}

/// How many shapes before this one were counted to be of its kind. Each place has the latest shape whose digest led there,
/// and how many of its kind were counted before it.
fn count_earlier<M: Metal>(metal: &[M], latest: &mut [(u32, u32)], number: usize) -> u32
    requires there { number < length metal.now }
    requires few { length metal.now < 2 ^ 32 }
    requires places { 0 < length latest.old }
    ensures { length latest.new ≡ length latest.old }
{
    let one = &metal[number];
    let place = place_of(one.digest(), latest.len());
    let (other, before) = latest[place];
    let earlier = match metal.get(other as usize) {
        Some(other) if other.is_like(one) => before.saturating_add(1),
        _ => 0,
    };
    latest[place] = (number as u32, earlier);
    earlier
}

/// One of each kind of the metal, and for each shape the number of its kind. Where the digests of two kinds lead to one
/// place, a kind may be there more than once.
pub(crate) fn kinds_of<M: Metal, A: Allocator + Copy>(
    alloc: A,
    metal: &[M],
) -> Result<(Vec<M, A>, Vec<u32, A>), AllocError>
    requires { length metal.now < 2 ^ 32 }
    ensures { IfOk result (λ both. AreKinds M.Alike metal.now both.0.items both.1.items) }
{
    let mut kinds = Vec::new(alloc);
    let mut numbers = Vec::with_capacity(alloc, metal.len())?;
    let mut latest = Vec::from_elem(alloc, 0u32, metal.len())?;
    for one in metal {
        let place = place_of(one.digest(), latest.len());
        let number = number_of_kind(&mut kinds, latest[place], one)?;
        latest[place] = number;
        numbers.push(number)?;
    }
    Ok((kinds, numbers))
}

/// The number of the metal's kind, which is tried first, or that of a new one.
fn number_of_kind<M: Metal, A: Allocator>(
    kinds: &mut Vec<M, A>,
    tried: u32,
    one: &M,
) -> Result<u32, AllocError>
    requires { length kinds.old.items < 2 ^ 32 }
    ensures more { OnOk result ((more : List M) × (kinds.new.items ≡ kinds.old.items ++ more) × (length more ≤ 1) × All (λ kind. kind ≡ one.now) more) }
    ensures kind { IfOk result (λ number. IsOfKind M.Alike kinds.new.items number one.now) }
{
    match kinds.get(tried as usize) {
        Some(kind) if one.is_like(kind) => Ok(tried),
        _ => {
            let number = kinds.len() as u32;
            kinds.push(*one)?;
            Ok(number)
        }
    }
}
