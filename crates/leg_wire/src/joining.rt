//! Pieces of a net as sets, which are united while a search finds metal that meets.

ghost use Rattle.std.specs.Prelude.{◌≡◌, ◌<◌, ◌^◌, IsTrue, length, All, Contains, IfOk, OnOk};
ghost use Rattle.leg_wire.specs.Joins.{ArePieceShapes};
ghost use Rattle.leg_wire.specs.Steps.JoinSteps.{HavePlaces, AnswersTouch, AnswersJoin, IsJoinStep, TakesPair, IsTouchStep, AreSomeJoined, AreSetsOf, AreJoinedSets, AreKept, AreTogetherAlike};

use crate::corner::Corners;
use crate::kinds::{are_many_alike, kinds_of};
use crate::meeting::Meeting;
use crate::piece_shape::PieceShape;
use crate::sets::Sets;
use crate::stand_ins::{latest_stand_ins, staying_metal, which_stay};
use leg_flat::Flat;
use leg_sweep::{PairSink, each_pair};
use std::alloc::{AllocError, Allocator};

/// At most this many shapes of a net are looked at one by one, whether they are equal or not.
const FEW: usize = 64;

/// And this many, which no net has.
const MOST: usize = 1 << 31;

/// The metal of a net's pieces, and the sets of these, of which two are united where a pair of that metal makes their pieces
/// touch.
#[derive(Drop)]
struct Joining<'a, A: Allocator> {
    shapes: &'a [PieceShape],
    sets: Sets<A>,
    corners: Corners<A>,
    ghost places: { HavePlaces sets shapes.now },
}

impl<A: Allocator + Copy> PairSink for Joining<'_, A> {
    ghost Takes = { λ before pair after. TakesPair
        (record { shapes = before.shapes.now; sets = before.sets; seen = before.corners })
        pair
        (record { shapes = after.shapes.now; sets = after.sets; seen = after.corners }) };

    ghost room_of = { λ s. length s.shapes.now };

    fn take(&mut self, pair: (u32, u32)) -> Result<(), AllocError> {
        let shapes = self.shapes;
        let (a, b) = (&shapes[pair.0 as usize], &shapes[pair.1 as usize]);
        join(&mut self.sets, &mut self.corners, a, b)
    }
}

/// Makes one set of the pieces of two rectangles, where these make them touch.
fn join<A: Allocator + Copy>(
    sets: &mut Sets<A>,
    corners: &mut Corners<A>,
    a: &PieceShape,
    b: &PieceShape,
) -> Result<(), AllocError>
    requires a { a.now.piece < length sets.old }
    requires b { b.now.piece < length sets.old }
    ensures step { OnOk result (IsJoinStep a.now b.now sets.old sets.new corners.old corners.new) }
    ensures count { length sets.new ≡ length sets.old }
{
    if are_newly_joined(sets, corners, a, b)? {
        sets.unite(a.piece, b.piece);
    }
    Ok(())
}

/// Whether the rectangles make their pieces touch, and these weren't together. Nothing is asked where they were.
pub(crate) fn are_newly_joined<A: Allocator + Copy>(
    sets: &mut Sets<A>,
    corners: &mut Corners<A>,
    a: &PieceShape,
    b: &PieceShape,
) -> Result<bool, AllocError>
    requires a { a.now.piece < length sets.old }
    requires b { b.now.piece < length sets.old }
    ensures answer { IfOk result (λ join. AnswersJoin a.now b.now sets.old corners.old corners.new join) }
    ensures same { sets.new ≡ sets.old }
{
    if sets.are_together(a.piece, b.piece) {
        return Ok(false);
    }
    do_touch(corners, a, b)
}

/// Whether the rectangles make their pieces touch: they share two points, or a single one in addition to which another
/// one that other rectangles of these pieces share was seen.
fn do_touch<A: Allocator + Copy>(
    corners: &mut Corners<A>,
    a: &PieceShape,
    b: &PieceShape,
) -> Result<bool, AllocError>
    ensures { IfOk result (λ touch. AnswersTouch a.now b.now corners.old corners.new touch) }
{
    if a.rect.touches(&b.rect) {
        return Ok(true);
    }
    if !a.rect.shares_point(&b.rect) {
        return Ok(false);
    }
    corners.has_other(a, b)
}

/// The sets of the pieces of the net, of which this is the metal: together are those that are joined. Where many shapes are
/// equal, the pieces are united by one shape of each kind first, so that the time doesn't grow with the pairs of equal ones:
/// where all pieces come together by these, nothing is left to be found. Else a piece stands for all that have no other metal.
pub(crate) fn joined_sets<A: Allocator + Copy>(
    alloc: A,
    flat: &Flat<A>,
    net: u32,
    metal: &[PieceShape],
) -> Result<Sets<A>, AllocError>
    requires net { net < length flat.now.pieces }
    requires metal { ArePieceShapes flat.now net metal.now }
    requires few { length metal.now < 2 ^ 32 }
    ensures { IfOk result (λ sets. AreJoinedSets flat.now net sets) }
{
    let count = flat.pieces_of_net(net);
    if metal.len() > FEW && metal.len() < MOST && are_many_alike(alloc, metal)? {
        let sets = sets_by_kinds(alloc, count, metal)?;
        if are_all_set(&sets.marks(alloc)?) {
            return Ok(sets);
        }
        return sets_by_stand_ins(alloc, count, metal);
    }
    sets_of_metal(alloc, count, metal)
}

/// Whether each mark is set.
fn are_all_set(marks: &[bool]) -> bool
    ensures { IsTrue result → All (λ mark. IsTrue mark) marks.now }
{
    marks.iter().all(|mark| *mark)
}

/// The sets of this many pieces by this metal: together are those that it joins.
fn sets_of_metal<A: Allocator + Copy>(
    alloc: A,
    count: u32,
    metal: &[PieceShape],
) -> Result<Sets<A>, AllocError>
    requires places { All (λ shape. shape.piece < count) metal.now }
    requires few { length metal.now < 2 ^ 32 }
    ensures { IfOk result (λ sets. AreSetsOf metal.now count sets) }
{
    let mut joining = Joining {
        shapes: metal,
        sets: Sets::new(alloc, count)?,
        corners: Corners::new(alloc),
    };
    each_pair(alloc, metal, &mut Meeting::new(metal), &mut joining)?;
    Ok(joining.sets)
}

/// Sets of this many pieces by one shape of each kind of this metal, and by those of its kind for each shape: what is together is
/// joined, but pieces that are joined by single points may be apart.
fn sets_by_kinds<A: Allocator + Copy>(
    alloc: A,
    count: u32,
    metal: &[PieceShape],
) -> Result<Sets<A>, AllocError>
    requires places { All (λ shape. shape.piece < count) metal.now }
    requires few { length metal.now < 2 ^ 32 }
    ensures { IfOk result (λ sets. AreSomeJoined metal.now count sets) }
{
    let (kinds, numbers) = kinds_of(alloc, metal)?;
    let mut sets = sets_of_metal(alloc, count, &kinds)?;
    unite_alike(&mut sets, metal, &kinds, &numbers);
    Ok(sets)
}

/// The sets of this many pieces by this metal: together are those that it joins. A piece whose metal is all that of another one
/// is left out of the search, and united with that.
fn sets_by_stand_ins<A: Allocator + Copy>(
    alloc: A,
    count: u32,
    metal: &[PieceShape],
) -> Result<Sets<A>, AllocError>
    requires places { All (λ shape. shape.piece < count) metal.now }
    requires few { length metal.now < 2 ^ 31 }
    ensures { IfOk result (λ sets. AreSetsOf metal.now count sets) }
{
    let (kinds, numbers) = kinds_of(alloc, metal)?;
    let stand_ins = latest_stand_ins(alloc, count, metal, &kinds, &numbers)?;
    let staying = which_stay(alloc, metal, &kinds, &numbers, &stand_ins)?;
    let rest = staying_metal(alloc, metal, &kinds, &numbers, &staying)?;
    let mut sets = sets_of_metal(alloc, count, &rest)?;
    unite_alike(&mut sets, metal, &kinds, &numbers);
    Ok(sets)
}

/// Makes one set of the pieces of each shape and of that which stands for its kind, where these touch.
fn unite_alike<A: Allocator>(
    sets: &mut Sets<A>,
    metal: &[PieceShape],
    kinds: &[PieceShape],
    numbers: &[u32],
)
    requires places { All (λ shape. shape.piece < length sets.old) metal.now }
    requires count { length numbers.now ≡ length metal.now }
    requires within { All (λ number. number < length kinds.now) numbers.now }
    requires among { All (Contains metal.now) kinds.now }
    requires joined { AreSomeJoined metal.now (length sets.old) sets.old }
    ensures joined { AreSomeJoined metal.now (length sets.old) sets.new }
    ensures kept { AreKept sets.old sets.new }
    ensures alike { AreTogetherAlike metal.now kinds.now numbers.now (length metal.now) sets.new }
{
    for k in 0..metal.len() {
        unite_touching(sets, &metal[k], &kinds[numbers[k] as usize]);
    }
}

/// Makes one set of the pieces of two rectangles that share two points.
fn unite_touching<A: Allocator>(sets: &mut Sets<A>, one: &PieceShape, other: &PieceShape)
    requires a { one.now.piece < length sets.old }
    requires b { other.now.piece < length sets.old }
    ensures { IsTouchStep one.now other.now sets.old sets.new }
{
    if one.layer == other.layer && one.piece != other.piece && one.rect.touches(&other.rect) {
        sets.unite(one.piece, other.piece);
    }
}
