//! Pieces whose metal is all that of another one.

ghost use Rattle.std.specs.Prelude.{◌≡◌, ◌<◌, ◌++◌, length, IsTrue, All, Contains, IfOk, OnOk};
ghost use Rattle.leg_wire.specs.Steps.Kinds.{AreSameMetal, AreKinds};
ghost use Rattle.leg_wire.specs.Steps.JoinSteps.{AreStaying, IsStayingMetal, HasOneMore};

use crate::piece_shape::PieceShape;
use std::alloc::{AllocError, Allocator};

/// For each of this many pieces that of the shape which stands for the kind of its last shape.
pub(crate) fn latest_stand_ins<A: Allocator>(
    alloc: A,
    count: u32,
    metal: &[PieceShape],
    kinds: &[PieceShape],
    numbers: &[u32],
) -> Result<Vec<u32, A>, AllocError>
    requires places { All (λ shape. shape.piece < count) metal.now }
    requires count { length numbers.now ≡ length metal.now }
    requires within { All (λ number. number < length kinds.now) numbers.now }
    ensures { IfOk result (λ stand_ins. length stand_ins.items ≡ count) }
{
    let mut stand_ins = Vec::from_elem(alloc, 0u32, count as usize)?;
    for k in 0..metal.len() {
        stand_ins[metal[k].piece as usize] = kinds[numbers[k] as usize].piece;
    }
    Ok(stand_ins)
}

/// For each piece whether it has metal for which its stand-in's doesn't stand.
pub(crate) fn which_stay<A: Allocator>(
    alloc: A,
    metal: &[PieceShape],
    kinds: &[PieceShape],
    numbers: &[u32],
    stand_ins: &[u32],
) -> Result<Vec<bool, A>, AllocError>
    requires places { All (λ shape. shape.piece < length stand_ins.now) metal.now }
    requires count { length numbers.now ≡ length metal.now }
    requires within { All (λ number. number < length kinds.now) numbers.now }
    ensures count { IfOk result (λ staying. length staying.items ≡ length stand_ins.now) }
    ensures staying { IfOk result (λ staying. AreStaying metal.now kinds.now numbers.now stand_ins.now (length metal.now) staying.items) }
{
    let mut staying = Vec::from_elem(alloc, false, stand_ins.len())?;
    for k in 0..metal.len() {
        let one = &metal[k];
        let kind = &kinds[numbers[k] as usize];
        let piece = one.piece as usize;
        if kind.piece != stand_ins[piece] || !one.rect.touches(&kind.rect) {
            staying[piece] = true;
        }
    }
    Ok(staying)
}

/// One shape of each kind, and the metal of the pieces that stay. Of equal shapes of a piece that come one after another, one is
/// enough, and none beside an equal one of that piece that stands for their kind.
pub(crate) fn staying_metal<A: Allocator + Copy>(
    alloc: A,
    metal: &[PieceShape],
    kinds: &[PieceShape],
    numbers: &[u32],
    staying: &[bool],
) -> Result<Vec<PieceShape, A>, AllocError>
    requires places { All (λ shape. shape.piece < length staying.now) metal.now }
    requires kinds { AreKinds AreSameMetal metal.now kinds.now numbers.now }
    ensures { IfOk result (λ rest. IsStayingMetal metal.now kinds.now staying.now (length metal.now) rest.items) }
{
    let mut latest = Vec::new(alloc);
    push_all(kinds, &mut latest)?;
    let mut rest = Vec::new(alloc);
    push_all(kinds, &mut rest)?;
    for k in 0..metal.len() {
        let one = &metal[k];
        let stays = staying[one.piece as usize];
        add_once(one, stays, &mut latest[numbers[k] as usize], &mut rest)?;
    }
    Ok(rest)
}

/// Adds the shape, if it stays, unless the latest one of its kind that was added is of its piece too.
fn add_once<A: Allocator>(
    one: &PieceShape,
    stays: bool,
    latest: &mut PieceShape,
    rest: &mut Vec<PieceShape, A>,
) -> Result<(), AllocError>
    requires alike { AreSameMetal one.now latest.old }
    requires there { Contains rest.old.items latest.old }
    ensures alike { AreSameMetal one.now latest.new }
    ensures there { OnOk result (Contains rest.new.items latest.new) }
    ensures more { OnOk result (HasOneMore rest.old.items one.now rest.new.items) }
    ensures stays { OnOk result (IsTrue stays → Contains rest.new.items one.now) }
    ensures once { latest.old.piece ≡ one.now.piece → OnOk result (rest.new.items ≡ rest.old.items) }
{
    if !stays || latest.piece == one.piece {
        return Ok(());
    }
    rest.push(*one)?;
    *latest = *one;
    Ok(())
}

/// Adds all of this metal.
fn push_all<A: Allocator>(
    metal: &[PieceShape],
    rest: &mut Vec<PieceShape, A>,
) -> Result<(), AllocError>
    ensures { OnOk result (rest.new.items ≡ rest.old.items ++ metal.now) }
{
    rest.extend_from_slice(metal)
}
