//! A short list of shapes, the first of which lies in the record that has the list.

ghost use Rattle.std.specs.Prelude.{◌≡◌, ◌++◌, ◌∷◌, [], MatchBool, OnOk, OnErr, IfOk};
ghost use Rattle.std.specs.Cmp.Lexicographic.{pointwise, lists_per};

use crate::records::Shape;
use smallvec::SmallVec;
use std::alloc::{AllocError, Allocator};
use std::marker::Model;
use std::mem;

/// Every allocator: a list with room for a shape, and a value of the allocator in it, takes fewer than 2^63 bytes, as each type
/// that a compiler takes does.
pub trait ShapeListFits: Allocator {
    ghost use Rattle.std.specs.Mem.{FitsInMemory};
    ghost use Rattle.leg_lib_records.specs.contracts.records.Shape as shape;
    ghost use Rattle.smallvec.specs.contracts.small_vec.SmallVec as small_vec;
    ghost use denote.Param.{number};

    ghost fits: { Type 0 };

    /// Whether the type of the list fits in memory, which it always does. A compiler knows it.
    fn is_in_memory() -> bool
        ensures { MatchBool result fits (Unit {0}) };

    ghost list_fits: { fits → FitsInMemory (small_vec.the_row shape.the_row (number 1) Self.row Self.Allocator) };
}

impl<A: Allocator> ShapeListFits for A {
    ghost use Rattle.std.specs.Mem.{FitsInMemory};
    ghost use Rattle.leg_lib_records.specs.contracts.records.Shape as shape;
    ghost use Rattle.smallvec.specs.contracts.small_vec.SmallVec as small_vec;
    ghost use denote.Param.{number};

    ghost fits = { FitsInMemory (small_vec.the_row shape.the_row (number 1) A.row A.Allocator) };

    fn is_in_memory() -> bool {
        let list: Option<SmallVec<Shape, 1, A>> = None;
        mem::size_of_val(&list) <= isize::MAX as usize
    }

    ghost list_fits = { λ it. it };
}

/// Shapes in their order, of which the first takes no allocation. Contracts see it as the list of them.
#[derive(Drop)]
pub struct ShapeList<A: Allocator + ShapeListFits> {
    items: SmallVec<Shape, 1, A>,
}

impl<A: Allocator + ShapeListFits> Model for ShapeList<A> {
    ghost use Rattle.std.specs.Prelude.{List};
    ghost use Rattle.leg_lib_records.specs.declared.records.Shape.{Shape};

    ghost Value = { List Shape };

    ghost view = { λ l. l.items.items };

    ghost invariant = { λ l. A.fits };
}

impl<A: Allocator> ShapeList<A> {
    /// The shapes.
    pub fn as_slice(&self) -> &[Shape]
        ensures { result.now ≡ self.now }
    {
        self.items.as_slice()
    }
}

impl<A: Allocator + Copy> ShapeList<A> {
    /// No shapes, with room for `count` of them. An error says that an allocation failed.
    pub fn with_capacity(alloc: A, count: usize) -> Result<Self, AllocError>
        ensures { IfOk result (λ l. l ≡ []) }
    {
        if A::is_in_memory() {
            return Ok(ShapeList {
                items: SmallVec::with_capacity(alloc, count)?,
            });
        }
        Err(AllocError)
    }

    /// Adds a shape after the others. If an allocation fails, nothing changes.
    pub fn push(&mut self, shape: Shape) -> Result<(), AllocError>
        ensures pushed { OnOk result (self.new ≡ self.old ++ shape ∷ []) }
        ensures unchanged { OnErr result (self.new ≡ self.old) }
    {
        self.items.reserve(1)?;
        self.items.push_reserved(shape);
        Ok(())
    }
}

impl<A: Allocator> PartialEq for ShapeList<A> {
    ghost use Rattle.leg_lib_records.specs.declared.records.Shape.{Shape};
    ghost use Rattle.leg_lib_records.specs.contracts.records.ShapePartialEq.TheImpl.Laws.{laws-law};

    ghost eq = { λ x y. pointwise ⟦<Shape as PartialEq>⟧.eq x y };

    ghost laws = { lists_per laws-law };

    fn eq(&self, other: &Self) -> bool {
        self.as_slice() == other.as_slice()
    }
}
