//! Parts of entries that are equal.

ghost use Rattle.std.specs.Prelude.{◌≡◌, ◌↔◌, IsTrue, option_map};

use leg_geom::{Orient, Place, Rect};
use leg_lex::Name;
use leg_lib_records::{Items, ShapeList};
use std::alloc::Allocator;

/// Whether both are the same word, or there is none.
pub(crate) fn is_same_word(a: Option<&[u8]>, b: Option<&[u8]>) -> bool
    ensures { IsTrue result ↔ (option_map (λ word. word.now) a.entry ≡ option_map (λ word. word.now) b.entry) }
{
    match a {
        Some(a) => match b {
            Some(b) => a == b,
            None => false,
        },
        None => b.is_none(),
    }
}

/// Whether both are the same name, or there is none.
pub(crate) fn is_same_name(a: &Option<Name<'_>>, b: &Option<Name<'_>>) -> bool
    ensures { IsTrue result ↔ (a.now ≡ b.now) }
{
    match a {
        Some(a) => match b {
            Some(b) => a.bytes() == b.bytes(),
            None => false,
        },
        None => b.is_none(),
    }
}

/// Whether both are the same orientation.
pub(crate) fn is_same_orient(a: Orient, b: Orient) -> bool
    ensures { IsTrue result ↔ (a ≡ b) }
{
    a == b
}

/// Whether both are the same place, or there is none.
pub(crate) fn is_same_place(a: &Option<Place>, b: &Option<Place>) -> bool
    ensures { IsTrue result ↔ (a.now ≡ b.now) }
{
    match a {
        Some(a) => match b {
            Some(b) => a.at == b.at && is_same_orient(a.orient, b.orient),
            None => false,
        },
        None => b.is_none(),
    }
}

/// Whether both are the same shapes, in one order.
pub(crate) fn are_same_shapes<A: Allocator>(a: &ShapeList<A>, b: &ShapeList<A>) -> bool
    ensures { IsTrue result ↔ (a.now ≡ b.now) }
{
    *a == *b
}

/// Whether both are the same rectangles, in one order.
pub(crate) fn are_same_rects<A: Allocator>(a: &Items<Rect, A>, b: &Items<Rect, A>) -> bool
    ensures { IsTrue result ↔ (a.now ≡ b.now) }
{
    *a == *b
}
