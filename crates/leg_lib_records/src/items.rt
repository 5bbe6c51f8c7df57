//! The list in a field of a record.

ghost use Rattle.std.specs.Prelude.{◌≡◌, ◌++◌, ◌∷◌, [], take, OnOk, OnErr};
ghost use Rattle.std.specs.Cmp.Lexicographic.{pointwise, lists_per};

use std::alloc::{AllocError, Allocator};
use std::marker::Model;

/// Elements in their order. Contracts see it as the list of them.
#[derive(Drop)]
pub struct Items<T, A: Allocator> {
    items: Vec<T, A>,
}

impl<T, A: Allocator> Model for Items<T, A> {
    ghost use Rattle.std.specs.Prelude.{List};

    ghost Value = { List T };

    ghost view = { λ l. l.items.items };
}

impl<T, A: Allocator> Items<T, A> {
    /// The list of these elements. Room that they don't need is given back.
    pub fn from_vec(mut items: Vec<T, A>) -> Items<T, A>
        ensures { result ≡ items.items }
    {
        items.shrink_to_fit();
        Items { items }
    }

    /// The elements.
    pub fn as_slice(&self) -> &[T]
        ensures { result.now ≡ self.now }
    {
        self.items.as_slice()
    }

    /// Adds an element after the others. If an allocation fails, nothing changes.
    pub fn push(&mut self, item: T) -> Result<(), AllocError>
    where
        T: Drop,
        A: Clone,
        ensures pushed { OnOk result (self.new ≡ self.old ++ item ∷ []) }
        ensures unchanged { OnErr result (self.new ≡ self.old) }
    {
        self.items.reserve(1)?;
        self.items.push(item).unwrap();
        Ok(())
    }

    /// Adds elements after the others. If an allocation fails, nothing changes, and those elements are dropped.
    pub fn append(&mut self, mut more: Vec<T, A>) -> Result<(), AllocError>
    where
        T: Drop,
        ensures appended { OnOk result (self.new ≡ self.old ++ more.items) }
        ensures unchanged { OnErr result (self.new ≡ self.old) }
    {
        self.items.append(&mut more)
    }

    /// Keeps the first `len` elements, or all where there are fewer.
    pub fn truncate(&mut self, len: usize)
    where
        T: Drop,
        ensures { self.new ≡ take len self.old }
    {
        self.items.truncate(len);
    }
}

impl<T: PartialEq, A: Allocator> PartialEq for Items<T, A> {
    ghost eq = { λ x y. pointwise T.eq x y };

    ghost laws = { lists_per T.laws };

    fn eq(&self, other: &Self) -> bool {
        self.as_slice() == other.as_slice()
    }
}
