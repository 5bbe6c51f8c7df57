//! Lists of things that have names.

ghost use Rattle.std.specs.Prelude.{◌≡◌, ◌<◌, ◌≤◌, ◌+◌, ◌∷◌, ◌++◌, ℕ, List, map, [], length, None, IfOk, IfSome, OnOk, OnErr};
ghost use Rattle.leg_lex.specs.NameLookup.{place_of};

use crate::name::Names;
use std::alloc::{AllocError, Allocator};
use std::marker::Model;

/// What has a name by which it is found in a list. The trait has a meaning alone: `name_of` is the name, and `fits`
/// states how many there may be in a list.
pub trait Named {
    ghost name_of: { Self → List ℕ };

    ghost fits: { ℕ → Type 0 };

    // A list may be empty.
    ghost none_fits: { fits 0 };

    // Where some fit, fewer do.
    ghost fewer_fit: { (m n : ℕ) → m ≤ n → fits n → fits m };
}

/// Things in their order, no two of one name, each found by its name, and no more of them than fit. Contracts see it as
/// the list of them.
#[derive(Drop)]
pub struct NamedList<'a, T: Named + Drop, A: Allocator + Copy> {
    items: Vec<T, A>,
    names: Names<'a, A>,
}

impl<'a, T: Named + Drop, A: Allocator + Copy> Model for NamedList<'a, T, A> {
    ghost use Rattle.std.specs.Prelude.{◌≡◌, List, map, length};

    ghost Value = { List T };

    ghost view = { λ l. l.items.items };

    ghost invariant = { λ l. (l.names ≡ map T.name_of l.items.items) × T.fits (length l.items.items) };
}

impl<'a, T: Named + Drop, A: Allocator + Copy> NamedList<'a, T, A> {
    /// An empty list.
    pub fn new(alloc: A) -> NamedList<'a, T, A>
        ensures { result ≡ [] }
    {
        NamedList {
            items: Vec::new(alloc),
            names: Names::new(alloc),
        }
    }

    /// All of them.
    pub fn as_slice(&self) -> &[T]
        ensures is { result.now ≡ self.now }
        ensures few { T.fits (length self.now) }
    {
        self.items.as_slice()
    }

    /// All of them, as they are kept.
    pub fn as_vec(&self) -> &Vec<T, A>
        ensures { result.now.items ≡ self.now }
    {
        &self.items
    }

    /// How many there are.
    pub fn len(&self) -> usize
        ensures is { result ≡ length self.now }
        ensures few { T.fits result }
    {
        self.items.len()
    }

    /// The number of the one of this name, from 0, if it is there.
    pub fn place_of(&self, name: &[u8]) -> Option<usize>
        ensures is { result ≡ place_of name.now (map T.name_of self.now) }
        ensures within { IfSome result (λ number. number < length self.now) }
        ensures few { IfSome result (λ number. T.fits (number + 1)) }
    {
        self.names.place_of(name)
    }

    /// Adds one whose name is new after the others. If an allocation fails, nothing changes.
    pub fn push(&mut self, name: &'a [u8], item: T) -> Result<(), AllocError>
        requires named { name.now ≡ T.name_of item }
        requires new { place_of name.now (map T.name_of self.old) ≡ None }
        requires room { T.fits (length self.old + 1) }
        ensures pushed { OnOk result (self.new ≡ self.old ++ item ∷ []) }
        ensures unchanged { OnErr result (self.new ≡ self.old) }
    {
        self.items.reserve(1)?;
        self.names.push(name)?;
        self.items.push(item).unwrap();
        Ok(())
    }

    /// Other things of the same names, in the same order.
    pub fn with_items<U: Named + Drop>(
        &self,
        alloc: A,
        items: Vec<U, A>,
    ) -> Result<NamedList<'a, U, A>, AllocError>
        requires named { map U.name_of items.items ≡ map T.name_of self.now }
        requires few { U.fits (length items.items) }
        ensures { IfOk result (λ list. list ≡ items.items) }
    {
        Ok(NamedList {
            items,
            names: self.names.again(alloc)?,
        })
    }

    /// The things without their names.
    pub fn into_vec(self) -> Vec<T, A>
        ensures { result.items ≡ self.entry }
    {
        self.items
    }
}
