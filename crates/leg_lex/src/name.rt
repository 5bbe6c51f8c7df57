//! Names, and a list of names in which a name is found by its bytes.

ghost use Rattle.std.specs.Prelude.{◌≡◌, ◌∷◌, ◌++◌, [], length, None, IfOk, OnOk, OnErr};
ghost use Rattle.std.specs.Str.{bytes_eq};
ghost use Rattle.std.specs.Cmp.{partial_equiv_from_equiv};
ghost use Rattle.std.specs.Cmp.Lexicographic.{nat_list_eq_equiv};
ghost use Rattle.leg_lex.specs.NameLookup.{place_of};

use std::alloc::{AllocError, Allocator};
use std::collections::HashMap;
use std::hash::{BuildHasherDefault, FoldHasher};
use std::marker::Model;

/// A name of a text. Contracts see it as its bytes.
#[derive(Debug, Drop)]
pub struct Name<'a> {
    bytes: &'a [u8],
}

impl<'a> Model for Name<'a> {
    ghost use Rattle.std.specs.Prelude.{List, ℕ};

    ghost Value = { List ℕ };

    ghost view = { λ n. n.bytes.now };
}

impl<'a> Name<'a> {
    /// The name of these bytes.
    pub fn new(bytes: &'a [u8]) -> Name<'a>
        ensures { result ≡ bytes.now }
    {
        Name { bytes }
    }

    /// The bytes of the name.
    pub fn bytes(&self) -> &'a [u8]
        ensures { result.now ≡ self.now }
    {
        self.bytes
    }
}

impl PartialEq for Name<'_> {
    ghost eq = { λ x y. bytes_eq x y };

    ghost laws = { partial_equiv_from_equiv nat_list_eq_equiv };

    fn eq(&self, other: &Self) -> bool {
        self.bytes == other.bytes
    }
}

/// Names in their order, no two the same, and the place of each. Contracts see it as the list of the
/// names.
#[derive(Drop)]
pub struct Names<'a, A: Allocator> {
    names: Vec<Name<'a>, A>,
    index: HashMap<&'a [u8], usize, BuildHasherDefault<FoldHasher>, A>,
}

impl<'a, A: Allocator> Model for Names<'a, A> {
    ghost use Rattle.std.specs.Prelude.{◌≡◌, List, ℕ};
    ghost use Rattle.std.specs.Str.{bytes_eq};
    ghost use Rattle.std.specs.HashMap.{get_by};
    ghost use Rattle.leg_lex.specs.NameLookup.{place_of, AreApart};

    ghost Value = { List (List ℕ) };

    ghost view = { λ s. s.names.items };

    ghost invariant = { λ s. ((name : List ℕ) → get_by (λ key. bytes_eq name key.now) s.index ≡ place_of name s.names.items)
        × AreApart s.names.items };
}

impl<'a, A: Allocator + Copy> Names<'a, A> {
    /// No names.
    pub fn new(alloc: A) -> Names<'a, A>
        ensures { result ≡ [] }
    {
        Names {
            names: Vec::new(alloc),
            index: HashMap::with_hasher(alloc, BuildHasherDefault::new()),
        }
    }

    /// How many names there are.
    pub fn len(&self) -> usize
        ensures { result ≡ length self.now }
    {
        self.names.len()
    }

    /// The place of the name, from 0, if it is there.
    pub fn place_of(&self, name: &[u8]) -> Option<usize>
        ensures { result ≡ place_of name.now self.now }
    {
        self.index.get(name).copied()
    }

    /// Adds a name that isn't there yet after the others. If an allocation fails, nothing changes.
    pub fn push(&mut self, name: &'a [u8]) -> Result<(), AllocError>
        requires { place_of name.now self.old ≡ None }
        ensures pushed { OnOk result (self.new ≡ self.old ++ name.now ∷ []) }
        ensures unchanged { OnErr result (self.new ≡ self.old) }
    {
        self.names.reserve(1)?;
        self.index.insert(name, self.names.len())?;
        self.names.push(Name::new(name)).unwrap();
        Ok(())
    }

    /// The same names, with an index of their own.
    #[tactic(auto, using(crate::proofs::NameLookup::not_yet_there))]
    pub fn again(&self, alloc: A) -> Result<Names<'a, A>, AllocError>
        ensures { IfOk result (λ names. names ≡ self.now) }
    {
        let mut names = Names::new(alloc);
        for name in &self.names {
            names.push(name.bytes())?;
        }
        Ok(names)
    }
}
