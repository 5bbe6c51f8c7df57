//! Numbers under names.

ghost use Rattle.std.specs.Prelude.{◌≡◌, ◌++◌, ◌∷◌, [], ◌<◌, ℕ, List, true, get_or, slice_set, length, IfOk, OnOk, OnErr};
ghost use Rattle.std.specs.List.{flat_map};
ghost use Rattle.leg_design_nets.specs.Steps.Pins.{is_in, numbers_under};

use leg_lex::Names;
use leg_lib_records::Items;
use std::alloc::{AllocError, Allocator};
use std::marker::Model;

/// Adds a number to the list in this place. If an allocation fails, nothing changes.
pub(crate) fn add_number<A: Allocator + Copy>(
    lists: &mut [Items<usize, A>],
    place: usize,
    number: usize,
) -> Result<(), AllocError>
    requires { place < length lists.old }
    ensures added { OnOk result (lists.new ≡ slice_set lists.old place (get_or lists.old place [] ++ number ∷ [])) }
    ensures unchanged { OnErr result (lists.new ≡ lists.old) }
{
    let list = &mut lists[place];
    list.push(number)
}

/// The numbers of the lists in these places, one list after the other.
pub(crate) fn joined<A: Allocator + Copy>(
    alloc: A,
    lists: &[Items<usize, A>],
    places: &[usize],
) -> Result<Vec<usize, A>, AllocError>
    ensures { IfOk result (λ numbers. numbers.items ≡ flat_map (λ place. get_or lists.now place []) places.now) }
{
    let mut numbers = Vec::new(alloc);
    for place in places {
        if let Some(list) = lists.get(*place) {
            numbers.extend_from_slice(list.as_slice())?;
        }
    }
    Ok(numbers)
}

/// Names, each with numbers.
#[derive(Drop)]
pub(crate) struct ByName<'a, A: Allocator + Copy> {
    names: Names<'a, A>,
    lists: Vec<Items<usize, A>, A>,
}

impl<'a, A: Allocator + Copy> Model for ByName<'a, A> {
    ghost use Rattle.std.specs.Prelude.{◌≡◌, length};
    ghost use Rattle.leg_design_nets.specs.Steps.Pins.{NamedNumbers};

    ghost Value = { NamedNumbers };

    ghost view = { λ t. record { names = t.names; lists = t.lists.items } };

    ghost invariant = { λ t. length t.lists.items ≡ length t.names };
}

impl<'a, A: Allocator + Copy> ByName<'a, A> {
    /// No names.
    pub(crate) fn new(alloc: A) -> ByName<'a, A>
        ensures { result ≡ record { names = []; lists = [] } }
    {
        ByName {
            names: Names::new(alloc),
            lists: Vec::new(alloc),
        }
    }

    /// The numbers under a name.
    pub(crate) fn numbers_under(&self, name: &[u8]) -> &[usize]
        ensures { result.now ≡ numbers_under self.now name.now }
    {
        match self.names.place_of(name) {
            Some(place) => self.lists[place].as_slice(),
            None => &[],
        }
    }

    /// Adds a number under a name.
    pub(crate) fn add(&mut self, alloc: A, name: &'a [u8], number: usize) -> Result<(), AllocError>
        ensures added { OnOk result (is_in number (numbers_under self.new name.now) ≡ true) }
        ensures kept { OnOk result ((other : List ℕ) (n : ℕ) → is_in n (numbers_under self.old other) ≡ true → is_in n (numbers_under self.new other) ≡ true) }
    {
        if let Some(place) = self.names.place_of(name) {
            add_number(&mut self.lists, place, number)?;
            return Ok(());
        }
        self.lists.reserve(1)?;
        let mut list = Items::from_vec(Vec::new(alloc));
        list.push(number)?;
        self.names.push(name)?;
        self.lists.push(list).unwrap();
        Ok(())
    }
}
