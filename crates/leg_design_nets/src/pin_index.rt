//! An index of the pins of macros by their names, and of components by their macros.

ghost use Rattle.std.specs.Prelude.{◌≡◌, ℕ, List, true, map, is_some, length, IfOk, OnOk};
ghost use Rattle.leg_lex.specs.NameLookup.{place_of};
ghost use Rattle.leg_design_nets.specs.Steps.Pins.{is_in, numbers_under, place_in_table, place_in_tables, used_names, AreListed, ArePinPlaces, AreUnder};

use crate::by_name::{ByName, add_number};
use leg_design_records::Component;
use leg_lib_records::{Items, Master, MasterPin};
use std::alloc::{AllocError, Allocator};
use std::collections::HashMap;
use std::hash::{BuildHasherDefault, FoldHasher};

/// Where each name comes first among the pins of a macro.
pub(crate) type PinPlaces<'a, A> = HashMap<&'a [u8], usize, BuildHasherDefault<FoldHasher>, A>;

/// Empty lists, `count` of them.
fn empty_lists<A: Allocator + Copy>(
    alloc: A,
    count: usize,
) -> Result<Vec<Items<usize, A>, A>, AllocError>
    ensures { IfOk result (λ lists. length lists.items ≡ count) }
{
    let mut lists = Vec::with_capacity(alloc, count)?;
    for _ in 0..count {
        lists.push(Items::from_vec(Vec::new(alloc)))?;
    }
    Ok(lists)
}

/// The numbers of the components of each of `masters` macros.
pub(crate) fn components_of_each<A: Allocator + Copy>(
    alloc: A,
    masters: usize,
    components: &[Component<'_>],
) -> Result<Vec<Items<usize, A>, A>, AllocError>
    ensures long { IfOk result (λ lists. length lists.items ≡ masters) }
    ensures listed { IfOk result (λ lists. AreListed components.now lists.items) }
{
    let mut lists = empty_lists(alloc, masters)?;
    for (c, component) in components.iter().enumerate() {
        if component.master < lists.len() {
            add_number(&mut lists, component.master, c)?;
        }
    }
    Ok(lists)
}

/// Where each name comes first among these pins.
fn pin_places<'a, A: Allocator + Copy>(
    alloc: A,
    pins: &[MasterPin<'a, A>],
) -> Result<PinPlaces<'a, A>, AllocError>
    ensures { IfOk result (λ places. (name : List ℕ) → place_in_table places name ≡ place_of name (map (λ p. p.name) pins.now)) }
{
    let mut places = HashMap::with_hasher(alloc, BuildHasherDefault::new());
    for (k, pin) in pins.iter().enumerate() {
        let name = pin.name.bytes();
        if !places.contains_key(name) {
            places.insert(name, k)?;
        }
    }
    Ok(places)
}

/// The pins of a macro that has these components; of one that has none they aren't asked for.
fn used_pins<'m, 'a, A: Allocator>(
    master: &'m Master<'a, A>,
    components: &[usize],
) -> &'m [MasterPin<'a, A>]
    ensures { map (λ p. p.name) result.now ≡ used_names master.now components.now }
{
    if components.is_empty() {
        &[]
    } else {
        master.pins.as_slice()
    }
}

/// Where each name is among the pins of each macro that has components, which `components` lists.
pub(crate) fn places_of_each<'a, A: Allocator + Copy>(
    alloc: A,
    masters: &[Master<'a, A>],
    components: &[Items<usize, A>],
) -> Result<Vec<PinPlaces<'a, A>, A>, AllocError>
    requires { length components.now ≡ length masters.now }
    ensures { IfOk result (λ tables. ArePinPlaces masters.now components.now (place_in_tables tables.items)) }
{
    let mut tables = Vec::with_capacity(alloc, masters.len())?;
    for (m, master) in masters.iter().enumerate() {
        let pins = used_pins(master, components[m].as_slice());
        tables.push(pin_places(alloc, pins)?)?;
    }
    Ok(tables)
}

/// A macro of this number has these pins.
fn add_master<'a, A: Allocator + Copy>(
    alloc: A,
    number: usize,
    pins: &[MasterPin<'a, A>],
    table: &mut ByName<'a, A>,
) -> Result<(), AllocError>
    ensures added { OnOk result ((name : List ℕ) → is_some (place_of name (map (λ p. p.name) pins.now)) ≡ true
        → is_in number (numbers_under table.new name) ≡ true) }
    ensures kept { OnOk result ((name : List ℕ) (m : ℕ) → is_in m (numbers_under table.old name) ≡ true → is_in m (numbers_under table.new name) ≡ true) }
{
    for pin in pins {
        table.add(alloc, pin.name.bytes(), number)?;
    }
    Ok(())
}

/// The numbers of the macros that have components and a pin of a name, under each name; `components` lists the
/// components of each macro.
pub(crate) fn masters_by_pin<'a, A: Allocator + Copy>(
    alloc: A,
    masters: &[Master<'a, A>],
    components: &[Items<usize, A>],
) -> Result<ByName<'a, A>, AllocError>
    requires { length components.now ≡ length masters.now }
    ensures { IfOk result (λ table. AreUnder masters.now components.now (numbers_under table)) }
{
    let mut table = ByName::new(alloc);
    for (m, master) in masters.iter().enumerate() {
        let pins = used_pins(master, components[m].as_slice());
        add_master(alloc, m, pins, &mut table)?;
    }
    Ok(table)
}
