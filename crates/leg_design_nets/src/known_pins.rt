//! What nets name parts of, with its pins and components found by name.

ghost use Rattle.std.specs.Prelude.{◌≡◌, ◌<◌, ℕ, true, is_some, Contains, IfOk, IfSome};
ghost use Rattle.std.specs.List.Sorted.{IsStrictlyIncreasing};
ghost use Rattle.leg_design_records.specs.declared.limits.TheConstants.{ENTRY_LIMIT};
ghost use Rattle.leg_grammar.specs.Def.Terminal.{pins_of_all};
ghost use Rattle.leg_design_nets.specs.Steps.Pins.{is_in, pin_of_numbered, pins_of_these};

use crate::by_name::{ByName, joined};
use crate::pin_index::{PinPlaces, components_of_each, masters_by_pin, places_of_each};
use leg_design_common::NetScope;
use leg_design_records::Terminal;
use leg_lib_records::Items;
use std::alloc::{AllocError, Allocator};
use std::marker::Model;

/// What is read before nets, with an index that is made once for a section: the components of each macro; of the macros
/// that have components, the place of each pin's name; and for each name the macros that have such a pin. Contracts see
/// what is indexed alone.
#[derive(Drop)]
pub(crate) struct KnownPins<'r, 'k, 'a, A: Allocator + Copy> {
    scope: &'r NetScope<'k, 'a, A>,
    components: Vec<Items<usize, A>, A>,
    places: Vec<PinPlaces<'a, A>, A>,
    masters: ByName<'a, A>,
}

impl<'r, 'k, 'a, A: Allocator + Copy> Model for KnownPins<'r, 'k, 'a, A> {
    ghost use Rattle.leg_grammar.specs.Def.NetScope.{NetScopeModel};
    ghost use Rattle.leg_design_nets.specs.Steps.Pins.{place_in_tables, numbers_under, IsPinIndex};

    ghost Value = { NetScopeModel };

    ghost view = { λ k. k.scope.now };

    ghost invariant = { λ k. IsPinIndex k.scope.now k.components.items (place_in_tables k.places.items) (numbers_under k.masters) };
}

impl<'r, 'k, 'a, A: Allocator + Copy> KnownPins<'r, 'k, 'a, A> {
    /// Makes the index.
    pub(crate) fn new(
        alloc: A,
        scope: &'r NetScope<'k, 'a, A>,
    ) -> Result<KnownPins<'r, 'k, 'a, A>, AllocError>
        ensures { IfOk result (λ pins. pins ≡ scope.now) }
    {
        let library = scope.library.masters();
        let components = components_of_each(alloc, library.len(), scope.components.as_slice())?;
        let places = places_of_each(alloc, library, &components)?;
        let masters = masters_by_pin(alloc, library, &components)?;
        Ok(KnownPins {
            scope,
            components,
            places,
            masters,
        })
    }

    /// What is indexed.
    pub(crate) fn scope(&self) -> &'r NetScope<'k, 'a, A>
        ensures { result.now ≡ self.now }
    {
        self.scope
    }

    /// The number of the pin of this name of the component of this number.
    pub(crate) fn pin_of_numbered(&self, number: usize, name: &[u8]) -> Option<usize>
        ensures is { result ≡ pin_of_numbered self.now number name.now }
        ensures few { IfSome result (λ _. number < ENTRY_LIMIT) }
    {
        let scope = self.scope;
        let component = scope.components.as_slice().get(number)?;
        let places = self.places.get(component.master)?;
        places.get(name).copied()
    }

    /// The numbers of the components of the macros that have a pin of this name.
    fn components_with(&self, alloc: A, name: &[u8]) -> Result<Vec<usize, A>, AllocError>
        ensures { IfOk result (λ numbers. (c : ℕ) → is_some (pin_of_numbered self.now c name.now) ≡ true → is_in c numbers.items ≡ true) }
    {
        let numbers = joined(alloc, &self.components, self.masters.numbers_under(name))?;
        Ok(numbers)
    }

    /// The pin of this name of each component that has it, in order.
    pub(crate) fn pins_of_all(&self, alloc: A, name: &[u8]) -> Result<Vec<Terminal, A>, AllocError>
        ensures { IfOk result (λ v. v.items ≡ pins_of_all self.now.library name.now 0 self.now.components) }
    {
        let mut numbers = self.components_with(alloc, name)?;
        put_in_order(&mut numbers);
        let terminals = self.pins_of_these(alloc, name, &numbers)?;
        Ok(terminals)
    }

    /// The pin of this name of each of these components that has it.
    #[tactic(auto, using(crate::proofs::PinsOfAll::one_has, crate::proofs::PinsOfAll::one_has_not, crate::proofs::PinsOfAll::all_seen))]
    fn pins_of_these(
        &self,
        alloc: A,
        name: &[u8],
        numbers: &[usize],
    ) -> Result<Vec<Terminal, A>, AllocError>
        ensures { IfOk result (λ v. v.items ≡ pins_of_these self.now name.now numbers.now) }
    {
        let mut terminals = Vec::new(alloc);
        for number in numbers {
            if let Some(pin) = self.pin_of_numbered(*number, name) {
                let component = *number as u32;
                terminals.push(Terminal::Comp { component, pin })?;
            }
        }
        Ok(terminals)
    }
}

/// Puts the numbers in rising order, each once.
fn put_in_order<A: Allocator>(numbers: &mut Vec<usize, A>)
    ensures rising { IsStrictlyIncreasing numbers.new.items }
    ensures all { (n : ℕ) → is_in n numbers.old.items ≡ true → Contains numbers.new.items n }
{
    numbers.sort_unstable();
    numbers.dedup();
}
