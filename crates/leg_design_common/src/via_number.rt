//! The vias of a library and of a design by their numbers and names: those of the library count first.

ghost use Rattle.std.specs.Prelude.{◌≡◌};
ghost use Rattle.std.specs.Option.{option_copied};
ghost use Rattle.leg_grammar.specs.Def.NetScope.{via_of_number, number_of_via};

use leg_lex::NamedList;
use leg_lib_records::{Library, Via};
use std::alloc::Allocator;

/// The via of this number.
#[tactic(auto, using(leg_lemmas::proofs::Places::in_first, crate::proofs::ViaNumbers::in_second))]
pub fn via_of_number<'k, 'a, A: Allocator + Copy>(
    library: &'k Library<'a, A>,
    vias: &'k NamedList<'a, Via<'a, A>, A>,
    number: usize,
) -> Option<&'k Via<'a, A>>
    ensures { option_copied result ≡ via_of_number library.now vias.now number }
{
    let of_library = library.vias();
    if number < of_library.len() {
        of_library.get(number)
    } else {
        vias.as_slice().get(number - of_library.len())
    }
}

/// The number of the via of this name.
#[tactic(auto, using(crate::proofs::ViaNumbers::place_within))]
pub fn number_of_via<'a, A: Allocator + Copy>(
    library: &Library<'a, A>,
    vias: &NamedList<'a, Via<'a, A>, A>,
    name: &[u8],
) -> Option<usize>
    ensures { result ≡ number_of_via library.now vias.now name.now }
{
    match library.via_named(name) {
        Some(number) => Some(number),
        None => {
            let number = vias.place_of(name)?;
            let before = &vias.as_slice()[..number];
            Some(library.vias().len() + before.len())
        }
    }
}
