//! Names for vias that a text doesn't name (lefdef's own rule).

ghost use Rattle.std.specs.Prelude.{◌≡◌, ◌++◌, IfOk};
ghost use Rattle.leg_lex.specs.Words.{Means};
ghost use Rattle.leg_grammar.specs.Def.Turns.{orient_suffix};
ghost use Rattle.leg_grammar.specs.Def.TurnedVia.{numbered_name, new_name};

use itoa::Buffer;
use leg_design_common::via_number::number_of_via;
use leg_geom::Orient;
use leg_lex::{Cursor, FaultKind, NamedList, ReadFault};
use leg_lib_records::{Library, Via};
use std::alloc::{AllocError, Allocator};

/// What an orientation adds to the name of a via.
fn orient_suffix(orient: Orient) -> &'static [u8]
    ensures { result.now ≡ orient_suffix orient }
{
    match orient {
        Orient::N => b"_N",
        Orient::S => b"_S",
        Orient::W => b"_W",
        Orient::E => b"_E",
        Orient::FN => b"_FN",
        Orient::FS => b"_FS",
        Orient::FW => b"_FW",
        Orient::FE => b"_FE",
    }
}

/// The name of a via with what an orientation adds to it.
pub(crate) fn with_suffix<A: Allocator + Copy>(
    alloc: A,
    name: &[u8],
    orient: Orient,
) -> Result<Vec<u8, A>, AllocError>
    ensures { IfOk result (λ named. named.items ≡ name.now ++ orient_suffix orient) }
{
    let mut named = Vec::new(alloc);
    named.extend_from_slice(name)?;
    named.extend_from_slice(orient_suffix(orient))?;
    Ok(named)
}

/// The bytes of a name that no text has. They are kept as long as the memory that they are in: names of a design are lent, and nothing owns
/// these. So reading takes their few bytes for good, once for each turned via.
pub(crate) fn kept<'a, A: Allocator + Copy + 'a>(name: Vec<u8, A>) -> &'a [u8]
    ensures { result.now ≡ name.items }
{
    name.leak()
}

/// A name with a number behind it, or without one where it is 0.
fn numbered_name<A: Allocator + Copy>(
    alloc: A,
    name: &[u8],
    number: usize,
) -> Result<Vec<u8, A>, AllocError>
    ensures { IfOk result (λ numbered. numbered.items ≡ numbered_name name.now number) }
{
    let mut numbered = Vec::new(alloc);
    numbered.extend_from_slice(name)?;
    if number != 0 {
        let mut buffer = Buffer::new();
        numbered.push(b'_')?;
        numbered.extend_from_slice(buffer.format(number).as_bytes())?;
    }
    Ok(numbered)
}

/// The name, or the first with a number behind it, that no via of the library and none of these has. One is found, since of one name more than
/// there are vias not all can be theirs; if there were none, that would be `TooMany` at the word.
pub(crate) fn new_name<'a, A: Allocator + Copy>(
    alloc: A,
    library: &Library<'a, A>,
    vias: &NamedList<'a, Via<'a, A>, A>,
    name: &[u8],
    word: &Cursor<'_, '_>,
) -> Result<Vec<u8, A>, ReadFault>
    ensures { Means (λ numbered. numbered.items) result (new_name library.now vias.now name.now) }
{
    let of_library = library.vias();
    let of_design = vias.as_slice();
    let mut number = 0;
    'numbers: while number <= of_library.len() + of_design.len() {
        let numbered = numbered_name(alloc, name, number)?;
        if number_of_via(library, vias, &numbered).is_none() {
            return Ok(numbered);
        }
        number += 1;
    }
    Err(word.fault(FaultKind::TooMany))
}
