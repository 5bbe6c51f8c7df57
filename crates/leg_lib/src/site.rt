//! Sites (LEF/DEF 5.8, "Site").

ghost use Rattle.std.specs.Prelude.{◌≡◌, option_copied};
ghost use Rattle.leg_lex.specs.Words.{Reads};
ghost use Rattle.leg_grammar.specs.Lef.Site.{site_at, site_named, with_site};

use crate::named::second_definition;
use crate::point;
use leg_lex::{Cursor, Name, NameKind, ReadFault, the};
use leg_lib_records::{RawLibrary, RawSite};
use std::alloc::Allocator;

/// A site, from `SITE` to its `END`.
#[tactic(auto, unfolding(leg_grammar::specs::Lef::Site::site_at))]
fn site<'a, A: Allocator + Copy>(
    alloc: A,
    words: &mut Cursor<'_, 'a>,
) -> Result<RawSite<'a>, ReadFault>
    ensures { Reads (λ s. s) result words.new (site_at words.old) }
{
    words.keyword(b"SITE")?;
    let name = words.name()?;
    let statements = words.statements(alloc)?;
    let mut statement = the(&statements, b"SIZE", words)?;
    let size = point::size(&mut statement)?;
    words.end_of(name)?;
    Ok(RawSite {
        name: Name::new(name),
        size,
    })
}

/// The site of this name that was defined before.
fn site_named<'l, 'a, A: Allocator + Copy>(
    library: &'l RawLibrary<'a, A>,
    name: &[u8],
) -> Option<&'l RawSite<'a>>
    ensures { option_copied result ≡ site_named name.now library.now }
{
    let number = library.site_named(name)?;
    library.sites().get(number)
}

/// Adds the site that comes next. A second definition with the same size adds nothing.
#[tactic(auto, using(crate::proofs::Sites::found_nowhere), unfolding(leg_grammar::specs::Lef::Site::with_site))]
pub(crate) fn site_form<'a, A: Allocator + Copy>(
    alloc: A,
    library: &mut RawLibrary<'a, A>,
    words: &mut Cursor<'_, 'a>,
) -> Result<(), ReadFault>
    ensures { Reads (λ _. library.new) result words.new (with_site library.old words.old) }
{
    let first = words.again();
    let site = site(alloc, words)?;
    match site_named(library, site.name.bytes()) {
        Some(before) if before.size == site.size => Ok(()),
        Some(_) => Err(second_definition(&first, NameKind::Site)),
        None => {
            library.push_site(site)?;
            Ok(())
        }
    }
}
