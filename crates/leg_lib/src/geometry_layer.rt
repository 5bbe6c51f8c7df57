//! The layer that the shapes of ports and of obstructions are on (LEF/DEF 5.8, "Layer Geometries").

ghost use Rattle.std.specs.Prelude.{◌≡◌, ◌≢◌, ◌&&◌, codes, true, false, OnOk, IfErr};
ghost use Rattle.std.specs.List.{list_all};
ghost use Rattle.leg_lex.specs.declared.read_fault.FaultKind.TheVariants.{Memory};
ghost use Rattle.leg_lex.specs.Words.{Means, is_at};
ghost use Rattle.leg_grammar.specs.Lef.Geometry.{refuses_exceptions, says_nothing, layer_of_geometry};

use leg_grammar::Profile;
use leg_lex::{Cursor, FaultKind, NameKind, Need, ReadFault};
use leg_lib_records::RawLibrary;
use std::alloc::Allocator;

/// Whether `EXCEPTPGNET` is refused.
fn refuses_exceptions(profile: Profile) -> bool
    ensures { result ≡ refuses_exceptions profile }
{
    match profile {
        Profile::Narrow => true,
        Profile::Wide { .. } => false,
    }
}

/// Whether the next word is an `EXCEPTPGNET` that is refused.
fn is_at_refused_exception(profile: Profile, words: &Cursor<'_, '_>) -> bool
    ensures { result ≡ (refuses_exceptions profile && is_at (codes "EXCEPTPGNET") words.now) }
{
    refuses_exceptions(profile) && words.is_at(b"EXCEPTPGNET")
}

/// Checks that the words after a layer's name have no effect. In the narrow profile `EXCEPTPGNET` is `Unsupported`; what is
/// no name and not quoted is `Unexpected`.
#[tactic(auto, using(crate::proofs::DrawnShapes::other_said, crate::proofs::DrawnShapes::exception_said, crate::proofs::DrawnShapes::all_said_nothing, crate::proofs::DrawnShapes::word_shorter))]
fn nothing_said(profile: Profile, words: &mut Cursor<'_, '_>) -> Result<(), ReadFault>
    ensures nothing { OnOk result (list_all (says_nothing profile) words.old ≡ true) }
    ensures something { IfErr result (λ fault. fault.kind ≢ Memory → list_all (says_nothing profile) words.old ≡ false) }
{
    'words: while !words.is_at_end() {
        if is_at_refused_exception(profile, words) {
            return Err(words.fault(FaultKind::Unsupported));
        }
        words.word()?;
    }
    Ok(())
}

/// The number of the layer that a `LAYER` statement names.
#[tactic(auto, unfolding(leg_grammar::specs::Lef::Geometry::layer_of_geometry))]
pub(crate) fn layer_of_geometry<A: Allocator + Copy>(
    profile: Profile,
    library: &RawLibrary<'_, A>,
    statement: &mut Cursor<'_, '_>,
) -> Result<usize, ReadFault>
    ensures { Means (λ number. number) result (layer_of_geometry profile library.now statement.old) }
{
    statement.keyword(b"LAYER")?;
    let named = statement.again();
    let name = statement.name()?;
    let Some(number) = library.layer_named(name) else {
        return Err(named.need(FaultKind::UnknownName, Need::Known(NameKind::Layer)));
    };
    nothing_said(profile, statement)?;
    Ok(number)
}
