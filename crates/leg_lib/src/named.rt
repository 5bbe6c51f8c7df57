//! Names that are defined a second time.

ghost use Rattle.std.specs.Prelude.{◌≡◌};

use leg_lex::{Cursor, FaultKind, NameKind, Need, ReadFault};

/// The fault of a form whose name, which is one of these, was defined before; it is at that name.
pub(crate) fn second_definition(form: &Cursor<'_, '_>, kind: NameKind) -> ReadFault
    ensures { result.kind ≡ FaultKind.DuplicateName }
{
    let mut name = form.again();
    let _keyword = name.any();
    name.need(FaultKind::DuplicateName, Need::New(kind))
}
