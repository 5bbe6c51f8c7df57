//! The kinds of violations that name two numbers.

ghost use Rattle.std.specs.Prelude.{◌≡◌};
ghost use Rattle.leg_drc.specs.Steps.Kinds.{pair_fault};

use crate::fault::DrcFault;

/// What can be wrong with a piece of a net, or with two shapes.
#[derive(Clone, Copy)]
pub(crate) enum PairKind {
    Supply,
    Table,
    CutNear,
}

impl PairKind {
    /// The violation of this kind that names these numbers.
    pub(crate) fn fault(self, first: u32, second: u32) -> DrcFault
        ensures { result ≡ pair_fault self first second }
    {
        match self {
            PairKind::Supply => DrcFault::Supply(first, second),
            PairKind::Table => DrcFault::Table(first, second),
            PairKind::CutNear => DrcFault::CutNear(first, second),
        }
    }
}
