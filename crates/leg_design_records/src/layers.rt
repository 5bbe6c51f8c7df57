//! What the layers of a library are for.

ghost use Rattle.std.specs.Prelude.{◌≡◌};
ghost use Rattle.leg_design_records.specs.Layers.{wire_width};

use leg_lib_records::LayerKind;

/// The width of the wires on a layer of this kind, if there are wires.
pub fn wire_width(kind: LayerKind) -> Option<i64>
    ensures { result ≡ wire_width kind }
{
    match kind {
        LayerKind::Routing { width, .. } => Some(width),
        LayerKind::Cut | LayerKind::Other => None,
    }
}
