//! The records of LEF texts, with lengths in millionths of a micron.

use crate::items::Items;
use crate::measure::{RawExtent, RawPoint, RawRect};
use crate::records::{Direction, Supply};
use leg_lex::{Micron, Name, Named};
use std::alloc::Allocator;
use std::marker::Model;

/// What a layer is for. Only routing and cut layers carry metal.
#[derive(Clone, Copy, PartialEq, Eq, Debug)]
pub enum RawKind {
    /// Wires of this direction and width.
    Routing { direction: Direction, width: Micron },
    /// The cuts of vias.
    Cut,
    /// Anything else.
    Other,
}

/// A layer (LEF/DEF 5.8, "Layer"). Layers are listed bottom up.
#[derive(Drop)]
pub struct RawLayer<'a> {
    pub name: Name<'a>,
    pub kind: RawKind,
    /// How far apart metal of different owners must be, at least.
    pub spacing: Micron,
}

/// A site (LEF/DEF 5.8, "Site").
#[derive(Drop)]
pub struct RawSite<'a> {
    pub name: Name<'a>,
    pub size: RawExtent,
}

/// A rectangle on a layer, which is given by its number.
#[derive(Clone, Copy, PartialEq, Eq, Debug)]
pub struct RawShape {
    pub layer: usize,
    pub rect: RawRect,
}

/// A via (LEF/DEF 5.8, "Via"). One that isn't good has no shapes.
#[derive(Drop)]
pub struct RawVia<'a, A: Allocator> {
    pub name: Name<'a>,
    /// Whether the word `DEFAULT` follows its name.
    pub default_via: bool,
    /// Whether a wire may name it.
    pub good: bool,
    pub shapes: Items<RawShape, A>,
}

impl<'a, A: Allocator> Model for RawVia<'a, A> {
    ghost use Rattle.leg_lib_records.specs.Records.{RawViaModel};

    ghost Value = { RawViaModel };

    ghost view = { λ v. record { name = v.name; default_via = v.default_via; good = v.good; shapes = v.shapes } };
}

/// A pin of a macro, with the shapes of all its ports (LEF/DEF 5.8, "Macro Pin Statement").
#[derive(Drop)]
pub struct RawPin<'a, A: Allocator> {
    pub name: Name<'a>,
    pub supply: Supply,
    pub shapes: Items<RawShape, A>,
}

impl<'a, A: Allocator> Model for RawPin<'a, A> {
    ghost use Rattle.leg_lib_records.specs.Records.{RawPinModel};

    ghost Value = { RawPinModel };

    ghost view = { λ p. record { name = p.name; supply = p.supply; shapes = p.shapes } };
}

/// A macro (LEF/DEF 5.8, "Macro"). Its site is given by its number; its origin is not yet added to
/// its shapes.
#[derive(Drop)]
pub struct RawMaster<'a, A: Allocator> {
    pub name: Name<'a>,
    pub size: RawExtent,
    pub origin: RawPoint,
    /// Whether its `SYMMETRY` has Y.
    pub y_symmetric: bool,
    pub site: Option<usize>,
    pub pins: Items<RawPin<'a, A>, A>,
    pub obstructions: Items<RawShape, A>,
}

impl<'a, A: Allocator> Model for RawMaster<'a, A> {
    ghost use Rattle.leg_lib_records.specs.Records.{RawMasterModel};

    ghost Value = { RawMasterModel };

    ghost view = { λ m. record {
      name = m.name;
      size = m.size;
      origin = m.origin;
      y_symmetric = m.y_symmetric;
      site = m.site;
      pins = m.pins;
      obstructions = m.obstructions;
    } };
}

/// The width of wires on a layer, which is given by its number.
#[derive(Clone, Copy, PartialEq, Eq, Debug)]
pub struct RawRuleWidth {
    pub layer: usize,
    pub width: Micron,
}

/// A nondefault rule (LEF/DEF 5.8, "Nondefault Rule"): the widths of the wires of nets under it. On a layer that it doesn't name,
/// wires have the layer's width.
#[derive(Drop)]
pub struct RawRule<'a, A: Allocator> {
    pub name: Name<'a>,
    pub widths: Items<RawRuleWidth, A>,
}

impl<'a, A: Allocator> Model for RawRule<'a, A> {
    ghost use Rattle.leg_lib_records.specs.Records.{RawRuleModel};

    ghost Value = { RawRuleModel };

    ghost view = { λ r. record { name = r.name; widths = r.widths } };
}

impl Named for RawLayer<'_> {
    ghost name_of = { λ x. x.name };

    ghost fits = { λ n. Unit {0} };

    ghost none_fits = { tt };

    ghost fewer_fit = { λ m n less some. tt };
}

impl Named for RawSite<'_> {
    ghost name_of = { λ x. x.name };

    ghost fits = { λ n. Unit {0} };

    ghost none_fits = { tt };

    ghost fewer_fit = { λ m n less some. tt };
}

impl<A: Allocator> Named for RawVia<'_, A> {
    ghost name_of = { λ x. x.name };

    ghost fits = { λ n. Unit {0} };

    ghost none_fits = { tt };

    ghost fewer_fit = { λ m n less some. tt };
}

impl<A: Allocator> Named for RawMaster<'_, A> {
    ghost name_of = { λ x. x.name };

    ghost fits = { λ n. Unit {0} };

    ghost none_fits = { tt };

    ghost fewer_fit = { λ m n less some. tt };
}

impl<A: Allocator> Named for RawRule<'_, A> {
    ghost name_of = { λ x. x.name };

    ghost fits = { λ n. Unit {0} };

    ghost none_fits = { tt };

    ghost fewer_fit = { λ m n less some. tt };
}
