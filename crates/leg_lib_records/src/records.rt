//! The records of a library, with lengths in database units.

use crate::items::Items;
use crate::measure::Extent;
use crate::shape_list::ShapeList;
use leg_geom::Rect;
use leg_lex::{Name, Named};
use std::alloc::Allocator;
use std::marker::Model;

/// The direction of a routing layer's wires.
#[derive(Clone, Copy, PartialEq, Eq, Debug)]
pub enum Direction {
    Horizontal,
    Vertical,
}

/// What a pin of a macro supplies: the word after its `USE`.
#[derive(Clone, Copy, PartialEq, Eq, Debug)]
pub enum Supply {
    /// Any other use, or none.
    NoSupply,
    Power,
    Ground,
}

/// What a layer is for. Only routing and cut layers carry metal.
#[derive(Clone, Copy, PartialEq, Eq, Debug)]
pub enum LayerKind {
    /// Wires of this direction and width. The width is even.
    Routing { direction: Direction, width: i64 },
    /// The cuts of vias.
    Cut,
    /// Anything else.
    Other,
}

/// A layer (LEF/DEF 5.8, "Layer"). Layers are listed bottom up.
#[derive(PartialEq, Drop)]
pub struct Layer<'a> {
    pub name: Name<'a>,
    pub kind: LayerKind,
    /// How far apart metal of different owners must be, at least.
    pub spacing: i64,
}

/// A site (LEF/DEF 5.8, "Site").
#[derive(PartialEq, Drop)]
pub struct Site<'a> {
    pub name: Name<'a>,
    pub size: Extent,
}

/// A rectangle on a layer, which is given by its number.
#[derive(Clone, Copy, PartialEq, Eq, Debug)]
pub struct Shape {
    pub layer: usize,
    pub rect: Rect,
}

/// What fills the free places of a `ShapeList`, and is never read: the square between the points 0 0 and 1 1 on layer 0.
impl Default for Shape {
    ghost use Rattle.std.specs.Prelude.{◌≡◌, pos};

    ghost is_default = { λ s. s ≡ record { layer = 0; rect = record { x1 = pos 0; y1 = pos 0; x2 = pos 1; y2 = pos 1 } } };

    fn default() -> Shape {
        Shape {
            layer: 0,
            rect: Rect::new(0, 0, 1, 1).unwrap(),
        }
    }
}

/// A via (LEF/DEF 5.8, "Via"). One that isn't good has no shapes.
#[derive(Drop)]
#[derive_where(PartialEq)]
pub struct Via<'a, A: Allocator> {
    pub name: Name<'a>,
    /// Whether the word `DEFAULT` follows its name.
    pub default_via: bool,
    /// Whether a wire may name it.
    pub good: bool,
    pub shapes: ShapeList<A>,
}

impl<'a, A: Allocator> Model for Via<'a, A> {
    ghost use Rattle.leg_lib_records.specs.Records.{ViaModel};

    ghost Value = { ViaModel };

    ghost view = { λ v. record { name = v.name; default_via = v.default_via; good = v.good; shapes = v.shapes } };

    ghost inverse = { λ s. record { name = s.name; default_via = s.default_via; good = s.good; shapes = s.shapes } };
}

/// A pin of a master, with the shapes of all its ports (LEF/DEF 5.8, "Macro Pin Statement").
#[derive(Drop)]
#[derive_where(PartialEq)]
pub struct MasterPin<'a, A: Allocator> {
    pub name: Name<'a>,
    pub supply: Supply,
    pub shapes: ShapeList<A>,
}

impl<'a, A: Allocator> Model for MasterPin<'a, A> {
    ghost use Rattle.leg_lib_records.specs.Records.{MasterPinModel};

    ghost Value = { MasterPinModel };

    ghost view = { λ p. record { name = p.name; supply = p.supply; shapes = p.shapes } };

    ghost inverse = { λ s. record { name = s.name; supply = s.supply; shapes = s.shapes } };
}

/// A master, which LEF calls a macro (LEF/DEF 5.8, "Macro"). Its site is given by its number; its
/// origin is added to its shapes.
#[derive(Drop)]
#[derive_where(PartialEq)]
pub struct Master<'a, A: Allocator> {
    pub name: Name<'a>,
    pub size: Extent,
    /// Whether its `SYMMETRY` has Y.
    pub y_symmetric: bool,
    pub site: Option<usize>,
    pub pins: Items<MasterPin<'a, A>, A>,
    pub obstructions: ShapeList<A>,
}

impl<'a, A: Allocator> Model for Master<'a, A> {
    ghost use Rattle.leg_lib_records.specs.Records.{MasterModel};

    ghost Value = { MasterModel };

    ghost view = { λ m. record { name = m.name; size = m.size; y_symmetric = m.y_symmetric; site = m.site; pins = m.pins; obstructions = m.obstructions } };

    ghost inverse = { λ s. record { name = s.name; size = s.size; y_symmetric = s.y_symmetric; site = s.site; pins = s.pins; obstructions = s.obstructions } };
}

/// The width of wires on a layer, which is given by its number. It may be odd.
#[derive(Clone, Copy, PartialEq, Eq, Debug)]
pub struct RuleWidth {
    pub layer: usize,
    pub width: i64,
}

/// A nondefault rule (LEF/DEF 5.8, "Nondefault Rule"): the widths of the wires of nets under it. On a layer that it doesn't name,
/// wires have the layer's width.
#[derive(Drop)]
#[derive_where(PartialEq)]
pub struct Rule<'a, A: Allocator> {
    pub name: Name<'a>,
    pub widths: Items<RuleWidth, A>,
}

impl<'a, A: Allocator> Model for Rule<'a, A> {
    ghost use Rattle.leg_lib_records.specs.Records.{RuleModel};

    ghost Value = { RuleModel };

    ghost view = { λ r. record { name = r.name; widths = r.widths } };

    ghost inverse = { λ s. record { name = s.name; widths = s.widths } };
}

impl Named for Layer<'_> {
    ghost name_of = { λ x. x.name };

    ghost fits = { λ n. Unit {0} };

    ghost none_fits = { tt };

    ghost fewer_fit = { λ m n less some. tt };
}

impl Named for Site<'_> {
    ghost name_of = { λ x. x.name };

    ghost fits = { λ n. Unit {0} };

    ghost none_fits = { tt };

    ghost fewer_fit = { λ m n less some. tt };
}

impl<A: Allocator> Named for Via<'_, A> {
    ghost name_of = { λ x. x.name };

    ghost fits = { λ n. Unit {0} };

    ghost none_fits = { tt };

    ghost fewer_fit = { λ m n less some. tt };
}

impl<A: Allocator> Named for Master<'_, A> {
    ghost name_of = { λ x. x.name };

    ghost fits = { λ n. Unit {0} };

    ghost none_fits = { tt };

    ghost fewer_fit = { λ m n less some. tt };
}

impl<A: Allocator> Named for Rule<'_, A> {
    ghost name_of = { λ x. x.name };

    ghost fits = { λ n. Unit {0} };

    ghost none_fits = { tt };

    ghost fewer_fit = { λ m n less some. tt };
}
