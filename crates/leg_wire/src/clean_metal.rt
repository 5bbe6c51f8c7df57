//! Where metal of a net may lie.

ghost use Rattle.std.specs.Prelude.{◌≡◌, ◌↔◌, map, IsTrue};
ghost use Rattle.leg_rules.specs.Spacing.Clean.{net_metal, IsClean};

use leg_flat::{Flat, Owner, Shape};
use leg_geom::Rect;
use leg_lib_records::Library;
use leg_sweep::BinIndex;
use leg_wire_spacing::{are_closer_than, greatest_spacing_on};
use std::alloc::Allocator;

/// The rectangle as metal of this net, as no piece of it and of no component.
fn net_metal(net: u32, layer: usize, rect: Rect) -> Shape
    ensures { result ≡ net_metal net layer rect }
{
    Shape {
        layer,
        rect,
        owner: Owner::Net(net),
        component: None,
        piece: None,
    }
}

/// Whether metal of this net may lie there: the rectangle, which is on this layer, shares no point with a shape of another
/// owner, and is no nearer to one than the greatest spacing on the layer. It looks at all shapes of the flat, and takes no memory.
pub fn clean<A: Allocator + Copy>(
    library: &Library<'_, A>,
    flat: &Flat<A>,
    net: u32,
    layer: usize,
    rect: Rect,
) -> bool
    ensures { IsTrue result ↔ IsClean library.now flat.now net layer rect }
{
    let spacing = greatest_spacing_on(library, layer);
    let metal = net_metal(net, layer, rect);
    for shape in flat.shapes() {
        if are_closer_than(spacing, &metal, shape) {
            return false;
        }
    }
    true
}

/// The same as `clean`, with an index of the rectangles of the flat's shapes, in their order. It looks at the shapes near the
/// rectangle alone, and takes no memory.
pub fn clean_indexed<A: Allocator + Copy>(
    library: &Library<'_, A>,
    flat: &Flat<A>,
    index: &BinIndex<A>,
    net: u32,
    layer: usize,
    rect: Rect,
) -> bool
    requires { index.now ≡ map (λ shape. shape.rect) flat.now.shapes }
    ensures { IsTrue result ↔ IsClean library.now flat.now net layer rect }
{
    let spacing = greatest_spacing_on(library, layer);
    let metal = net_metal(net, layer, rect);
    let shapes = flat.shapes();
    for number in index.near(&rect, spacing as u32) {
        if are_closer_than(spacing, &metal, &shapes[number as usize]) {
            return false;
        }
    }
    true
}
