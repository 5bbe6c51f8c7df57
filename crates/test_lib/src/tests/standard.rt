//! A small standard-cell library, every field of its record written down by hand.

use super::frame::{is_named, passes_at, reads, standard_library};
use leg_lib_records::{
    Direction, Layer, LayerKind, Library, Master, MasterPin, RawKind, RawLayer, RawLibrary,
    RawMaster, RawPin, RawShape, RawSite, RawVia, Shape, Site, Supply, Via,
};
use std::alloc::Global;

/// A shape: its layer, and its left, lower, right and upper side in millionths of a micron.
type Drawn = (usize, [i64; 4]);

/// A layer: its name, its direction if it is a routing layer and not a cut layer, and its width and spacing of 0.1 microns.
type Plane = (&'static [u8], Option<Direction>);

/// A pin: its name, its supply, and its one shape.
type Terminal = (&'static [u8], Supply, [Drawn; 1]);

/// A macro of 0.4 by 2 microns with its origin at zero.
struct Block {
    name: &'static [u8],
    y_symmetric: bool,
    site: Option<usize>,
    pins: &'static [Terminal],
    obstructions: &'static [Drawn],
}

static LAYERS: [Plane; 3] = [
    (b"m1", Some(Direction::Horizontal)),
    (b"v1", None),
    (b"m2", Some(Direction::Vertical)),
];

static VIA: [Drawn; 3] = [
    (0, [-50_000, -50_000, 50_000, 50_000]),
    (1, [-50_000, -50_000, 50_000, 50_000]),
    (2, [-50_000, -50_000, 50_000, 50_000]),
];

static MASTERS: [Block; 3] = [
    Block {
        name: b"INV",
        y_symmetric: true,
        site: Some(0),
        pins: &[
            (
                b"A",
                Supply::NoSupply,
                [(0, [50_000, 850_000, 150_000, 1_050_000])],
            ),
            (
                b"Y",
                Supply::NoSupply,
                [(0, [250_000, 850_000, 350_000, 1_050_000])],
            ),
            (
                b"VDD",
                Supply::Power,
                [(0, [0, 1_900_000, 400_000, 2_100_000])],
            ),
            (
                b"VSS",
                Supply::Ground,
                [(0, [0, -100_000, 400_000, 100_000])],
            ),
        ],
        obstructions: &[],
    },
    Block {
        name: b"BLK",
        y_symmetric: false,
        site: None,
        pins: &[],
        obstructions: &[(0, [100_000, 700_000, 300_000, 1_200_000])],
    },
    Block {
        name: b"BLK2",
        y_symmetric: false,
        site: None,
        pins: &[],
        obstructions: &[
            (0, [100_000, 700_000, 300_000, 1_200_000]),
            (2, [-300_000, 0, 700_000, 2_000_000]),
        ],
    },
];

fn is_raw_layer(layer: &RawLayer<'_>, expected: &Plane) -> bool {
    is_named(&layer.name, expected.0)
        && layer.spacing.millionths() == 100_000
        && is_raw_kind(layer, expected.1)
}

fn are_raw_layers(items: &[RawLayer<'_>], expected: &[Plane]) -> bool {
    if items.len() != expected.len() {
        return false;
    }
    for i in 0..expected.len() {
        if !is_raw_layer(&items[i], &expected[i]) {
            return false;
        }
    }
    true
}

fn is_raw_kind(layer: &RawLayer<'_>, expected: Option<Direction>) -> bool {
    match layer.kind {
        RawKind::Routing { direction, width } => {
            expected == Some(direction) && width.millionths() == 100_000
        }
        RawKind::Cut => expected.is_none(),
        RawKind::Other => false,
    }
}

fn is_raw_shape(shape: &RawShape, expected: &Drawn) -> bool {
    let rect = shape.rect;
    let sides = [
        rect.x1().millionths(),
        rect.y1().millionths(),
        rect.x2().millionths(),
        rect.y2().millionths(),
    ];
    shape.layer == expected.0 && sides == expected.1
}

fn are_raw_shapes(items: &[RawShape], expected: &[Drawn]) -> bool {
    if items.len() != expected.len() {
        return false;
    }
    for i in 0..expected.len() {
        if !is_raw_shape(&items[i], &expected[i]) {
            return false;
        }
    }
    true
}

fn are_raw_vias(vias: &[RawVia<'_, Global>]) -> bool {
    let [via] = vias else {
        return false;
    };
    is_named(&via.name, b"V12")
        && via.default_via
        && via.good
        && are_raw_shapes(via.shapes.as_slice(), &VIA)
}

fn are_raw_sites(sites: &[RawSite<'_>]) -> bool {
    let [site] = sites else {
        return false;
    };
    is_named(&site.name, b"core")
        && site.size.width().millionths() == 200_000
        && site.size.height().millionths() == 2_000_000
}

fn is_raw_pin(pin: &RawPin<'_, Global>, expected: &Terminal) -> bool {
    is_named(&pin.name, expected.0)
        && pin.supply == expected.1
        && are_raw_shapes(pin.shapes.as_slice(), &expected.2)
}

fn are_raw_pins(items: &[RawPin<'_, Global>], expected: &[Terminal]) -> bool {
    if items.len() != expected.len() {
        return false;
    }
    for i in 0..expected.len() {
        if !is_raw_pin(&items[i], &expected[i]) {
            return false;
        }
    }
    true
}

fn is_raw_frame(master: &RawMaster<'_, Global>, expected: &Block) -> bool {
    let lengths = [
        master.size.width().millionths(),
        master.size.height().millionths(),
        master.origin.x().millionths(),
        master.origin.y().millionths(),
    ];
    is_named(&master.name, expected.name)
        && lengths == [400_000, 2_000_000, 0, 0]
        && master.y_symmetric == expected.y_symmetric
        && master.site == expected.site
}

fn is_raw_master(master: &RawMaster<'_, Global>, expected: &Block) -> bool {
    is_raw_frame(master, expected)
        && are_raw_pins(master.pins.as_slice(), expected.pins)
        && are_raw_shapes(master.obstructions.as_slice(), expected.obstructions)
}

fn are_raw_masters(items: &[RawMaster<'_, Global>], expected: &[Block]) -> bool {
    if items.len() != expected.len() {
        return false;
    }
    for i in 0..expected.len() {
        if !is_raw_master(&items[i], &expected[i]) {
            return false;
        }
    }
    true
}

fn has_raw_records(_alloc: Global, raw: &RawLibrary<'_, Global>) -> bool {
    are_raw_layers(raw.layers(), &LAYERS)
        && are_raw_vias(raw.vias())
        && are_raw_sites(raw.sites())
        && are_raw_masters(raw.masters(), &MASTERS)
}

#[test]
fn a_text_denotes_every_field_of_its_records(rt: HostRuntime) {
    assert!(rt; reads(rt.alloc(), standard_library(), has_raw_records));
}

fn is_layer(layer: &Layer<'_>, expected: &Plane) -> bool {
    is_named(&layer.name, expected.0) && layer.spacing == 100 && is_kind(layer, expected.1)
}

fn are_layers(items: &[Layer<'_>], expected: &[Plane]) -> bool {
    if items.len() != expected.len() {
        return false;
    }
    for i in 0..expected.len() {
        if !is_layer(&items[i], &expected[i]) {
            return false;
        }
    }
    true
}

fn is_kind(layer: &Layer<'_>, expected: Option<Direction>) -> bool {
    match layer.kind {
        LayerKind::Routing { direction, width } => expected == Some(direction) && width == 100,
        LayerKind::Cut => expected.is_none(),
        LayerKind::Other => false,
    }
}

// A database unit is a thousand millionths of a micron.
fn is_shape(shape: &Shape, expected: &Drawn) -> bool {
    let rect = shape.rect;
    let [x1, y1, x2, y2] = expected.1;
    shape.layer == expected.0
        && [rect.x1(), rect.y1(), rect.x2(), rect.y2()]
            == [x1 / 1000, y1 / 1000, x2 / 1000, y2 / 1000]
}

pub(super) fn are_shapes(items: &[Shape], expected: &[Drawn]) -> bool {
    if items.len() != expected.len() {
        return false;
    }
    for i in 0..expected.len() {
        if !is_shape(&items[i], &expected[i]) {
            return false;
        }
    }
    true
}

fn are_vias(vias: &[Via<'_, Global>]) -> bool {
    let [via] = vias else {
        return false;
    };
    is_named(&via.name, b"V12")
        && via.default_via
        && via.good
        && are_shapes(via.shapes.as_slice(), &VIA)
}

fn are_sites(sites: &[Site<'_>]) -> bool {
    let [site] = sites else {
        return false;
    };
    is_named(&site.name, b"core") && site.size.width() == 200 && site.size.height() == 2000
}

fn is_pin(pin: &MasterPin<'_, Global>, expected: &Terminal) -> bool {
    is_named(&pin.name, expected.0)
        && pin.supply == expected.1
        && are_shapes(pin.shapes.as_slice(), &expected.2)
}

fn are_pins(items: &[MasterPin<'_, Global>], expected: &[Terminal]) -> bool {
    if items.len() != expected.len() {
        return false;
    }
    for i in 0..expected.len() {
        if !is_pin(&items[i], &expected[i]) {
            return false;
        }
    }
    true
}

fn is_frame(master: &Master<'_, Global>, expected: &Block) -> bool {
    is_named(&master.name, expected.name)
        && [master.size.width(), master.size.height()] == [400, 2000]
        && master.y_symmetric == expected.y_symmetric
        && master.site == expected.site
}

fn is_master(master: &Master<'_, Global>, expected: &Block) -> bool {
    is_frame(master, expected)
        && are_pins(master.pins.as_slice(), expected.pins)
        && are_shapes(master.obstructions.as_slice(), expected.obstructions)
}

fn are_masters(items: &[Master<'_, Global>], expected: &[Block]) -> bool {
    if items.len() != expected.len() {
        return false;
    }
    for i in 0..expected.len() {
        if !is_master(&items[i], &expected[i]) {
            return false;
        }
    }
    true
}

fn has_records(library: &Library<'_, Global>) -> bool {
    are_layers(library.layers(), &LAYERS)
        && are_vias(library.vias())
        && are_sites(library.sites())
        && are_masters(library.masters(), &MASTERS)
}

fn has_records_in_units(alloc: Global, raw: &RawLibrary<'_, Global>) -> bool {
    passes_at(alloc, raw, 1000, has_records)
}

#[test]
fn every_field_is_denoted_in_database_units(rt: HostRuntime) {
    assert!(rt; reads(rt.alloc(), standard_library(), has_records_in_units));
}

fn finds_by_name(library: &Library<'_, Global>) -> bool {
    library.layer_named(b"m2") == Some(2)
        && library.layer_named(b"M2").is_none()
        && library.via_named(b"V12") == Some(0)
        && library.site_named(b"core") == Some(0)
        && library.site_named(b"m1").is_none()
        && library.master_named(b"BLK2") == Some(2)
}

fn finds_by_name_in_units(alloc: Global, raw: &RawLibrary<'_, Global>) -> bool {
    raw.master_named(b"BLK") == Some(1) && passes_at(alloc, raw, 1000, finds_by_name)
}

#[test]
fn finds_records_by_their_names(rt: HostRuntime) {
    assert!(rt; reads(rt.alloc(), standard_library(), finds_by_name_in_units));
}
