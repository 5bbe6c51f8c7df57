//! ExtentModel in database units.

use super::frame::{
    changed, fault_at, is_named, passes_at, reads, reads_changed, standard_library,
};
use super::standard::are_shapes;
use leg_lex::UNITS_LIMIT;
use leg_lib::read_lefs;
use leg_lib_records::{Library, RawLibrary, ScaleFault, ScaleKind};
use std::alloc::Global;

// Whether the first macro has INV's size, and its first pin lies 0.1 microns further to the right.
fn is_shifted(library: &Library<'_, Global>) -> bool {
    let [master, ..] = library.masters() else {
        return false;
    };
    let [pin, ..] = master.pins.as_slice() else {
        return false;
    };
    [master.size.width(), master.size.height()] == [400, 2000]
        && are_shapes(
            pin.shapes.as_slice(),
            &[(0, [150_000, 850_000, 250_000, 1_050_000])],
        )
}

fn is_shifted_in_units(alloc: Global, raw: &RawLibrary<'_, Global>) -> bool {
    passes_at(alloc, raw, 1000, is_shifted)
}

#[test]
fn an_origin_shifts_what_is_drawn(rt: HostRuntime) {
    assert!(rt;
        reads_changed(
            rt.alloc(),
            "ORIGIN 0 0",
            "ORIGIN 0.1 0",
            is_shifted_in_units
        )
    );
}

/// What is written in place of what, and at how many units a micron this fault is reported, if one is.
struct Scaling {
    from: &'static str,
    to: &'static str,
    units: u32,
    fault: Option<(&'static [u8], ScaleKind)>,
}

static SCALINGS: [Scaling; 8] = [
    Scaling {
        from: "WIDTH 0.1 ;",
        to: "WIDTH 0.101 ;",
        units: 1000,
        fault: Some((b"m1", ScaleKind::OddWidth)),
    },
    Scaling {
        from: "WIDTH 0.1 ;",
        to: "WIDTH 0.1005 ;",
        units: 1000,
        fault: Some((b"m1", ScaleKind::NotOnUnit)),
    },
    Scaling {
        from: "TYPE CUT ; SPACING 0.1",
        to: "TYPE CUT ; SPACING 0.0005",
        units: 1000,
        fault: Some((b"v1", ScaleKind::NotOnUnit)),
    },
    Scaling {
        from: "SIZE 0.2 BY 2.0",
        to: "SIZE 0.2 BY 2.00001",
        units: 1000,
        fault: Some((b"core", ScaleKind::NotOnUnit)),
    },
    Scaling {
        from: "RECT 0 -0.1 0.4 0.1",
        to: "RECT 0 -0.10001 0.4 0.1",
        units: 1000,
        fault: Some((b"INV", ScaleKind::NotOnUnit)),
    },
    Scaling {
        from: "ORIGIN 0 0",
        to: "ORIGIN 0 0.0001",
        units: 1000,
        fault: Some((b"INV", ScaleKind::NotOnUnit)),
    },
    // 2,000,000,000 units are the limit.
    Scaling {
        from: "SIZE 0.2 BY 2.0",
        to: "SIZE 0.2 BY 2000000",
        units: 1000,
        fault: None,
    },
    Scaling {
        from: "SIZE 0.2 BY 2.0",
        to: "SIZE 0.2 BY 2000000",
        units: 2000,
        fault: Some((b"core", ScaleKind::TooLarge)),
    },
];

fn is_fault(fault: &Option<ScaleFault<'_>>, expected: &Option<(&[u8], ScaleKind)>) -> bool {
    match (fault, expected) {
        (None, None) => true,
        (Some(fault), Some((name, kind))) => fault.kind == *kind && is_named(&fault.name, name),
        _ => false,
    }
}

fn faults_so(alloc: Global, raw: &RawLibrary<'_, Global>, scaling: &Scaling) -> bool {
    let units = scaling.units;
    0 < units && units <= UNITS_LIMIT && is_fault(&fault_at(alloc, raw, units), &scaling.fault)
}

fn reads_so(alloc: Global, text: &str, scaling: &Scaling) -> bool {
    match read_lefs(alloc, &[text.as_bytes()]) {
        Ok(raw) => faults_so(alloc, &raw, scaling),
        Err(_) => false,
    }
}

fn is_scaled_so(alloc: Global, scaling: &Scaling) -> bool {
    match changed(alloc, scaling.from, scaling.to) {
        Ok(text) => reads_so(alloc, &text, scaling),
        Err(_) => false,
    }
}

#[test]
fn lengths_off_the_units_or_the_limit_are_reported(rt: HostRuntime) {
    for scaling in &SCALINGS {
        assert!(rt; is_scaled_so(rt.alloc(), scaling), "at {}", scaling.to);
    }
}

// Whether the one site has a height of two microns.
fn is_two_microns_high(library: &Library<'_, Global>) -> bool {
    match library.sites() {
        [site] => site.size.height() == i64::from(library.units()) * 2,
        _ => false,
    }
}

fn is_scaled_at_each(alloc: Global, raw: &RawLibrary<'_, Global>) -> bool {
    fault_at(alloc, raw, 1).is_some()
        && passes_at(alloc, raw, 100, is_two_microns_high)
        && passes_at(alloc, raw, 1000, is_two_microns_high)
        && passes_at(alloc, raw, 2000, is_two_microns_high)
        && passes_at(alloc, raw, 20000, is_two_microns_high)
}

// The library that was read is as it was, and may be scaled again.
#[test]
fn a_library_is_scaled_more_than_once(rt: HostRuntime) {
    assert!(rt; reads(rt.alloc(), standard_library(), is_scaled_at_each));
}
