//! The library that the tests read, and how they do it.

ghost use Rattle.std.specs.Prelude.{◌≤◌};
ghost use Rattle.leg_lex.specs.declared.limits.TheConstants.{UNITS_LIMIT};

use leg_lex::Name;
use leg_lib::read_lefs;
use leg_lib_records::{Library, RawLibrary, ScaleFault};
use std::alloc::{AllocError, Global};

pub(super) fn standard_library() -> &'static str {
    "LAYER m1 TYPE ROUTING ; DIRECTION HORIZONTAL ; WIDTH 0.1 ; SPACING 0.1 ; END m1
LAYER v1 TYPE CUT ; SPACING 0.1 ; END v1
LAYER m2 TYPE ROUTING ; DIRECTION VERTICAL ; WIDTH 0.1 ; SPACING 0.1 ; END m2
VIA V12 DEFAULT LAYER m1 ; RECT -0.05 -0.05 0.05 0.05 ; LAYER v1 ; RECT -0.05 -0.05 0.05 0.05 ; LAYER m2 ; RECT -0.05 -0.05 0.05 0.05 ; END V12
SITE core CLASS CORE ; SIZE 0.2 BY 2.0 ; END core
MACRO INV CLASS CORE ; ORIGIN 0 0 ; SIZE 0.4 BY 2.0 ; SYMMETRY X Y ; SITE core ;
PIN A DIRECTION INPUT ; PORT LAYER m1 ; RECT 0.05 0.85 0.15 1.05 ; END END A
PIN Y DIRECTION OUTPUT ; PORT LAYER m1 ; RECT 0.25 0.85 0.35 1.05 ; END END Y
PIN VDD USE POWER ; PORT LAYER m1 ; RECT 0 1.9 0.4 2.1 ; END END VDD
PIN VSS USE GROUND ; PORT LAYER m1 ; RECT 0 -0.1 0.4 0.1 ; END END VSS
END INV
MACRO BLK CLASS BLOCK ; SIZE 0.4 BY 2.0 ; OBS LAYER m1 ; RECT 0.1 0.7 0.3 1.2 ; END END BLK
MACRO BLK2 CLASS BLOCK ; SIZE 0.4 BY 2.0 ; OBS LAYER m1 ; RECT 0.1 0.7 0.3 1.2 ; LAYER m2 ; RECT -0.3 0 0.7 2 ; END END BLK2
END LIBRARY
"
}

// Whether the library that the text denotes passes the test.
pub(super) fn reads(
    alloc: Global,
    text: &str,
    test: fn(Global, &RawLibrary<'_, Global>) -> bool,
) -> bool
    requires callable { IsAlwaysCallable test }
{
    match read_lefs(alloc, &[text.as_bytes()]) {
        Ok(raw) => test(alloc, &raw),
        Err(_) => false,
    }
}

// The text of the standard library with one part of it replaced.
pub(super) fn changed(alloc: Global, from: &str, to: &str) -> Result<String, AllocError> {
    standard_library().replacen(alloc, from, to, 1)
}

// Whether the changed library passes the test.
pub(super) fn reads_changed(
    alloc: Global,
    from: &str,
    to: &str,
    test: fn(Global, &RawLibrary<'_, Global>) -> bool,
) -> bool
    requires callable { IsAlwaysCallable test }
{
    match changed(alloc, from, to) {
        Ok(text) => reads(alloc, &text, test),
        Err(_) => false,
    }
}

// Whether the library at n units a micron has these units, and passes the test.
pub(super) fn passes_at(
    alloc: Global,
    raw: &RawLibrary<'_, Global>,
    n: u32,
    test: fn(&Library<'_, Global>) -> bool,
) -> bool
    requires above { 1 ≤ n }
    requires within { n ≤ UNITS_LIMIT }
    requires callable { IsAlwaysCallable test }
{
    match raw.at(alloc, n) {
        Ok(library) => library.units() == n && test(&library),
        Err(_) => false,
    }
}

// Why the library has no lengths at n units a micron, if it has none.
pub(super) fn fault_at<'a>(
    alloc: Global,
    raw: &RawLibrary<'a, Global>,
    n: u32,
) -> Option<ScaleFault<'a>>
    requires above { 1 ≤ n }
    requires within { n ≤ UNITS_LIMIT }
{
    raw.at(alloc, n).err()
}

pub(super) fn is_named(name: &Name<'_>, bytes: &[u8]) -> bool {
    name.bytes() == bytes
}
