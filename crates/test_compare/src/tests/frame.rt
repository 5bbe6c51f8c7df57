//! How the tests read two designs and compare them.

ghost use Rattle.std.specs.Prelude.{◌≡◌};

use leg_compare::{Difference, Verdict, differences, verdict_of};
use leg_design::read_def;
use leg_design_records::Design;
use leg_lib::read_lefs;
use leg_lib_records::{Library, RawLibrary};
use std::alloc::Global;
use test_texts::cells;

/// Whether the second text differs from the first in just these ways, and the verdict is this one.
pub(super) fn differ(
    alloc: Global,
    texts: (&str, &str),
    expected: &[Difference],
    verdict: Verdict,
) -> bool {
    match read_lefs(alloc, &[cells()]) {
        Ok(raw) => differ_under_raw(alloc, &raw, texts, expected, verdict),
        Err(_) => false,
    }
}

fn differ_under_raw(
    alloc: Global,
    raw: &RawLibrary<'_, Global>,
    texts: (&str, &str),
    expected: &[Difference],
    verdict: Verdict,
) -> bool {
    match raw.at(alloc, 1000) {
        Ok(library) => differ_under(alloc, &library, texts, expected, verdict),
        Err(_) => false,
    }
}

fn differ_under(
    alloc: Global,
    library: &Library<'_, Global>,
    texts: (&str, &str),
    expected: &[Difference],
    verdict: Verdict,
) -> bool {
    let first = read_def(alloc, library, texts.0.as_bytes());
    let second = read_def(alloc, library, texts.1.as_bytes());
    match first {
        Ok(first) => match second {
            Ok(second) => {
                first.fits(second.library()) && are(alloc, &first, &second, expected, verdict)
            }
            Err(_) => false,
        },
        Err(_) => false,
    }
}

fn are(
    alloc: Global,
    first: &Design<'_, Global>,
    second: &Design<'_, Global>,
    expected: &[Difference],
    verdict: Verdict,
) -> bool
    requires { first.now.library ≡ second.now.library }
{
    match differences(alloc, first, second) {
        Ok(list) => { list.as_slice() == expected && verdict_of(first, list.as_slice()) == verdict }
        Err(_) => false,
    }
}
