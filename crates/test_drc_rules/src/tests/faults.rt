//! What is refused, and where.

use super::frame::fault;
use leg_lex::FaultKind;
use std::alloc::Global;

// Whether the second of two texts is refused for this at this line.
fn is_refused(alloc: Global, text: &str, line: u32, kind: FaultKind) -> bool {
    match fault(alloc, &[b"VERSION 5.8 ;".as_slice(), text.as_bytes()]) {
        Some(fault) => fault.file == 1 && fault.line == line && fault.kind == kind,
        None => false,
    }
}

#[test]
fn a_word_in_the_place_of_a_number_is_refused_at_its_line(rt: HostRuntime) {
    let kind = FaultKind::BadNumber;
    assert!(rt; is_refused(rt.alloc(), "LAYER m1\nAREA\n1e3 ;\nEND m1", 3, kind));
    assert!(rt; is_refused(rt.alloc(), "LAYER m1\nMINWIDTH w ;\nEND m1", 2, kind));
    assert!(rt; is_refused(rt.alloc(), "LAYER v1\nSPACING x SAMENET ;\nEND v1", 2, kind));
    assert!(rt;
        is_refused(
            rt.alloc(),
            "LAYER m1 SPACING 1 ENDOFLINE 2\nWITHIN z ; END m1",
            2,
            kind
        )
    );
    assert!(rt;
        is_refused(
            rt.alloc(),
            "LAYER m1 SPACINGTABLE PARALLELRUNLENGTH 0\nWIDTH 0 q ; END m1",
            2,
            kind
        )
    );
    assert!(rt; is_refused(rt.alloc(), "\n\nMANUFACTURINGGRID g ;", 3, kind));
}

#[test]
fn a_number_below_0_or_beyond_the_limit_is_too_large(rt: HostRuntime) {
    let kind = FaultKind::TooLarge;
    assert!(rt; is_refused(rt.alloc(), "LAYER m1\nAREA -1 ;\nEND m1", 2, kind));
    assert!(rt; is_refused(rt.alloc(), "LAYER m1\nAREA 2000000000.1 ;\nEND m1", 2, kind));
}

#[test]
fn a_text_without_words_is_refused(rt: HostRuntime) {
    assert!(rt; is_refused(rt.alloc(), "LAYER m1 ;\n\"", 2, FaultKind::UnclosedString));
}

#[test]
fn no_other_text_is_refused(rt: HostRuntime) {
    assert!(rt;
        fault(
            rt.alloc(),
            &[
                b"END END LAYER LAYER m1 AREA x END ; AREA ; LAYER nowhere AREA x ; END nowhere".as_slice()
            ]
        )
        .is_none()
    );
    assert!(rt; fault(rt.alloc(), &[b"".as_slice()]).is_none());
}
