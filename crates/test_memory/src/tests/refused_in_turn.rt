//! Calls that are lent what they work on, each allocation of which is refused in turn.

use super::designs::DesignCall;
use super::texts::{self, TextCall};
use super::{Trial, goes_right};
use test_alloc::RefusingAlloc;
use test_texts::{
    around_an_obstruction, cells, every_form, net_at_one_place, two_at_one_place, wired,
};

#[test]
fn texts_without_memory(rt: HostRuntime) {
    let refusing = &RefusingAlloc::new(rt.alloc());
    for def in [
        two_at_one_place(),
        around_an_obstruction(),
        net_at_one_place(),
        every_form(),
    ] {
        assert!(rt; texts::goes_right(refusing, refusing, TextCall::Tokens, def));
        assert!(rt; texts::goes_right(refusing, refusing, TextCall::DefUnits, def));
        assert!(rt; goes_right(refusing, refusing, Trial::Read, def));
    }
}

#[test]
fn libraries_without_memory(rt: HostRuntime) {
    let refusing = &RefusingAlloc::new(rt.alloc());
    assert!(rt; texts::goes_right(refusing, refusing, TextCall::ReadLefs, cells()));
    assert!(rt; texts::goes_right(refusing, refusing, TextCall::At, cells()));
}

#[test]
fn metal_without_memory(rt: HostRuntime) {
    let refusing = &RefusingAlloc::new(rt.alloc());
    for def in [
        two_at_one_place(),
        around_an_obstruction(),
        net_at_one_place(),
        every_form(),
    ] {
        assert!(rt; goes_right(refusing, refusing, Trial::Lend(DesignCall::Flatten), def));
    }
    for def in [two_at_one_place(), net_at_one_place(), every_form()] {
        assert!(rt;
            goes_right(
                refusing,
                refusing,
                Trial::Lend(DesignCall::SpacingFaults),
                def
            )
        );
    }
}

#[test]
fn nets_without_memory(rt: HostRuntime) {
    let refusing = &RefusingAlloc::new(rt.alloc());
    for def in [
        around_an_obstruction(),
        net_at_one_place(),
        wired(),
        every_form(),
    ] {
        assert!(rt; goes_right(refusing, refusing, Trial::Lend(DesignCall::Joined), def));
        assert!(rt; goes_right(refusing, refusing, Trial::Lend(DesignCall::Groups), def));
        assert!(rt; goes_right(refusing, refusing, Trial::Lend(DesignCall::OpenFaults), def));
        assert!(rt; goes_right(refusing, refusing, Trial::Lend(DesignCall::AddWire), def));
    }
}

#[test]
fn placement_and_printed_text_without_memory(rt: HostRuntime) {
    let refusing = &RefusingAlloc::new(rt.alloc());
    for def in [
        two_at_one_place(),
        around_an_obstruction(),
        net_at_one_place(),
        every_form(),
    ] {
        assert!(rt;
            goes_right(
                refusing,
                refusing,
                Trial::Lend(DesignCall::PlaceFaults),
                def
            )
        );
        assert!(rt; goes_right(refusing, refusing, Trial::Lend(DesignCall::PrintDef), def));
    }
}
