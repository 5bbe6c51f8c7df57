//! Calls that are given a design, and the differences of two, each allocation of which is refused in turn.

use super::changes::Change;
use super::wires::WireCall;
use super::{Trial, comparisons, goes_right, two_nets};
use test_alloc::RefusingAlloc;
use test_memory::library_of_cells;
use test_texts::{
    around_an_obstruction, around_blockages, in_a_blockage, net_at_one_place, two_at_one_place,
};

#[test]
fn a_legaliser_without_memory(rt: HostRuntime) {
    let refusing = &RefusingAlloc::new(rt.alloc());
    for def in [two_at_one_place(), net_at_one_place()] {
        assert!(rt;
            goes_right(
                refusing,
                refusing,
                Trial::Give(Change::Legalise(&[0, 400])),
                def
            )
        );
    }
    assert!(rt;
        goes_right(
            refusing,
            refusing,
            Trial::Give(Change::Legalise(&[0, 0, 0])),
            around_an_obstruction()
        )
    );
    assert!(rt;
        goes_right(
            refusing,
            refusing,
            Trial::Give(Change::Legalise(&[0, 200])),
            in_a_blockage()
        )
    );
}

#[test]
fn a_router_without_memory(rt: HostRuntime) {
    let refusing = &RefusingAlloc::new(rt.alloc());
    for def in [around_an_obstruction(), around_blockages()] {
        assert!(rt; goes_right(refusing, refusing, Trial::Give(Change::Route(0)), def));
    }
    // The inverters overlap, and so does the metal of their two signal pins.
    for def in [two_at_one_place(), net_at_one_place()] {
        assert!(rt; goes_right(refusing, refusing, Trial::Give(Change::Route(3)), def));
    }
    // The second inverter is in a blockage, and its pin touches another one.
    assert!(rt;
        goes_right(
            refusing,
            refusing,
            Trial::Give(Change::Route(2)),
            in_a_blockage()
        )
    );
}

#[test]
fn a_router_that_finishes_without_memory(rt: HostRuntime) {
    let refusing = &RefusingAlloc::new(rt.alloc());
    for def in [around_an_obstruction(), around_blockages()] {
        assert!(rt; goes_right(refusing, refusing, Trial::Give(Change::Finish(0)), def));
    }
    // The inverters overlap, and so does the metal of their two signal pins.
    for def in [two_at_one_place(), net_at_one_place()] {
        assert!(rt; goes_right(refusing, refusing, Trial::Give(Change::Finish(3)), def));
    }
}

#[test]
fn nets_get_wires_without_memory(rt: HostRuntime) {
    let refusing = &RefusingAlloc::new(rt.alloc());
    for call in [WireCall::WithWires, WireCall::WithAllWires] {
        for def in [around_an_obstruction(), net_at_one_place()] {
            assert!(rt; goes_right(refusing, refusing, Trial::Wire(call), def));
        }
        assert!(rt; goes_right(refusing, refusing, Trial::TwoNets(call), two_nets::TEXT));
    }
}

#[test]
fn differences_without_memory(rt: HostRuntime) {
    let refusing = &RefusingAlloc::new(rt.alloc());
    let library = &library_of_cells(refusing).expect(&rt, "memory");
    assert!(rt; comparisons::are_told(refusing, refusing, library));
}
