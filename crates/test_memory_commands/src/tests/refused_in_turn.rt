//! Checks, commands and the comparison of two designs, each allocation of which is refused in turn.

use super::checks::CheckCall;
use super::{are_commands_right, comparisons, is_check_right, texts};
use test_alloc::RefusingAlloc;
use test_texts::{
    around_an_obstruction, every_form, in_a_blockage, net_at_one_place, two_at_one_place,
};

#[test]
fn checks_of_texts_without_memory(rt: HostRuntime) {
    let refusing = &RefusingAlloc::new(rt.alloc());
    for def in [
        two_at_one_place(),
        around_an_obstruction(),
        net_at_one_place(),
    ] {
        assert!(rt; texts::goes_right(refusing, refusing, def));
    }
}

#[test]
fn a_check_of_every_form_without_memory(rt: HostRuntime) {
    let refusing = &RefusingAlloc::new(rt.alloc());
    assert!(rt; texts::goes_right(refusing, refusing, every_form()));
}

#[test]
fn checks_without_memory(rt: HostRuntime) {
    let refusing = &RefusingAlloc::new(rt.alloc());
    for def in [
        two_at_one_place(),
        around_an_obstruction(),
        net_at_one_place(),
        every_form(),
    ] {
        assert!(rt; is_check_right(refusing, refusing, CheckCall::CheckDesign, def));
        assert!(rt; is_check_right(refusing, refusing, CheckCall::PrintFaults, def));
    }
}

#[test]
fn commands_on_cells_at_one_place_without_memory(rt: HostRuntime) {
    let refusing = &RefusingAlloc::new(rt.alloc());
    assert!(rt; are_commands_right(refusing, rt.alloc(), refusing, two_at_one_place()));
}

#[test]
fn commands_on_a_net_at_one_place_without_memory(rt: HostRuntime) {
    let refusing = &RefusingAlloc::new(rt.alloc());
    assert!(rt; are_commands_right(refusing, rt.alloc(), refusing, net_at_one_place()));
}

#[test]
fn commands_around_an_obstruction_without_memory(rt: HostRuntime) {
    let refusing = &RefusingAlloc::new(rt.alloc());
    assert!(rt; are_commands_right(refusing, rt.alloc(), refusing, around_an_obstruction()));
}

#[test]
fn commands_in_a_blockage_without_memory(rt: HostRuntime) {
    let refusing = &RefusingAlloc::new(rt.alloc());
    assert!(rt; are_commands_right(refusing, rt.alloc(), refusing, in_a_blockage()));
}

#[test]
fn comparisons_without_memory(rt: HostRuntime) {
    let refusing = &RefusingAlloc::new(rt.alloc());
    assert!(rt; comparisons::goes_right(refusing, rt.alloc(), refusing));
}
