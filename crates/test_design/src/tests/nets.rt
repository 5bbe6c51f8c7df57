//! Nets: their terminals, and the pins of a design that no net lists.

use super::frame::says;
use leg_design_records::{Design, Net, Terminal};
use std::alloc::Global;

fn nets() -> &'static str {
    "DESIGN top ; UNITS DISTANCE MICRONS 1000 ; DIEAREA ( 0 0 ) ( 800 2000 ) ;
COMPONENTS 3 ; - u1 INV ; - u2 INV ; - f FILL ; END COMPONENTS
PINS 4 ; - a + NET n1 ; - b + NET P ; - c + NET none ; - d + NET P ; END PINS
SPECIALNETS 2 ; - P ( * VDD ) + USE POWER ; - n1 ( u1 A ) ; END SPECIALNETS
NETS 2 ; - n1 ( u1 Y ) ( u2 A ) ( u1 Y + SYNTHESIZED ) ( u1 A ) ; - n2 ( pin d ) + SOURCE NETLIST + USE \"SIGNAL\" ; END NETS
END DESIGN
"
}

fn is_net(net: &Net<'_, Global>, name: &[u8], terminals: &[Terminal]) -> bool {
    net.name.bytes() == name
        && net.terminals.as_slice() == terminals
        && net.wires.as_slice().is_empty()
}

fn is_used_as(net: &Net<'_, Global>, word: &[u8]) -> bool {
    match &net.usage {
        Some(usage) => usage.bytes() == word,
        None => false,
    }
}

fn has_nets(design: &Design<'_, Global>) -> bool {
    let [n1, n2] = design.nets() else {
        return false;
    };
    let y = Terminal::Comp {
        component: 0,
        pin: 1,
    };
    let next = Terminal::Comp {
        component: 1,
        pin: 0,
    };
    let a = Terminal::Comp {
        component: 0,
        pin: 0,
    };
    is_net(n1, b"n1", &[y, next, a, Terminal::Pin(0)])
        && n1.usage.is_none()
        && is_net(n2, b"n2", &[Terminal::Pin(3)])
        && is_used_as(n2, b"\"SIGNAL\"")
}

// A terminal counts once in its entry, and a lone pin goes to the net that it names.
#[test]
fn reads_terminals(rt: HostRuntime) {
    assert!(rt; says(rt.alloc(), nets(), has_nets));
}

fn has_special_nets(design: &Design<'_, Global>) -> bool {
    let [p, n1] = design.special() else {
        return false;
    };
    let all = [
        Terminal::Comp {
            component: 0,
            pin: 2,
        },
        Terminal::Comp {
            component: 1,
            pin: 2,
        },
        Terminal::Comp {
            component: 2,
            pin: 0,
        },
        Terminal::Pin(1),
    ];
    let a = Terminal::Comp {
        component: 0,
        pin: 0,
    };
    is_net(p, b"P", &all) && is_used_as(p, b"POWER") && is_net(n1, b"n1", &[a])
}

#[test]
fn reads_the_pins_of_all_components(rt: HostRuntime) {
    assert!(rt; says(rt.alloc(), nets(), has_special_nets));
}
