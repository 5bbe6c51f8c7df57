//! Pins of the design that no net lists (lefdef's own rule).

ghost use Rattle.std.specs.Prelude.{◌≡◌, ◌+◌, ◌<◌, ◌≤◌, length, OnOk};
ghost use Rattle.leg_design_records.specs.declared.limits.TheConstants.{ENTRY_LIMIT, PART_LIMIT};
ghost use Rattle.leg_design_records.specs.Records.{terminal_count};
ghost use Rattle.leg_grammar.specs.Def.LonePins.{with_lone_pin, with_lone_pins};

use crate::net_table::NetTable;
use leg_design_records::{Pin, Terminal};
use std::alloc::{AllocError, Allocator};

/// Appends the pin of this number, if no entry lists it, to the entry of the net that its `+ NET` names.
#[tactic(auto, unfolding(leg_grammar::specs::Def::LonePins::with_lone_pin))]
fn add_lone_pin<'a, A: Allocator + Copy>(
    number: usize,
    pin: &Pin<'a, A>,
    nets: &mut NetTable<'a, A>,
    special: &mut NetTable<'a, A>,
) -> Result<(), AllocError>
    requires number { number < ENTRY_LIMIT }
    requires few { terminal_count nets.old + terminal_count special.old ≤ PART_LIMIT + ENTRY_LIMIT }
    ensures { OnOk result (record { nets = nets.new; special = special.new }
        ≡ with_lone_pin (record { nets = nets.old; special = special.old }) number pin.now) }
{
    let terminal = Terminal::Pin(number as u32);
    if nets.is_listed(&terminal) || special.is_listed(&terminal) {
        return Ok(());
    }
    let Some(name) = &pin.net_name else {
        return Ok(());
    };
    if let Some(entry) = nets.place_of(name.bytes()) {
        nets.push_terminal(entry, terminal)?;
    } else if let Some(entry) = special.place_of(name.bytes()) {
        special.push_terminal(entry, terminal)?;
    }
    Ok(())
}

/// Appends each pin that no entry lists to the entry of the net that its `+ NET` names: to that of `NETS`, and where
/// there is none to that of `SPECIALNETS`.
#[tactic(auto, using(crate::proofs::LonePins::all_added))]
pub fn add_lone_pins<'a, A: Allocator + Copy>(
    pins: &[Pin<'a, A>],
    nets: &mut NetTable<'a, A>,
    special: &mut NetTable<'a, A>,
) -> Result<(), AllocError>
    requires pins { length pins.now ≤ ENTRY_LIMIT }
    requires few { terminal_count nets.old + terminal_count special.old ≤ PART_LIMIT }
    ensures { OnOk result (record { nets = nets.new; special = special.new }
        ≡ with_lone_pins (record { nets = nets.old; special = special.old }) 0 pins.now) }
{
    for (number, pin) in pins.iter().enumerate() {
        add_lone_pin(number, pin, nets, special)?;
    }
    Ok(())
}
