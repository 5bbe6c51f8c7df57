//! How the parts of a design are named, by their numbers.

ghost use Rattle.std.specs.Prelude.{◌≡◌, option_map};
ghost use Rattle.leg_design_records.specs.Names.{design_via, via_name, component_name, component_pin_name, design_pin_name, terminal_names, net_name, net_section};
ghost use Rattle.leg_design_records.specs.WellFormed.{IsWellFormed};

use crate::design::Design;
use crate::records::Terminal;
use leg_lib_records::Via;
use std::alloc::Allocator;

impl<'a, A: Allocator + Copy> Design<'a, A> {
    /// The via of this number: those of the library count first.
    pub fn via_numbered(&self, number: usize) -> Option<&Via<'a, A>>
        ensures is { option_map (λ via. via.now) result ≡ design_via self.now number }
        ensures proper { IsWellFormed self.now }
    {
        let of_library = self.library().vias();
        let of_design = self.vias();
        if number < of_library.len() {
            of_library.get(number)
        } else {
            of_design.get(number - of_library.len())
        }
    }

    /// The name of the via of this number; empty where there is none.
    pub fn via_name(&self, number: usize) -> &[u8]
        ensures { result.now ≡ via_name self.now number }
    {
        match self.via_numbered(number) {
            Some(via) => via.name.bytes(),
            None => b"",
        }
    }

    /// The name of the component of this number; empty where there is none.
    pub fn component_name(&self, number: u32) -> &[u8]
        ensures { result.now ≡ component_name self.now number }
    {
        match self.components().get(number as usize) {
            Some(component) => component.name.bytes(),
            None => b"",
        }
    }

    /// The name of a pin of a component, both by their numbers; empty where there is none.
    pub fn component_pin_name(&self, component: u32, pin: usize) -> &[u8]
        ensures { result.now ≡ component_pin_name self.now component pin }
    {
        let Some(component) = self.components().get(component as usize) else {
            return b"";
        };
        let Some(master) = self.library().masters().get(component.master) else {
            return b"";
        };
        match master.pins.as_slice().get(pin) {
            Some(pin) => pin.name.bytes(),
            None => b"",
        }
    }

    /// The name of the pin of the design of this number; empty where there is none.
    pub fn pin_name(&self, number: u32) -> &[u8]
        ensures { result.now ≡ design_pin_name self.now number }
    {
        match self.pins().get(number as usize) {
            Some(pin) => pin.name.bytes(),
            None => b"",
        }
    }

    /// The two words that name a terminal: a component and its pin, or `PIN` and a pin of the design.
    pub fn terminal_names(&self, terminal: &Terminal) -> (&[u8], &[u8])
        ensures first { result.0.now ≡ (terminal_names self.now terminal.now).0 }
        ensures second { result.1.now ≡ (terminal_names self.now terminal.now).1 }
    {
        match terminal {
            Terminal::Comp { component, pin } => (
                self.component_name(*component),
                self.component_pin_name(*component, *pin),
            ),
            Terminal::Pin(number) => (b"PIN", self.pin_name(*number)),
        }
    }

    /// The name of the net of this number: entries of `NETS` count first. Empty where there is none.
    pub fn net_name(&self, number: u32) -> &[u8]
        ensures { result.now ≡ net_name self.now number }
    {
        let (number, regular) = (number as usize, self.nets().len());
        let net = if number < regular {
            self.nets().get(number)
        } else {
            self.special().get(number - regular)
        };
        match net {
            Some(net) => net.name.bytes(),
            None => b"",
        }
    }
}

/// The word of the section that has these nets: `SPECIALNETS` or `NETS`.
pub fn net_section(special: bool) -> &'static [u8]
    ensures { result.now ≡ net_section special }
{
    if special { b"SPECIALNETS" } else { b"NETS" }
}
