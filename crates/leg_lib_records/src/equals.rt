//! Libraries that are equal.

ghost use Rattle.std.specs.Prelude.{◌≡◌, ◌↔◌, IsTrue};

use crate::library::Library;
use std::alloc::Allocator;

impl<'a, A: Allocator + Copy> Library<'a, A> {
    /// Whether both libraries are equal.
    pub fn equals(&self, other: &Library<'_, A>) -> bool
        ensures { IsTrue result ↔ (self.now ≡ other.now) }
    {
        self.has_units(other.units)
            && self.has_layers(other)
            && self.has_sites(other)
            && self.has_vias(other)
            && self.has_masters(other)
            && self.has_rules(other)
    }

    /// Whether a micron has this many database units.
    fn has_units(&self, units: u32) -> bool
        ensures { IsTrue result ↔ (self.now.units ≡ units) }
    {
        self.units == units
    }

    /// Whether the layers are those of the other library.
    fn has_layers(&self, other: &Library<'_, A>) -> bool
        ensures { IsTrue result ↔ (self.now.layers ≡ other.now.layers) }
    {
        *self.layers.as_vec() == *other.layers.as_vec()
    }

    /// Whether the sites are those of the other library.
    fn has_sites(&self, other: &Library<'_, A>) -> bool
        ensures { IsTrue result ↔ (self.now.sites ≡ other.now.sites) }
    {
        *self.sites.as_vec() == *other.sites.as_vec()
    }

    /// Whether the vias are those of the other library.
    fn has_vias(&self, other: &Library<'_, A>) -> bool
        ensures { IsTrue result ↔ (self.now.vias ≡ other.now.vias) }
    {
        *self.vias.as_vec() == *other.vias.as_vec()
    }

    /// Whether the masters are those of the other library.
    fn has_masters(&self, other: &Library<'_, A>) -> bool
        ensures { IsTrue result ↔ (self.now.masters ≡ other.now.masters) }
    {
        *self.masters.as_vec() == *other.masters.as_vec()
    }

    /// Whether the nondefault rules are those of the other library.
    fn has_rules(&self, other: &Library<'_, A>) -> bool
        ensures { IsTrue result ↔ (self.now.rules ≡ other.now.rules) }
    {
        *self.rules.as_vec() == *other.rules.as_vec()
    }
}
