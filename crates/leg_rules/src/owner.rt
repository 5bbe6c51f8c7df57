//! Whose metal a shape is.

ghost use Rattle.std.specs.Prelude.{◌↔◌, IsTrue};
ghost use Rattle.leg_rules.specs.Metal.Owner.{IsObstruction};

use leg_design_records::Terminal;

/// Whose metal a shape is. Shapes of one owner may touch.
#[derive(Clone, Copy, PartialEq, Eq, Debug)]
pub enum Owner {
    /// A net, by its number: the place of its entry of `NETS`. That of a net that is in `SPECIALNETS` alone is the
    /// number of entries of `NETS` and the place of its entry of `SPECIALNETS` together.
    Net(u32),
    /// A terminal in no net.
    Lone(Terminal),
    /// The power supply: all pins of macros in no net whose `USE` is `POWER`.
    Power,
    /// The ground: all pins of macros in no net whose `USE` is `GROUND`.
    Ground,
    /// The obstructions of a component, by its number.
    Obs(u32),
    /// A blockage of a layer, by its number among the blockages of the design.
    Blocking(u32),
}

impl Owner {
    /// Whether these are obstructions of a component or a blockage. Two of them are not compared with one another.
    pub fn is_obstruction(self) -> bool
        ensures { IsTrue result ↔ IsObstruction self }
    {
        matches!(self, Owner::Obs(_) | Owner::Blocking(_))
    }
}
