//! What can differ between two designs.

/// What a design has once.
#[derive(Clone, Copy, PartialEq, Eq, Debug)]
pub enum Part {
    /// The name of the design.
    Name,
    /// The word after `DIVIDERCHAR`, or that there is none.
    Divider,
    /// The word after `BUSBITCHARS`, or that there is none.
    BusBits,
    /// The area of the die.
    Die,
    /// The rows, in their order.
    Rows,
    /// The tracks, in their order.
    Tracks,
    /// The blockages, in their order.
    Blockages,
}

/// A section whose entries have names, no two of one name.
#[derive(Clone, Copy, PartialEq, Eq, Debug)]
pub enum Section {
    Vias,
    Components,
    Pins,
    SpecialNets,
    Nets,
}

/// What can differ between two entries of one name.
#[derive(Clone, Copy, PartialEq, Eq, Debug)]
pub enum Change {
    /// The shapes of a via.
    Shapes,
    /// The macro of a component.
    Macro,
    /// Whether a component may be moved: it is `FIXED` or `COVER` in one design and neither in the other, or `FIXED` in one and
    /// `COVER` in the other.
    Status,
    /// Where a component is, or whether it has a place.
    Place,
    /// The net that a pin names.
    NetName,
    /// The word after `DIRECTION` of a pin.
    Direction,
    /// The word after `USE` of a pin or a net.
    Usage,
    /// The ports of a pin, in their order.
    Ports,
    /// The terminals of a net, in their order.
    Terminals,
    /// The second net does not begin with the wires of the first.
    LostWires,
    /// The second net has the wires of the first, and then more.
    MoreWires,
}

/// A difference between a first and a second design. Entries are given by their numbers, from 0.
#[derive(Clone, Copy, PartialEq, Eq, Debug)]
pub enum Difference {
    /// The designs differ in this part.
    Whole(Part),
    /// The entry of the first design has no entry of its name in the second.
    Gone(Section, usize),
    /// The entry of the first design has one of its name in the second, and they differ so.
    Changed(Section, Change, usize),
    /// The entry of the second design has no entry of its name in the first.
    Added(Section, usize),
}

/// What all differences of two designs are together.
#[derive(Clone, Copy, PartialEq, Eq, Debug)]
pub enum Verdict {
    /// There are none.
    Same,
    /// So many, and each is the place of a movable component.
    Places(usize),
    /// So many, and in each an entry of `NETS` has wires more.
    Wires(usize),
    /// So many of the first kind, and so many of the second.
    PlacesAndWires(usize, usize),
    /// So many, of which some are of neither kind.
    Differs(usize),
}
