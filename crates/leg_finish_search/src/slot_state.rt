//! What is kept of a slot while nets are routed.

use crate::congestion::Congestion;

/// From where the cheapest way found so far enters a slot.
#[derive(Clone, Copy, PartialEq, Eq, Debug)]
pub(crate) enum Origin {
    /// None has been found.
    Nowhere,
    /// It begins there.
    Itself,
    West,
    East,
    South,
    North,
    Below,
    Above,
}

/// What is kept of a slot. (Sixteen bytes, since there are many.)
#[derive(Clone, Copy)]
pub(crate) struct SlotState {
    /// What the cheapest way costs that the current search has found to its node.
    pub(crate) cost: u32,
    pub(crate) node: Congestion,
    /// That of the step up.
    pub(crate) via: Congestion,
    /// From where that way enters it.
    pub(crate) origin: Origin,
    /// Whether it is a node of the net that is routed, which may still have to be joined.
    pub(crate) is_end: bool,
    /// Whether its node, and the step up, are in the list that is being made.
    pub(crate) has_node: bool,
    pub(crate) has_via: bool,
}

impl SlotState {
    /// Nothing is known of it.
    pub(crate) const NEW: SlotState = SlotState {
        cost: u32::MAX,
        node: Congestion::NONE,
        via: Congestion::NONE,
        origin: Origin::Nowhere,
        is_end: false,
        has_node: false,
        has_via: false,
    };
}
