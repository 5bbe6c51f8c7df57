//! What a net can use of the lattice.

/// What a net can use of the lattice: the node of a slot, or the step up from it by a via.
#[derive(Clone, Copy, PartialEq, Eq, Debug)]
pub enum Element {
    Node,
    Via,
}
