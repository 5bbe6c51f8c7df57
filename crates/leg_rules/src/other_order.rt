//! In which order the entries of two designs stand.

/// In which sections the names of the entries stand in another order.
#[derive(Clone, Copy, PartialEq, Eq, Debug)]
pub struct OtherOrder {
    /// In `COMPONENTS`, by whose order a legaliser breaks ties.
    pub components: bool,
    /// In `NETS`, in whose order a router takes nets.
    pub nets: bool,
}
