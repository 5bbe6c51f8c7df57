//! How much an element of the grid is asked for.

/// How much an element of the grid is asked for: a node, or a step up by a via.
#[derive(Clone, Copy)]
pub(crate) struct Congestion {
    /// How many nets have metal that is in conflict with it, or is its own.
    pub(crate) nets: u16,
    /// How many rounds ended with a conflict there.
    pub(crate) rounds: u16,
}

impl Congestion {
    /// Nobody asks for it.
    pub(crate) const NONE: Congestion = Congestion { nets: 0, rounds: 0 };

    /// One net more.
    pub(crate) fn taken(self) -> Congestion {
        Congestion {
            nets: self.nets.saturating_add(1),
            ..self
        }
    }

    /// One net less.
    pub(crate) fn given_up(self) -> Congestion {
        Congestion {
            nets: self.nets.saturating_sub(1),
            ..self
        }
    }

    /// One round more.
    pub(crate) fn fought_over(self) -> Congestion {
        Congestion {
            rounds: self.rounds.saturating_add(1),
            ..self
        }
    }
}
