//! How long a negotiation may go on.

/// When a negotiation is given up: own figures of lefdef, with which blocks that can be finished were.
#[derive(Clone, Copy, PartialEq, Eq, Debug)]
pub struct Budget {
    /// How many rounds there are at most.
    pub rounds: u32,
    /// How many rounds one after another may leave as many nets in conflict as the best one before them.
    pub patience: u32,
    /// How many slots all searches together look at.
    pub looks: u64,
}

impl Budget {
    /// Of blocks that were finished, the one of 22,389 nets took 164 rounds, and none waited longer than 52 rounds for a better one.
    pub const DEFAULT: Budget = Budget {
        rounds: 500,
        patience: 60,
        looks: 1 << 40,
    };
}
