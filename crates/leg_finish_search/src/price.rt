//! What walks cost, in hundredths of a pitch, which is the commonest distance from one x value of a grid to the next. Sums that
//! would be too large stay at the greatest number.

use crate::congestion::Congestion;

/// A pitch.
pub(crate) const PITCH: u32 = 100;
/// A step by a via: what it saves in length, it costs in a contact.
pub(crate) const VIA: u32 = 3 * PITCH;
// At most so much is asked for each other net; without a limit the present outgrows the past, and the rounds stand still.
const GREATEST_PRESENT: u32 = 8 * PITCH;

/// What it costs to use an element: for each net that uses it now, and for each round at the end of which nets were in conflict there.
#[derive(Clone, Copy)]
pub(crate) struct Prices {
    present: u32,
    past: u32,
}

impl Prices {
    /// The prices of the first round.
    pub(crate) const FIRST: Prices = Prices {
        present: PITCH,
        past: 2 * PITCH,
    };

    /// No walk pays for an element that another net uses, and what was is forgotten.
    pub(crate) const TOO_HIGH: Prices = Prices {
        present: u32::MAX,
        past: 0,
    };

    /// The prices of the next round.
    pub(crate) fn raised(self) -> Prices {
        Prices {
            present: self
                .present
                .saturating_add(self.present / 2)
                .min(GREATEST_PRESENT),
            past: self.past,
        }
    }

    /// What it costs to use the element with this congestion.
    pub(crate) fn of(self, congestion: Congestion) -> u32 {
        let present = self.present.saturating_mul(u32::from(congestion.nets));
        let past = self.past.saturating_mul(u32::from(congestion.rounds));
        present.saturating_add(past)
    }
}
