//! Where slots lie, as walks pay for the way from one to another.

/// Where a slot lies, as walks pay for it.
#[derive(Clone, Copy)]
pub(crate) struct Place {
    pub(crate) level: usize,
    pub(crate) x: u32,
    pub(crate) y: u32,
}

/// A box around places.
#[derive(Clone, Copy)]
pub(crate) struct PlaceBox {
    pub(crate) low: Place,
    pub(crate) high: Place,
}

/// How far a place lies outside of a stretch.
pub(crate) fn outside(low: u32, high: u32, place: u32) -> u32 {
    low.saturating_sub(place).max(place.saturating_sub(high))
}

impl Place {
    /// How far it is to the other one along the lines of the lattice.
    pub(crate) fn distance(self, other: Place) -> u32 {
        self.x
            .abs_diff(other.x)
            .saturating_add(self.y.abs_diff(other.y))
    }
}

impl PlaceBox {
    /// The box of one place.
    pub(crate) fn of(place: Place) -> PlaceBox {
        PlaceBox {
            low: place,
            high: place,
        }
    }

    /// The least box around this one and the place.
    pub(crate) fn with(self, place: Place) -> PlaceBox {
        PlaceBox {
            low: Place {
                level: self.low.level.min(place.level),
                x: self.low.x.min(place.x),
                y: self.low.y.min(place.y),
            },
            high: Place {
                level: self.high.level.max(place.level),
                x: self.high.x.max(place.x),
                y: self.high.y.max(place.y),
            },
        }
    }

    /// Its middle.
    pub(crate) fn middle(self) -> Place {
        Place {
            level: self.low.level,
            x: self.low.x.midpoint(self.high.x),
            y: self.low.y.midpoint(self.high.y),
        }
    }

    /// Its width and its height together.
    pub(crate) fn half_perimeter(self) -> u32 {
        self.low.distance(self.high)
    }
}
