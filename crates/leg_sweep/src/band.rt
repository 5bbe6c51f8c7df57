//! Bands: intervals of y in which items wait for later ones.

ghost use Rattle.std.specs.Prelude.{◌≡◌};
ghost use Rattle.leg_sweep.specs.Steps.Bands.{empty_band};

use std::alloc::Allocator;
use std::marker::Model;

/// The bands in which an item is, by their numbers: from the first to the last.
#[derive(Clone, Copy)]
pub(crate) struct BandRange {
    pub(crate) first: u32,
    pub(crate) last: u32,
}

/// The items of a band that wait for later ones, by their numbers.
#[derive(Drop)]
pub(crate) struct Band<A: Allocator> {
    /// How far apart along x two items of the band can be that make a pair.
    pub(crate) reach: u64,
    /// The items whose first band this is.
    pub(crate) begun: Vec<u32, A>,
    /// The items that are in a lower band too.
    pub(crate) passing: Vec<u32, A>,
}

impl<A: Allocator> Model for Band<A> {
    ghost use Rattle.leg_sweep.specs.Steps.Bands.{Waiting};

    ghost Value = { Waiting };

    ghost view = { λ b. record { reach = b.reach; begun = b.begun.items; passing = b.passing.items } };
}

impl<A: Allocator + Copy> Band<A> {
    /// A band in which no item waits.
    pub(crate) fn new(alloc: A, reach: u64) -> Band<A>
        ensures { result ≡ empty_band reach }
    {
        Band {
            reach,
            begun: Vec::new(alloc),
            passing: Vec::new(alloc),
        }
    }
}
