//! Why a command stops.

use leg_lex::ReadFault;
use leg_lib_records::{Items, ScaleFault};
use std::alloc::Allocator;

/// Which design is to be routed.
#[derive(Clone, Copy, PartialEq, Eq, Debug)]
pub enum Stage {
    /// The one that the texts denote.
    Given,
    /// The one that came of legalising it.
    Legalised,
}

/// Why a command prints no design, list or length.
#[derive(Drop)]
pub enum Reason<'a, A: Allocator> {
    /// A text isn't read: LEFs count from 0 in turn, and the DEF is next. Where the fault needs a pin of a macro, which it gives by its
    /// number, the macro's name comes with it.
    Read(ReadFault, Option<Items<u8, A>>),
    /// No LEF ends in standard input.
    NoLibrary,
    /// A length of the library isn't one in the units of the DEF, of which so many are a micron.
    Scale(ScaleFault<'a>, u32),
    /// The block has, or would get, more shapes than are judged.
    TooMany,
    /// Components that are not moved are not legally placed.
    FixedIllegal,
    /// The component of this name fits no row.
    NoSite(Items<u8, A>),
    /// No position was free for the component of this name at its turn.
    NoRoom(Items<u8, A>),
    /// The design that is to be routed has violations other than open nets.
    NotClean(Stage),
    /// There are more tracks, or more slots of the grid of tracks, than this limit.
    GridTooLarge(u64),
    /// No open walk leads on for the net of this name at its turn. Where one of its pieces cannot be reached whatever other nets do, the
    /// first such piece comes with it, named as in the line of an open net.
    Unroutable(Items<u8, A>, Option<Items<u8, A>>),
    /// In the net of this name this piece cannot be reached whatever other nets do.
    Unreachable(Items<u8, A>, Items<u8, A>),
    /// Some nets are still open.
    Unfinished,
}
