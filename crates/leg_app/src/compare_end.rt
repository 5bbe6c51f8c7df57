//! How a comparison of two DEFs ended.

ghost use Rattle.std.specs.Prelude.{◌≡◌, false};

use crate::status::Status;
use leg_app_reason::Reason;
use leg_compare::OtherOrder;
use std::alloc::Allocator;

/// One of the two DEFs of a comparison.
#[derive(Clone, Copy, PartialEq, Eq, Debug)]
pub enum Side {
    /// The first.
    Before,
    /// The second.
    After,
}

/// Why two DEFs are not compared.
#[derive(Drop)]
pub struct ComparisonReason<'a, A: Allocator> {
    /// The DEF at which the comparison stopped. It is the first where a LEF is not read.
    pub side: Side,
    /// Why it stopped. Either DEF has the number after the LEFs in it.
    pub reason: Reason<'a, A>,
}

/// What `compare` answers: a text to be written, the status that goes with it, the reason where nothing is compared, and what it tells of
/// the order of entries.
#[derive(Drop)]
pub struct ComparisonAnswer<'a, A: Allocator> {
    /// How the comparison ended: `Success` where nothing differs, `Violations` where something does, else `Refused`.
    pub status: Status,
    /// The whole text.
    pub text: Vec<u8, A>,
    /// Why the DEFs are not compared, if so.
    pub reason: Option<ComparisonReason<'a, A>>,
    /// Where nothing differs: whether the entries of `COMPONENTS` and of `NETS` stand in another order. Else it tells of none.
    pub order: OtherOrder,
}

/// How a run of `compare` ended.
#[derive(Drop)]
pub struct ComparisonEnd<'a, A: Allocator> {
    /// Its status.
    pub status: Status,
    /// Why the DEFs are not compared, if so.
    pub reason: Option<ComparisonReason<'a, A>>,
    /// Where nothing differs: whether the entries of `COMPONENTS` and of `NETS` stand in another order. Else it tells of none.
    pub order: OtherOrder,
}

/// That no entries stand in another order.
pub(crate) fn one_order() -> OtherOrder
    ensures { result ≡ record { components = false; nets = false } }
{
    OtherOrder {
        components: false,
        nets: false,
    }
}
