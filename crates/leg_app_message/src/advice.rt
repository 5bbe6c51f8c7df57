//! What to do where a command stops without a design.

ghost use Rattle.std.specs.Prelude.{◌≡◌, ◌++◌, OnOk};
ghost use Rattle.leg_app_message.specs.Advice.{front_of, name_of, middle_of, limit_text, piece_of, end_of, advice_of};

use crate::text_line::push_shown_bytes;
use leg_app_reason::{Reason, Stage};
use leg_print_words::push_count;
use std::alloc::{AllocError, Allocator};

/// What is said first.
fn front_of<B: Allocator>(reason: &Reason<'_, B>) -> &'static [u8]
    ensures { result.now ≡ front_of reason.now }
{
    match reason {
        Reason::TooMany =>
            b"the block has, or would get, more than 4,000,000 shapes: take out what need not be judged, such as fillers (tools/drop-fillers), or take a part of it",
        Reason::FixedIllegal =>
            b"components that are not moved (FIXED, COVER, or of a macro without a SITE) are not legally placed: move those that are listed above, or make them PLACED; what fits no row needs a macro without a SITE (docs/RECIPES.md)",
        Reason::NoSite(_) => b"component ",
        Reason::NoRoom(_) => b"component ",
        Reason::NotClean(Stage::Given) =>
            b"only a block whose only violations are open nets is routed: repair those that are listed above, and run it again",
        Reason::NotClean(Stage::Legalised) =>
            b"only a block whose only violations are open nets is routed, and those that are listed above are of the legalised block: repair them in what legalise prints, and route that",
        Reason::GridTooLarge(_) => b"the grid of TRACKS is too large: all together may have ",
        Reason::Unroutable(_, None) => b"net ",
        Reason::Unroutable(_, Some(_)) => b"net ",
        Reason::Unreachable(_, _) => b"net ",
        Reason::Unfinished =>
            b"no legal wires were found that join these nets: they may be in one another's way, or a net may lie in parts that no way joins. Give the block more room (rows, tracks or layers), or another placement, or look for obstructions, blockages and wires of the block between the pieces of a net",
        _ => b"",
    }
}

/// The component or the net that is named then.
fn name_of<'r, B: Allocator>(reason: &'r Reason<'_, B>) -> &'r [u8]
    ensures { result.now ≡ name_of reason.now }
{
    match reason {
        Reason::NoSite(component) => component.as_slice(),
        Reason::NoRoom(component) => component.as_slice(),
        Reason::Unroutable(net, None) => net.as_slice(),
        Reason::Unroutable(net, Some(_)) => net.as_slice(),
        Reason::Unreachable(net, _) => net.as_slice(),
        _ => b"",
    }
}

/// What is said of it.
fn middle_of<B: Allocator>(reason: &Reason<'_, B>) -> &'static [u8]
    ensures { result.now ≡ middle_of reason.now }
{
    match reason {
        Reason::NoSite(_) =>
            b" fits no row: its macro has to be exactly as high as its SITE and a whole number of sites wide, and a ROW has to have that site. FIXED, it would be OFFSITE. Give a cell of several rows' height a SITE of its own, with rows of it, or its macro no SITE, so that it stays where it is (docs/RECIPES.md)",
        Reason::NoRoom(_) =>
            b": no free stretch of sites was long enough for it at its turn: take out fillers (tools/drop-fillers) or placement blockages, give the block more rows, or lower the utilisation",
        Reason::Unroutable(_, None) =>
            b": no way on the tracks was left at its turn, though with no other net routed a way leads from each of its pieces to another one. If wires that were laid before are in its way, try the command finish, which lays them again, or a lower density, or what tools/ease-routing makes of the block, with --first and the name of this net (docs/RECIPES.md). If it lies in parts that no way joins, look for obstructions, blockages and wires of the block between its pieces",
        Reason::Unroutable(_, Some(_)) => b": nothing leads from ",
        Reason::Unreachable(_, _) => b": nothing leads from ",
        _ => b"",
    }
}

/// Adds the limit that is told then, if one is.
fn push_limit<A: Allocator, B: Allocator>(
    message: &mut Vec<u8, A>,
    reason: &Reason<'_, B>,
) -> Result<(), AllocError>
    ensures { OnOk result (message.new.items ≡ message.old.items ++ limit_text reason.now) }
{
    match reason {
        Reason::GridTooLarge(limit) => push_count(message, *limit),
        _ => Ok(()),
    }
}

/// The piece of a net that is named then.
fn piece_of<'r, B: Allocator>(reason: &'r Reason<'_, B>) -> &'r [u8]
    ensures { result.now ≡ piece_of reason.now }
{
    match reason {
        Reason::Unroutable(_, Some(piece)) => piece.as_slice(),
        Reason::Unreachable(_, piece) => piece.as_slice(),
        _ => b"",
    }
}

/// What is said last.
fn end_of<B: Allocator>(reason: &Reason<'_, B>) -> &'static [u8]
    ensures { result.now ≡ end_of reason.now }
{
    match reason {
        Reason::GridTooLarge(_) =>
            b" tracks, and as many slots, one for each routing layer, x value and y value: use coarser tracks, or take a part of the block",
        Reason::Unroutable(_, Some(_)) =>
            b" to the rest of it, even with no other net routed: it may be unplaced or off the tracks, or have obstructions, blockages or wires of the block around it. Give the block tracks through it, or try what tools/ease-routing makes of the block (docs/RECIPES.md)",
        Reason::Unreachable(_, _) =>
            b" to another piece of it, whatever other nets do: look for obstructions, blockages and wires around it, give the block tracks through its pin, or try finish on what tools/ease-routing makes of the block (docs/RECIPES.md)",
        _ => b"",
    }
}

/// Adds what to do about this reason; nothing where a text is refused.
pub(crate) fn push_advice<A: Allocator, B: Allocator>(
    message: &mut Vec<u8, A>,
    reason: &Reason<'_, B>,
) -> Result<(), AllocError>
    ensures { OnOk result (message.new.items ≡ message.old.items ++ advice_of reason.now) }
{
    message.extend_from_slice(front_of(reason))?;
    push_shown_bytes(message, name_of(reason))?;
    message.extend_from_slice(middle_of(reason))?;
    push_limit(message, reason)?;
    push_shown_bytes(message, piece_of(reason))?;
    message.extend_from_slice(end_of(reason))
}
