//! The items of a path (LEF/DEF 5.8, "Regular Wiring Statement", "Special Wiring Statement").

ghost use Rattle.std.specs.Prelude.{◌≡◌, MatchOption, None, Some};
ghost use Rattle.leg_lex.specs.Words.{Reads, mark_at};
ghost use Rattle.leg_lex.specs.Until.{until};
ghost use Rattle.leg_grammar.specs.Def.PathItem.{coordinate_at, extension_in_point, point_item, first_point_at, rect_item, past_north, turn_of_via_at, upright_via_at, via_at, via_item, array_of_via, via_or_array_item, virtual_item, item_without_mask, one_item, at_path_end};

use crate::coordinate::{point, read_coordinate};
use crate::path::ItemAt;
use crate::via_array::array;
use leg_design_common::NetScope;
use leg_design_common::count::count;
use leg_design_common::placement::{next_orient, rect_between};
use leg_geom::Point;
use leg_grammar::mask::{is_at_mask, mask};
use leg_grammar::{Coordinate, Item, Profile};
use leg_lex::{Cursor, FaultKind, NameKind, Need, ReadFault, is_keyword};
use leg_lib_records::is_wiring_word;
use std::alloc::Allocator;

/// The words of wiring that are left out by name.
const LEFT_OUT: [&[u8]; 5] = [b"TAPERRULE", b"STYLE", b"MASK", b"VIRTUAL", b"DO"];

/// The words of wiring that mean something, but not in an item's place.
const MISPLACED: [&[u8]; 4] = [b"NEW", b"RECT", b"TAPER", b"N"];

/// A coordinate, or `*` for that of the point before.
#[tactic(auto, unfolding(leg_grammar::specs::Def::PathItem::coordinate_at))]
fn coordinate(words: &mut Cursor<'_, '_>) -> Result<Option<Coordinate>, ReadFault>
    ensures { Reads (λ c. c) result words.new (coordinate_at words.old) }
{
    if words.is_at(b"*") {
        words.mark(b'*')?;
        return Ok(None);
    }
    Ok(Some(read_coordinate(words)?))
}

/// The extension in a point, if there is one.
#[tactic(auto, unfolding(leg_grammar::specs::Def::PathItem::extension_in_point))]
fn extension_in_point(words: &mut Cursor<'_, '_>) -> Result<Option<i64>, ReadFault>
    ensures { Reads (λ e. e) result words.new (extension_in_point words.old) }
{
    if words.is_at(b")") {
        return Ok(None);
    }
    Ok(Some(count(words)?))
}

/// `( x y )` or `( x y extension )`.
#[tactic(auto, unfolding(leg_grammar::specs::Def::PathItem::point_item))]
fn point_item(words: &mut Cursor<'_, '_>) -> Result<Item, ReadFault>
    ensures { Reads (λ i. i) result words.new (point_item words.old) }
{
    words.mark(b'(')?;
    let x = coordinate(words)?;
    let y = coordinate(words)?;
    let extension = extension_in_point(words)?;
    words.mark(b')')?;
    Ok(Item::ToPoint { x, y, extension })
}

/// Whether one of the words that are left out by name is next, also after a `+`.
fn is_at_left_out(words: &Cursor<'_, '_>) -> bool {
    let mut next = words.again();
    if next.is_at(b"+") {
        let _plus = next.any();
    }
    LEFT_OUT.iter().any(|word| next.is_at(word))
}

/// The parenthesis of a path's first point. A word that is left out by name is `Unsupported` there.
#[tactic(auto, using(crate::proofs::PathItems::no_mark))]
fn first_mark(words: &mut Cursor<'_, '_>) -> Result<(), ReadFault>
    ensures { Reads (λ x. x) result words.new (mark_at 40 words.old) }
{
    if !words.is_at(b"(") && is_at_left_out(words) {
        return Err(words.fault(FaultKind::Unsupported));
    }
    words.mark(b'(')
}

/// The first point of a path, with the extension that is given there.
#[tactic(auto, unfolding(leg_grammar::specs::Def::PathItem::first_point_at))]
pub(crate) fn first_point(words: &mut Cursor<'_, '_>) -> Result<(Point, Option<i64>), ReadFault>
    ensures { Reads (λ p. p) result words.new (first_point_at words.old) }
{
    first_mark(words)?;
    let x = read_coordinate(words)?;
    let y = read_coordinate(words)?;
    let extension = extension_in_point(words)?;
    words.mark(b')')?;
    Ok((point(x, y), extension))
}

/// `RECT ( a b c d )`: the rectangle between two corners about the point. One without area is `EmptyRect`.
#[tactic(auto, unfolding(leg_grammar::specs::Def::PathItem::rect_item))]
fn rect_item(words: &mut Cursor<'_, '_>) -> Result<Item, ReadFault>
    ensures { Reads (λ i. i) result words.new (rect_item words.old) }
{
    words.keyword(b"RECT")?;
    let corner = words.again();
    words.mark(b'(')?;
    let a = read_coordinate(words)?;
    let b = read_coordinate(words)?;
    let c = read_coordinate(words)?;
    let d = read_coordinate(words)?;
    words.mark(b')')?;
    let Some(rect) = rect_between(&point(a, b), &point(c, d)) else {
        return Err(corner.fault(FaultKind::EmptyRect));
    };
    Ok(Item::AtRect(rect))
}

/// Reads past an `N`, if it is next.
#[tactic(auto, unfolding(leg_grammar::specs::Def::PathItem::past_north))]
fn past_north(words: &mut Cursor<'_, '_>) -> Result<(), ReadFault>
    ensures { Reads (λ x. x) result words.new (past_north words.old) }
{
    if words.is_at(b"N") {
        words.keyword(b"N")?;
    }
    Ok(())
}

/// The number of the turned via, where an orientation comes next in which the via is turned. The orientation is read past.
#[tactic(auto, unfolding(leg_grammar::specs::Def::PathItem::turn_of_via_at))]
fn turn_of_via<A: Allocator + Copy>(
    scope: &NetScope<'_, '_, A>,
    number: usize,
    words: &mut Cursor<'_, '_>,
) -> Option<usize>
    ensures { MatchOption result (turn_of_via_at scope.now number words.old ≡ None)
        (λ turned. turn_of_via_at scope.now number words.old ≡ Some (turned, words.new)) }
{
    let orient = next_orient(words)?;
    scope.turned.number(number, orient)
}

/// The same; nothing is read past where no such orientation comes next.
#[inline(always)]
#[tactic(auto, using(crate::proofs::PathItems::none_is_turned))]
fn turned_via<A: Allocator + Copy>(
    scope: &NetScope<'_, '_, A>,
    number: usize,
    words: &mut Cursor<'_, '_>,
) -> Option<usize>
    ensures reads { MatchOption result (turn_of_via_at scope.now number words.old ≡ None)
        (λ turned. turn_of_via_at scope.now number words.old ≡ Some (turned, words.new)) }
    ensures stays { result ≡ None → words.new ≡ words.old }
{
    if scope.turned.is_empty() {
        return None;
    }
    let mut ahead = words.again();
    let turned = turn_of_via(scope, number, &mut ahead)?;
    *words = ahead;
    Some(turned)
}

/// A via that is not turned, of this number.
#[tactic(auto, unfolding(leg_grammar::specs::Def::PathItem::upright_via_at))]
fn upright_via(number: usize, words: &mut Cursor<'_, '_>) -> Result<usize, ReadFault>
    ensures { Reads (λ number. number) result words.new (upright_via_at number words.old) }
{
    past_north(words)?;
    Ok(number)
}

/// What is wrong with a word of wiring in the place of a via's name.
fn kind_of_wiring_word(word: &[u8]) -> FaultKind {
    if MISPLACED.iter().any(|keyword| is_keyword(keyword, word)) {
        FaultKind::Unexpected
    } else {
        FaultKind::Unsupported
    }
}

/// The number of a via, by its name, and of a turned one with the orientation behind it. A name that no via has is `UnknownName`; a word that is
/// left out by name is `Unsupported`, as an orientation is in which the via is not turned.
#[inline(always)]
#[tactic(auto, unfolding(leg_grammar::specs::Def::PathItem::via_at))]
pub(crate) fn via<A: Allocator + Copy>(
    scope: &NetScope<'_, '_, A>,
    words: &mut Cursor<'_, '_>,
) -> Result<usize, ReadFault>
    ensures { Reads (λ number. number) result words.new (via_at scope.now words.old) }
{
    let first = words.again();
    let name = words.name()?;
    if is_wiring_word(name) {
        return Err(first.fault(kind_of_wiring_word(name)));
    }
    let Some(number) = scope.via_named(name) else {
        return Err(first.need(FaultKind::UnknownName, Need::Known(NameKind::Via)));
    };
    if let Some(turned) = turned_via(scope, number, words) {
        return Ok(turned);
    }
    upright_via(number, words)
}

/// A via.
#[inline(always)]
#[tactic(auto, unfolding(leg_grammar::specs::Def::PathItem::via_item))]
fn via_item<A: Allocator + Copy>(
    scope: &NetScope<'_, '_, A>,
    words: &mut Cursor<'_, '_>,
) -> Result<Item, ReadFault>
    ensures { Reads (λ i. i) result words.new (via_item scope.now words.old) }
{
    let number = via(scope, words)?;
    Ok(Item::AtVia(number))
}

/// The via of this number, or an array of it, if `DO` is next.
#[tactic(auto, unfolding(leg_grammar::specs::Def::PathItem::array_of_via))]
fn array_of_via(number: usize, words: &mut Cursor<'_, '_>) -> Result<Item, ReadFault>
    ensures { Reads (λ i. i) result words.new (array_of_via number words.old) }
{
    if words.is_at(b"DO") {
        let array = array(words)?;
        return Ok(Item::AtArray(number, array));
    }
    Ok(Item::AtVia(number))
}

/// A via, or an array of one.
#[tactic(auto, unfolding(leg_grammar::specs::Def::PathItem::via_or_array_item))]
fn via_or_array_item<A: Allocator + Copy>(
    scope: &NetScope<'_, '_, A>,
    words: &mut Cursor<'_, '_>,
) -> Result<Item, ReadFault>
    ensures { Reads (λ i. i) result words.new (via_or_array_item scope.now words.old) }
{
    let number = via(scope, words)?;
    array_of_via(number, words)
}

/// `VIRTUAL ( x y )`.
#[tactic(auto, unfolding(leg_grammar::specs::Def::PathItem::virtual_item))]
fn virtual_item(words: &mut Cursor<'_, '_>) -> Result<Item, ReadFault>
    ensures { Reads (λ i. i) result words.new (virtual_item words.old) }
{
    words.keyword(b"VIRTUAL")?;
    words.mark(b'(')?;
    let x = coordinate(words)?;
    let y = coordinate(words)?;
    words.mark(b')')?;
    Ok(Item::ToVirtual { x, y })
}

/// An item of a path without its mask. Rectangles and virtual points are in `NETS` only, and arrays of vias in `SPECIALNETS`.
#[tactic(auto, unfolding(leg_grammar::specs::Def::PathItem::item_without_mask, leg_grammar::specs::Def::PathItem::other_item))]
fn item_without_mask<A: Allocator + Copy>(
    scope: &NetScope<'_, '_, A>,
    special: bool,
    words: &mut Cursor<'_, '_>,
) -> Result<Item, ReadFault>
    ensures { Reads (λ i. i) result words.new (item_without_mask scope.now special words.old) }
{
    if words.is_at(b"(") {
        return point_item(words);
    }
    if words.is_at(b"RECT") && !special {
        return rect_item(words);
    }
    match scope.profile {
        Profile::Wide { .. } if special => via_or_array_item(scope, words),
        Profile::Wide { .. } if words.is_at(b"VIRTUAL") => virtual_item(words),
        _ => via_item(scope, words),
    }
}

/// One more item, behind its mask.
#[tactic(auto, unfolding(leg_grammar::specs::Def::PathItem::one_item, leg_grammar::specs::Def::PathItem::item_at, leg_grammar::specs::Mask::past_mask))]
fn one_item<'t, A: Allocator + Copy>(
    scope: &NetScope<'_, '_, A>,
    special: bool,
    items: &mut Vec<ItemAt<'t>, A>,
    words: &mut Cursor<'t, '_>,
) -> Result<(), ReadFault>
    ensures { Reads (λ _. items.new.items) result words.new (one_item scope.now special items.old.items words.old) }
{
    let place = words.place();
    if is_at_mask(scope.profile, words) {
        mask(words)?;
    }
    let item = item_without_mask(scope, special, words)?;
    items.push(ItemAt::new(item, place))?;
    Ok(())
}

/// Whether the items of a path end here: at `NEW`, at the `+` of another clause, or with the entry.
#[tactic(auto, using(crate::proofs::PathItems::path_ends, crate::proofs::PathItems::path_ends_at_word))]
fn is_at_path_end(words: &Cursor<'_, '_>) -> bool
    ensures { result ≡ at_path_end words.now }
{
    words.is_at_end() || words.is_at(b"NEW") || words.is_at(b"+")
}

/// Adds the items of a path. Where one isn't read, those before it stay.
#[tactic(auto, using(leg_lex::proofs::Until::ends, leg_lex::proofs::Until::goes_on, leg_lex::proofs::Until::fails, crate::proofs::PathItems::one_item_shortens, crate::proofs::PathItems::one_item_shorter))]
pub(crate) fn add_items<'t, A: Allocator + Copy>(
    scope: &NetScope<'_, '_, A>,
    special: bool,
    items: &mut Vec<ItemAt<'t>, A>,
    words: &mut Cursor<'t, '_>,
) -> Result<(), ReadFault>
    ensures { Reads (λ _. items.new.items) result words.new (until at_path_end (one_item scope.now special) items.old.items words.old) }
{
    'items: while !is_at_path_end(words) {
        one_item(scope, special, items, words)?;
    }
    Ok(())
}
