//! Vias (LEF/DEF 5.8, "Via"; which of them are good, and that one whose shapes aren't read is kept by its name, are lefdef's own rules).

ghost use Rattle.std.specs.Prelude.{◌≡◌, ◌≢◌, codes, not, ◌&&◌, if◌then◌else◌, drop, Some, IfOk, IfErr};
ghost use Rattle.leg_lex.specs.Words.{Reads, Means, is_at};
ghost use Rattle.leg_lex.specs.Until.{over};
ghost use Rattle.leg_grammar.specs.Lef.Geometry.{drawn_polygon};
ghost use Rattle.leg_grammar.specs.Lef.GeneratedVia.{raw_generated_shapes};
ghost use Rattle.leg_grammar.specs.Lef.Via.{flag_at, flags_at, no_via_parts, layer_of_via, spoils, with_drawn, via_part, generated_parts, via_parts_in, is_good, kept, via_at, with_via};

use crate::generated_via::generated_shapes;
use crate::geometry::Drawing;
use crate::named::second_definition;
use crate::polygon::is_read_polygon;
use leg_generated_via::is_generated;
use leg_grammar::Profile;
use leg_grammar::mask::drops_masks;
use leg_lex::{Cursor, FaultKind, Name, NameKind, Need, ReadFault};
use leg_lib_records::{Items, RawLibrary, RawShape, RawVia, is_wiring_word};
use std::alloc::{AllocError, Allocator};
use std::marker::Model;

/// Which words are between a via's name and its statements.
#[derive(Clone, Copy)]
struct ViaFlags {
    is_default: bool,
    is_top_only: bool,
    is_generated: bool,
}

impl Model for ViaFlags {
    ghost use Rattle.leg_grammar.specs.Lef.Via.{Flags};

    ghost Value = { Flags };

    ghost view = { λ f. record { is_default = f.is_default; is_top_only = f.is_top_only; is_generated = f.is_generated } };

    ghost inverse = { λ f. record { is_default = f.is_default; is_top_only = f.is_top_only; is_generated = f.is_generated } };
}

/// Reads this word, if it is next and did not appear before, and returns whether it was read.
#[tactic(auto, using(leg_lex::proofs::Keywords::read_past, leg_lex::proofs::Keywords::surely_read))]
fn first_time(stood: bool, keyword: &[u8], words: &mut Cursor<'_, '_>) -> Result<bool, ReadFault>
    ensures said { IfOk result (λ read. read ≡ (is_at keyword.now words.old && not stood)) }
    ensures left { IfOk result (λ read. words.new ≡ (if read then drop 1 words.old else words.old)) }
    ensures refused { IfErr result (λ fault. fault.kind ≢ FaultKind.Memory → ⊥) }
{
    if stood || !words.is_at(keyword) {
        return Ok(false);
    }
    words.keyword(keyword)?;
    Ok(true)
}

/// Reads one more of the words `DEFAULT`, `TOPOFSTACKONLY` and `GENERATED`, if one is next that
/// did not appear before.
#[tactic(auto, unfolding(leg_grammar::specs::Lef::Via::flag_at))]
fn flag(flags: ViaFlags, words: &mut Cursor<'_, '_>) -> Result<ViaFlags, ReadFault>
    ensures { Reads (λ f. f) result words.new (Some (flag_at flags words.old)) }
{
    if first_time(flags.is_default, b"DEFAULT", words)? {
        return Ok(ViaFlags {
            is_default: true,
            ..flags
        });
    }
    if first_time(flags.is_top_only, b"TOPOFSTACKONLY", words)? {
        return Ok(ViaFlags {
            is_top_only: true,
            ..flags
        });
    }
    if first_time(flags.is_generated, b"GENERATED", words)? {
        return Ok(ViaFlags {
            is_generated: true,
            ..flags
        });
    }
    Ok(flags)
}

/// The words between a via's name and its statements.
#[tactic(auto, unfolding(leg_grammar::specs::Lef::Via::flags_at))]
fn flags(words: &mut Cursor<'_, '_>) -> Result<ViaFlags, ReadFault>
    ensures { Reads (λ f. f) result words.new (Some (flags_at words.old)) }
{
    let none = ViaFlags {
        is_default: false,
        is_top_only: false,
        is_generated: false,
    };
    let first = flag(none, words)?;
    let second = flag(first, words)?;
    flag(second, words)
}

/// What the statements of a via give: its shapes, and whether there is a form that no good via has.
#[derive(Drop)]
struct ViaParts<A: Allocator> {
    drawing: Drawing<A>,
    is_spoilt: bool,
}

impl<A: Allocator> Model for ViaParts<A> {
    ghost use Rattle.leg_grammar.specs.Lef.Via as via;

    ghost Value = { via.ViaParts };

    ghost view = { λ p. record { drawn = p.drawing; is_spoilt = p.is_spoilt } };
}

/// The number of the layer of a `LAYER` statement.
#[tactic(auto, using(crate::proofs::Vias::nothing_said), unfolding(leg_grammar::specs::Lef::Via::layer_of_via))]
fn layer<A: Allocator + Copy>(
    library: &RawLibrary<'_, A>,
    statement: &mut Cursor<'_, '_>,
) -> Result<usize, ReadFault>
    ensures { Means (λ number. number) result (layer_of_via library.now statement.old) }
{
    statement.keyword(b"LAYER")?;
    let named = statement.again();
    let name = statement.name()?;
    let Some(number) = library.layer_named(name) else {
        return Err(named.need(FaultKind::UnknownName, Need::Known(NameKind::Layer)));
    };
    statement.nothing_more()?;
    Ok(number)
}

/// Whether a statement begins with `RECT MASK`.
#[tactic(auto, using(leg_lex::proofs::Keywords::read_past, leg_lex::proofs::Keywords::surely_read))]
fn is_masked_rect(statement: &Cursor<'_, '_>) -> Result<bool, ReadFault>
    ensures { Means (λ is. is) result (Some (is_at (codes "RECT") statement.now && is_at (codes "MASK") (drop 1 statement.now))) }
{
    if !statement.is_at(b"RECT") {
        return Ok(false);
    }
    let mut rect = statement.again();
    rect.keyword(b"RECT")?;
    Ok(rect.is_at(b"MASK"))
}

/// Whether a via with this statement isn't good: `VIARULE`, `POLYGON` where it isn't read, and `RECT MASK` unless masks are dropped.
fn spoils(profile: Profile, statement: &Cursor<'_, '_>) -> Result<bool, ReadFault>
    ensures { Means (λ is. is) result (Some (spoils profile statement.now)) }
{
    if statement.is_at(b"VIARULE") || (!profile.is_wide() && statement.is_at(b"POLYGON")) {
        return Ok(true);
    }
    if drops_masks(profile) {
        return Ok(false);
    }
    is_masked_rect(statement)
}

impl<A: Allocator + Copy> ViaParts<A> {
    /// What no statements give.
    fn new(alloc: A) -> ViaParts<A>
        ensures { result ≡ no_via_parts }
    {
        ViaParts {
            drawing: Drawing::new(alloc),
            is_spoilt: false,
        }
    }

    /// The shapes with the slabs of a `POLYGON` statement. Where that cannot be read, the via has no shapes, and isn't good.
    fn polygon(
        &mut self,
        alloc: A,
        profile: Profile,
        library: &RawLibrary<'_, A>,
        statement: &mut Cursor<'_, '_>,
    ) -> Result<(), ReadFault>
        ensures { Means (λ _. self.new) result (Some (with_drawn self.old (drawn_polygon profile library.now self.old.drawn statement.old))) }
    {
        let (on, width) = (self.drawing.on, self.drawing.width);
        match self
            .drawing
            .draw_polygon(alloc, profile, library, statement)
        {
            Ok(()) => Ok(()),
            Err(fault) if fault.kind == FaultKind::Memory => Err(fault),
            Err(_) => {
                self.drawing = Drawing {
                    on,
                    width,
                    shapes: Vec::new(alloc),
                };
                self.is_spoilt = true;
                Ok(())
            }
        }
    }

    /// One more statement.
    #[tactic(auto, unfolding(leg_grammar::specs::Lef::Via::via_part))]
    fn part(
        &mut self,
        alloc: A,
        profile: Profile,
        library: &RawLibrary<'_, A>,
        statement: &mut Cursor<'_, '_>,
    ) -> Result<(), ReadFault>
        ensures { Means (λ _. self.new) result (via_part profile library.now self.old statement.old) }
    {
        if spoils(profile, statement)? {
            self.is_spoilt = true;
        } else if statement.is_at(b"LAYER") {
            let number = layer(library, statement)?;
            self.drawing.go_to(number);
        } else if statement.is_at(b"RECT") {
            self.drawing.draw_rect(profile, library, statement)?;
        } else if is_read_polygon(profile, statement) {
            self.polygon(alloc, profile, library, statement)?;
        }
        Ok(())
    }
}

/// What all statements of a via give.
#[tactic(auto, using(crate::proofs::Vias::parts_on, crate::proofs::Vias::parts_fail, crate::proofs::Vias::parts_end))]
fn parts<A: Allocator + Copy>(
    alloc: A,
    profile: Profile,
    library: &RawLibrary<'_, A>,
    statements: &[Cursor<'_, '_>],
) -> Result<ViaParts<A>, ReadFault>
    ensures { Means (λ p. p) result (over (via_part profile library.now) no_via_parts statements.now) }
{
    let mut parts = ViaParts::new(alloc);
    for statement in statements {
        parts.part(alloc, profile, library, &mut statement.again())?;
    }
    Ok(parts)
}

/// What the statements of a generated via give, which isn't good where its shapes cannot be read.
fn generated_parts<'a, A: Allocator + Copy>(
    alloc: A,
    library: &RawLibrary<'a, A>,
    statements: &[Cursor<'_, 'a>],
    end: &Cursor<'_, 'a>,
) -> Result<ViaParts<A>, ReadFault>
    ensures { Means (λ p. p) result (Some (generated_parts (raw_generated_shapes library.now statements.now))) }
{
    match generated_shapes(alloc, library, statements, end) {
        Ok(shapes) => Ok(ViaParts {
            drawing: Drawing {
                on: None,
                width: None,
                shapes,
            },
            is_spoilt: false,
        }),
        Err(fault) if fault.kind == FaultKind::Memory => Err(fault),
        Err(_) => Ok(ViaParts {
            drawing: Drawing::new(alloc),
            is_spoilt: true,
        }),
    }
}

/// What the statements of a via give. The wide profile takes generated vias too.
#[tactic(auto, unfolding(leg_grammar::specs::Lef::Via::via_parts_in))]
fn parts_in<'a, A: Allocator + Copy>(
    alloc: A,
    profile: Profile,
    library: &RawLibrary<'a, A>,
    statements: &[Cursor<'_, 'a>],
    end: &Cursor<'_, 'a>,
) -> Result<ViaParts<A>, ReadFault>
    ensures { Means (λ p. p) result (via_parts_in profile library.now statements.now) }
{
    match profile {
        Profile::Narrow => parts(alloc, profile, library, statements),
        Profile::Wide { .. } => {
            if is_generated(statements) {
                generated_parts(alloc, library, statements, end)
            } else {
                parts(alloc, profile, library, statements)
            }
        }
    }
}

/// Whether a via of this name and of these statements is good.
fn is_good<A: Allocator + Copy>(
    alloc: A,
    library: &RawLibrary<'_, A>,
    name: &[u8],
    parts: &ViaParts<A>,
) -> Result<bool, AllocError>
    ensures { IfOk result (λ good. good ≡ is_good library.now name.now parts.now) }
{
    if parts.is_spoilt || is_wiring_word(name) {
        return Ok(false);
    }
    library.shapes_join(alloc, &parts.drawing.shapes)
}

/// The shapes that are kept: those of a good via.
fn kept<A: Allocator>(good: bool, mut shapes: Vec<RawShape, A>) -> Vec<RawShape, A>
    ensures { result.items ≡ kept good shapes.items }
{
    if !good {
        shapes.clear();
    }
    shapes
}

/// A via, from `VIA` to its `END`.
#[tactic(auto, unfolding(leg_grammar::specs::Lef::Via::via_at))]
fn via<'a, A: Allocator + Copy>(
    alloc: A,
    profile: Profile,
    library: &RawLibrary<'a, A>,
    words: &mut Cursor<'_, 'a>,
) -> Result<RawVia<'a, A>, ReadFault>
    ensures { Reads (λ v. v) result words.new (via_at profile library.now words.old) }
{
    words.keyword(b"VIA")?;
    let name = words.name()?;
    let flags = flags(words)?;
    let statements = words.statements(alloc)?;
    let parts = parts_in(alloc, profile, library, &statements, words)?;
    words.end_of(name)?;
    let good = is_good(alloc, library, name, &parts)?;
    Ok(RawVia {
        name: Name::new(name),
        default_via: flags.is_default,
        good,
        shapes: Items::from_vec(kept(good, parts.drawing.shapes)),
    })
}

/// Adds the via that comes next, whose name is new.
#[tactic(auto, unfolding(leg_grammar::specs::Lef::Via::with_via))]
pub(crate) fn via_form<'a, A: Allocator + Copy>(
    alloc: A,
    profile: Profile,
    library: &mut RawLibrary<'a, A>,
    words: &mut Cursor<'_, 'a>,
) -> Result<(), ReadFault>
    ensures { Reads (λ _. library.new) result words.new (with_via profile library.old words.old) }
{
    let first = words.again();
    let via = via(alloc, profile, library, words)?;
    if library.via_named(via.name.bytes()).is_some() {
        return Err(second_definition(&first, NameKind::Via));
    }
    library.push_via(via)?;
    Ok(())
}
