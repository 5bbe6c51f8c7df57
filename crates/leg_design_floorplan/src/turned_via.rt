//! Vias that wiring turns (LEF/DEF 5.8, "Regular Wiring Statement", "Special Wiring Statement"; that such a via is one of the design, and its
//! name, are lefdef's own rules).

ghost use Rattle.std.specs.Prelude.{◌≡◌, Some};
ghost use Rattle.leg_lex.specs.Words.{Reads, Means};
ghost use Rattle.leg_grammar.specs.Def.TurnedVia.{turn_at, turned_as, turned_via, with_turn_of, turn_of_word, turned_vias_at};

use crate::new_name::{kept, new_name, with_suffix};
use crate::port_via::push_shapes;
use crate::turned_shape::{all_stay, origin, turned_shapes};
use crate::via_list::ViaList;
use leg_design_common::TurnTable;
use leg_design_common::placement::next_orient;
use leg_design_common::via_number::{number_of_via, via_of_number};
use leg_geom::Orient;
use leg_grammar::TurnedVia;
use leg_lex::{Cursor, FaultKind, Name, NameKind, NamedList, Need, ReadFault, is_name};
use leg_lib_records::{Library, Shape, ShapeList, Via};
use std::alloc::Allocator;
use std::marker::Model;

/// The vias of a design, those of the section `VIAS` first, and which of them others are in an orientation.
#[derive(Drop)]
pub struct TurnedVias<'a, A: Allocator + Copy> {
    vias: ViaList<'a, A>,
    turned: TurnTable<A>,
}

impl<'a, A: Allocator + Copy> Model for TurnedVias<'a, A> {
    ghost use Rattle.leg_grammar.specs.Def.TurnedVia.{TurnedVias};

    ghost Value = { TurnedVias };

    ghost view = { λ t. record { vias = t.vias; turned = t.turned } };
}

/// A via that a word names, with an orientation behind it.
#[derive(Drop)]
struct Turn<'a> {
    name: &'a [u8],
    via: usize,
    orient: Orient,
}

impl<'a> Model for Turn<'a> {
    ghost use Rattle.leg_grammar.specs.Def.TurnedVia.{TurnOfVia};

    ghost Value = { TurnOfVia };

    ghost view = { λ t. record { name = t.name.now; via = t.via; orient = t.orient } };
}

impl Turn<'_> {
    /// The via is then that of this number.
    fn turned_as(&self, number: usize) -> TurnedVia
        ensures { result ≡ turned_as self.now number }
    {
        TurnedVia {
            via: self.via,
            orient: self.orient,
            number,
        }
    }
}

impl<'a, A: Allocator + Copy> TurnedVias<'a, A> {
    /// These vias, of which these are turned.
    pub fn new(vias: NamedList<'a, Via<'a, A>, A>, turned: TurnTable<A>) -> TurnedVias<'a, A>
        ensures { result ≡ record { vias = vias.entry; turned = turned } }
    {
        TurnedVias {
            vias: ViaList::of(vias),
            turned,
        }
    }

    /// The vias, and which of them are turned.
    pub fn into_parts(self) -> (NamedList<'a, Via<'a, A>, A>, TurnTable<A>)
        ensures vias { result.0 ≡ self.entry.vias }
        ensures turned { result.1 ≡ self.entry.turned }
    {
        (self.vias.into_list(), self.turned)
    }

    /// The via that the next word names, and the orientation behind it, where both are there.
    #[tactic(auto, unfolding(leg_grammar::specs::Def::TurnedVia::turn_at))]
    fn turn(&self, library: &'a Library<'a, A>, words: &Cursor<'_, 'a>) -> Option<Turn<'a>>
        ensures { result ≡ turn_at library.now self.now.vias words.now }
    {
        let mut behind = words.again();
        let Ok(_) = behind.any() else {
            return None;
        };
        let orient = next_orient(&mut behind)?;
        let mut first = words.again();
        let Ok(name) = first.name() else {
            return None;
        };
        let via = number_of_via(library, self.vias.as_list(), name)?;
        Some(Turn { name, via, orient })
    }

    /// A via of these shapes, turned, with a name that no via has. Where there would be too many rectangles of vias, that is `TooMany` at the
    /// word.
    #[tactic(auto, unfolding(leg_grammar::specs::Def::TurnedVia::turned_via))]
    fn turned_via(
        &self,
        alloc: A,
        library: &'a Library<'a, A>,
        turn: &Turn<'a>,
        shapes: &[Shape],
        word: &Cursor<'_, 'a>,
    ) -> Result<Via<'a, A>, ReadFault>
        ensures { Means (λ via. via) result (turned_via library.now self.now.vias turn.now shapes.now) }
    {
        if !self.vias.has_room_for(shapes.len()) {
            return Err(word.fault(FaultKind::TooMany));
        }
        let named = with_suffix(alloc, turn.name, turn.orient)?;
        let name = new_name(alloc, library, self.vias.as_list(), &named, word)?;
        if !is_name(&name) {
            return Err(word.fault(FaultKind::Unexpected));
        }
        let name = kept(name);
        let turned = turned_shapes(alloc, turn.orient, shapes)?;
        let mut shapes = ShapeList::with_capacity(alloc, turned.len())?;
        push_shapes(library, &origin(), &turned, &mut shapes, word)?;
        let good = library.is_good_via(alloc, name, shapes.as_slice())?;
        Ok(Via {
            name: Name::new(name),
            default_via: false,
            good,
            shapes,
        })
    }

    /// One more turn. Where it came before, nothing changes; where each shape stays the same, the via itself is the turned one; else the turned
    /// via comes behind the others.
    #[tactic(auto, using(crate::proofs::TurnedVias::name_is_new), unfolding(leg_grammar::specs::Def::TurnedVia::with_turn_of, leg_grammar::specs::Def::TurnedVia::with_new_turn, leg_grammar::specs::Def::TurnedVia::with_turned_via))]
    fn add_turn(
        &mut self,
        alloc: A,
        library: &'a Library<'a, A>,
        turn: &Turn<'a>,
        word: &Cursor<'_, 'a>,
    ) -> Result<(), ReadFault>
        ensures { Means (λ _. self.new) result (with_turn_of library.now self.old (Some turn.now)) }
    {
        if self.turned.number(turn.via, turn.orient).is_some() {
            return Ok(());
        }
        let Some(via) = via_of_number(&*library, self.vias.as_list(), turn.via) else {
            return Err(word.need(FaultKind::UnknownName, Need::Known(NameKind::Via)));
        };
        let shapes = via.shapes.as_slice();
        if all_stay(turn.orient, shapes) {
            self.turned.add(turn.turned_as(turn.via))?;
            return Ok(());
        }
        let turned = self.turned_via(alloc, library, turn, shapes, word)?;
        let number = library.vias().len() + self.vias.as_list().as_slice().len();
        self.turned.add(turn.turned_as(number))?;
        self.vias.push(turned)?;
        Ok(())
    }

    /// One more word of a section, with the orientation behind it if it names a via.
    #[tactic(auto, unfolding(leg_grammar::specs::Def::TurnedVia::turn_of_word, leg_grammar::specs::Def::TurnedVia::with_turn_of))]
    fn turn_of_word(
        &mut self,
        alloc: A,
        library: &'a Library<'a, A>,
        words: &mut Cursor<'_, 'a>,
    ) -> Result<(), ReadFault>
        ensures { Reads (λ _. self.new) result words.new (turn_of_word library.now self.old words.old) }
    {
        let here = words.again();
        words.any()?;
        if let Some(turn) = self.turn(library, &here) {
            self.add_turn(alloc, library, &turn, &here)?;
        }
        Ok(())
    }

    /// All vias that the words turn, up to `END`.
    #[tactic(auto, using(leg_lex::proofs::Until::ends, leg_lex::proofs::Until::goes_on, leg_lex::proofs::Until::fails, crate::proofs::TurnedVias::word_shortens, crate::proofs::TurnedVias::word_shorter), unfolding(leg_grammar::specs::Def::TurnedVia::turned_vias_at))]
    pub fn add_all(
        &mut self,
        alloc: A,
        library: &'a Library<'a, A>,
        words: &mut Cursor<'_, 'a>,
    ) -> Result<(), ReadFault>
        ensures { Reads (λ _. self.new) result words.new (turned_vias_at library.now self.old words.old) }
    {
        'words: while !words.is_at(b"END") {
            self.turn_of_word(alloc, library, words)?;
        }
        Ok(())
    }
}
