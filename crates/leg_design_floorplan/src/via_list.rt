//! The vias of a DEF that were read so far.

ghost use Rattle.std.specs.Prelude.{◌≡◌, ◌-◌, ◌^◌, ◌++◌, ◌∷◌, [], None, OnOk, is_some, min};
ghost use Rattle.leg_lex.specs.NameLookup.{place_of};
ghost use Rattle.leg_design_records.specs.Records.{design_via_names};
ghost use Rattle.leg_grammar.specs.Def.CutArray.{shape_count, is_room_for_shapes};

use leg_design_records::PART_LIMIT;
use leg_lex::NamedList;
use leg_lib_records::Via;
use std::alloc::{AllocError, Allocator};
use std::marker::Model;

/// The vias that were read so far, and how many rectangles they have, `usize::MAX` where they are more. Contracts see it as the list of the
/// vias.
#[derive(Drop)]
pub(crate) struct ViaList<'a, A: Allocator + Copy> {
    vias: NamedList<'a, Via<'a, A>, A>,
    shapes: usize,
}

impl<'a, A: Allocator + Copy> Model for ViaList<'a, A> {
    ghost use Rattle.std.specs.Prelude.{◌≡◌, ◌-◌, ◌^◌, List, min};
    ghost use Rattle.leg_lib_records.specs.Records.{ViaModel};
    ghost use Rattle.leg_grammar.specs.Def.CutArray.{shape_count};

    ghost Value = { List ViaModel };

    ghost view = { λ l. l.vias };

    ghost invariant = { λ l. l.shapes ≡ min (shape_count l.vias) (2 ^ 64 - 1) };
}

impl<'a, A: Allocator + Copy> ViaList<'a, A> {
    /// No vias.
    pub(crate) fn new(alloc: A) -> ViaList<'a, A>
        ensures { result ≡ [] }
    {
        ViaList {
            vias: NamedList::new(alloc),
            shapes: 0,
        }
    }

    /// These vias.
    pub(crate) fn of(vias: NamedList<'a, Via<'a, A>, A>) -> ViaList<'a, A>
        ensures { result ≡ vias.entry }
    {
        let shapes = shape_count(vias.as_slice());
        ViaList { vias, shapes }
    }

    /// The vias, each found by its name.
    pub(crate) fn as_list(&self) -> &NamedList<'a, Via<'a, A>, A>
        ensures { result.now ≡ self.now }
    {
        &self.vias
    }

    /// Whether a via has this name.
    pub(crate) fn has(&self, name: &[u8]) -> bool
        ensures { result ≡ is_some (place_of name.now (design_via_names self.now)) }
    {
        self.vias.place_of(name).is_some()
    }

    /// Whether there may be so many rectangles of vias more.
    pub(crate) fn has_room_for(&self, count: usize) -> bool
        ensures { result ≡ is_room_for_shapes self.now count }
    {
        self.shapes.saturating_add(count) as u64 <= PART_LIMIT
    }

    /// Adds a via, whose name is new.
    pub(crate) fn push(&mut self, via: Via<'a, A>) -> Result<(), AllocError>
        requires { place_of via.name (design_via_names self.old) ≡ None }
        ensures { OnOk result (self.new ≡ self.old ++ via.entry ∷ []) }
    {
        let shapes = via.shapes.as_slice().len();
        self.vias.push(via.name.bytes(), via)?;
        self.shapes = self.shapes.saturating_add(shapes);
        Ok(())
    }

    /// The vias alone.
    pub(crate) fn into_list(self) -> NamedList<'a, Via<'a, A>, A>
        ensures { result ≡ self.entry }
    {
        self.vias
    }
}

/// How many rectangles vias have, `usize::MAX` where they are more.
fn shape_count<A: Allocator + Copy>(vias: &[Via<'_, A>]) -> usize
    ensures { result ≡ min (shape_count vias.now) (2 ^ 64 - 1) }
{
    let mut count: usize = 0;
    for via in vias {
        count = count.saturating_add(via.shapes.as_slice().len());
    }
    count
}
