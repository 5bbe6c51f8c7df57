//! All violations of the rules of layers beside what `check` lists.

ghost use Rattle.std.specs.Prelude.{◌≡◌, ◌++◌, map, IfOk, OnOk};
ghost use Rattle.leg_sweep.specs.Pairs.{ArePairs};
ghost use Rattle.leg_rules.specs.Metal.Flat.{IsFlatOf};
ghost use Rattle.leg_drc.specs.Table.{AreNearerThanTable};
ghost use Rattle.leg_drc.specs.Cuts.{AreNearCuts};
ghost use Rattle.leg_drc.specs.Violations.{IsDrcViolation};
ghost use Rattle.leg_drc.specs.InOrder.{IsDrcListOf};
ghost use Rattle.leg_drc.specs.Steps.Kinds.{shape_fault, pair_fault};

use crate::fault::DrcFault;
use crate::pair_kind::PairKind;
use crate::pairs::{cut_pairs, table_pairs};
use crate::shape_kind::ShapeKind;
use crate::supply::cut_off_pieces;
use crate::wrong_shapes::wrong_shapes;
use leg_design_records::Design;
use leg_drc_rules::DeckRules;
use leg_flat::Flat;
use std::alloc::{AllocError, Allocator};

/// The violations of the rules of layers beside what `check` lists: pieces of nets that are cut off, segments that are too narrow, shapes
/// that are nearer than a table of spacings asks for, cuts of one net that are too near, sides off the manufacturing grid, and
/// shapes out of the die. All that hold, each once, in order (lefdef's own rules).
///
/// The flat is that of the design, and the rules are of its library. It fails only when out of memory.
pub fn drc_faults<A: Allocator + Copy>(
    alloc: A,
    design: &Design<'_, A>,
    deck: &DeckRules<A>,
    flat: &Flat<A>,
) -> Result<Vec<DrcFault, A>, AllocError>
    requires { IsFlatOf design.now flat.now }
    ensures { IfOk result (λ found. IsDrcListOf (IsDrcViolation design.now deck.now flat.now) found.items) }
{
    let table = table_pairs(alloc, design.library(), deck, flat)?;
    let cuts = cut_pairs(alloc, design.library(), deck, flat)?;
    faults_with(alloc, design, deck, flat, &table, &cuts)
}

/// All violations, where the pairs of shapes are known that are nearer than tables ask for, and those of cuts that are too near.
fn faults_with<A: Allocator + Copy>(
    alloc: A,
    design: &Design<'_, A>,
    deck: &DeckRules<A>,
    flat: &Flat<A>,
    table: &[(u32, u32)],
    cuts: &[(u32, u32)],
) -> Result<Vec<DrcFault, A>, AllocError>
    requires flat { IsFlatOf design.now flat.now }
    requires table { ArePairs (AreNearerThanTable design.now.library deck.now) flat.now.shapes table.now }
    requires cuts { ArePairs (AreNearCuts design.now.library deck.now) flat.now.shapes cuts.now }
    ensures { IfOk result (λ found. IsDrcListOf (IsDrcViolation design.now deck.now flat.now) found.items) }
{
    let supply = cut_off_pieces(alloc, design, flat)?;
    let narrow = wrong_shapes(alloc, ShapeKind::MinWidth, design, deck, flat)?;
    let off_grid = wrong_shapes(alloc, ShapeKind::OffGrid, design, deck, flat)?;
    let out_of_die = wrong_shapes(alloc, ShapeKind::OutDie, design, deck, flat)?;
    let mut found = Vec::new(alloc);
    push_pairs(PairKind::Supply, &supply, &mut found)?;
    push_shapes(ShapeKind::MinWidth, &narrow, &mut found)?;
    push_pairs(PairKind::Table, table, &mut found)?;
    push_pairs(PairKind::CutNear, cuts, &mut found)?;
    push_shapes(ShapeKind::OffGrid, &off_grid, &mut found)?;
    push_shapes(ShapeKind::OutDie, &out_of_die, &mut found)?;
    Ok(found)
}

/// Adds the violations of this kind of the shapes of these numbers.
fn push_shapes<A: Allocator>(
    kind: ShapeKind,
    numbers: &[u32],
    found: &mut Vec<DrcFault, A>,
) -> Result<(), AllocError>
    ensures { OnOk result (found.new.items ≡ found.old.items ++ map (shape_fault kind) numbers.now) }
{
    for number in numbers {
        found.push(kind.fault(*number))?;
    }
    Ok(())
}

/// Adds the violations of this kind that name these pairs of numbers.
fn push_pairs<A: Allocator>(
    kind: PairKind,
    pairs: &[(u32, u32)],
    found: &mut Vec<DrcFault, A>,
) -> Result<(), AllocError>
    ensures { OnOk result (found.new.items ≡ found.old.items ++ map (λ p. pair_fault kind p.0 p.1) pairs.now) }
{
    for (first, second) in pairs {
        found.push(kind.fault(*first, *second))?;
    }
    Ok(())
}
