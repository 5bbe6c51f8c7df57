//! Pairs of shapes that break a rule of the deck.

ghost use Rattle.std.specs.Prelude.{IfOk};
ghost use Rattle.leg_sweep.specs.Pairs.{ArePairs};
ghost use Rattle.leg_drc.specs.Table.{AreNearerThanTable};
ghost use Rattle.leg_drc.specs.Cuts.{AreNearCuts};

use crate::candidate::{Owners, candidates, shape_numbers};
use crate::cut_rule::NearCuts;
use crate::reach::{cut_reaches, greatest, table_reaches};
use crate::table_rule::NearerThanTable;
use leg_drc_rules::DeckRules;
use leg_flat::Flat;
use leg_lib_records::Library;
use leg_sweep::pairs_in_bands;
use std::alloc::{AllocError, Allocator};

/// The pairs of comparable shapes that share no point, are as far apart as the layer's spacing, and lie nearer than its table of
/// spacings asks for, by their numbers in the flat, the lower one first, in increasing order. Where no layer has a table, nothing is
/// searched.
pub(crate) fn table_pairs<A: Allocator + Copy>(
    alloc: A,
    library: &Library<'_, A>,
    deck: &DeckRules<A>,
    flat: &Flat<A>,
) -> Result<Vec<(u32, u32), A>, AllocError>
    ensures { IfOk result (λ pairs. ArePairs (AreNearerThanTable library.now deck.now) flat.now.shapes pairs.items) }
{
    let reaches = table_reaches(alloc, deck)?;
    if greatest(&reaches) == 0 {
        return Ok(Vec::new(alloc));
    }
    let shapes = candidates(alloc, Owners::Each, &reaches, flat.shapes())?;
    let mut rule = NearerThanTable::new(library, deck, &reaches);
    let pairs = pairs_in_bands(alloc, &shapes, &mut rule)?;
    shape_numbers(alloc, &shapes, &pairs)
}

/// The pairs of different cuts of one net that are nearer than their layer's spacing within a net, by their numbers in the flat, the
/// lower one first, in increasing order. Where no layer of cuts has such a spacing, nothing is searched.
pub(crate) fn cut_pairs<A: Allocator + Copy>(
    alloc: A,
    library: &Library<'_, A>,
    deck: &DeckRules<A>,
    flat: &Flat<A>,
) -> Result<Vec<(u32, u32), A>, AllocError>
    ensures { IfOk result (λ pairs. ArePairs (AreNearCuts library.now deck.now) flat.now.shapes pairs.items) }
{
    let reaches = cut_reaches(alloc, library, deck)?;
    if greatest(&reaches) == 0 {
        return Ok(Vec::new(alloc));
    }
    let cuts = candidates(alloc, Owners::Nets, &reaches, flat.shapes())?;
    let mut rule = NearCuts::new(&reaches);
    let pairs = pairs_in_bands(alloc, &cuts, &mut rule)?;
    shape_numbers(alloc, &cuts, &pairs)
}
