//! What is known of the rows of a design before anything is placed in them.

ghost use Rattle.std.specs.Prelude.{◌<◌, [], length, IfOk, Contains};
ghost use Rattle.leg_lib_records.specs.declared.records.Site.{Site};
ghost use Rattle.leg_design_records.specs.declared.records.Row.{Row};
ghost use Rattle.leg_legal_sites.specs.Steps.RowOrder.{IsRowOrder};
ghost use Rattle.leg_legal_sites.specs.Steps.ClearSites.{IsFreeList};
ghost use Rattle.leg_legal_sites.specs.Steps.FreeLists.{IsRowAt};
ghost use Rattle.leg_legal_sites.specs.Steps.SharedLists.{HaveNone, AreLeafLists};

use crate::row_keys::RowKey;
use crate::row_parts::RowParts;
use crate::row_sites::sites_inside;
use leg_design_records::Design;
use std::alloc::{AllocError, Allocator};

/// The sites in the die of each row, at the leaves of a tree over the rows in their order.
pub(crate) fn rows_inside<A: Allocator + Copy>(
    alloc: A,
    design: &Design<'_, A>,
    order: &[RowKey],
) -> Result<Vec<Option<RowParts<A>>, A>, AllocError>
    requires { IsRowOrder design.now.rows order.now }
    ensures { IfOk result (λ lists. AreLeafLists design.now order.now (length order.now) lists.items) }
{
    let mut lists = no_lists(alloc, order.len())?;
    for key in order {
        let list = row_inside(alloc, design, key.row)?;
        lists.push(Some(list))?;
    }
    Ok(lists)
}

/// As many nodes as this that have no list.
fn no_lists<A: Allocator + Copy>(
    alloc: A,
    count: usize,
) -> Result<Vec<Option<RowParts<A>>, A>, AllocError>
    ensures { IfOk result (λ lists. HaveNone count lists.items) }
{
    let mut lists = Vec::with_capacity(alloc, count)?;
    for _ in 0..count {
        lists.push(None)?;
    }
    Ok(lists)
}

/// The sites in the die of the row of this number.
fn row_inside<A: Allocator + Copy>(
    alloc: A,
    design: &Design<'_, A>,
    number: usize,
) -> Result<RowParts<A>, AllocError>
    requires { number < length design.now.rows }
    ensures { IfOk result (λ list. (row : Row) (site : Site) → IsRowAt design.now number row site
        → IsFreeList row site.size design.now.die (Contains []) list) }
{
    let row = &design.rows()[number];
    let size = &design.library().sites()[row.site].size;
    let sites = sites_inside(row, size, &design.die());
    RowParts::new(alloc, sites.from, sites.end)
}
