//! The rows by their sites, and those of one site from the lowest one up.

ghost use Rattle.std.specs.Prelude.{◌≡◌, length, IfOk};
ghost use Rattle.leg_legal_sites.specs.Steps.RowOrder.{IsRowOrder};
ghost use Rattle.leg_legal_sites.specs.Steps.RowKeys.{AreKeysBelow};
ghost use Rattle.leg_legal_sites.specs.Steps.RowPositions.{is_lower};

use crate::candidate::Wanted;
use leg_design_records::Row;
use std::alloc::{AllocError, Allocator};

/// What rows are ordered by: first by the number of their site, then the lower one first, of those at one height the one
/// that begins further to the left, and of two that begin at one point the one of the lower number.
#[derive(Clone, Copy, PartialEq, Eq, PartialOrd, Ord, Debug)]
pub struct RowKey {
    /// The site that the row is of, by number.
    pub site: usize,
    /// The y of the row's lower left corner.
    pub y: i64,
    /// The x of that corner.
    pub x: i64,
    /// The number of the row.
    pub row: usize,
}

impl RowKey {
    /// Whether the row is of a site of a lower number than the component's, or of its site and lies below its start.
    pub(crate) fn is_lower(&self, wanted: &Wanted) -> bool
        ensures { result ≡ is_lower self.now wanted.now }
    {
        self.site < wanted.site || self.site == wanted.site && self.y < wanted.start.y()
    }
}

/// The keys of all rows, in increasing order. It fails only when out of memory.
pub fn row_order<A: Allocator>(alloc: A, rows: &[Row<'_>]) -> Result<Vec<RowKey, A>, AllocError>
    ensures order { IfOk result (λ order. IsRowOrder rows.now order.items) }
    ensures count { IfOk result (λ order. length order.items ≡ length rows.now) }
{
    let mut keys = row_keys(alloc, rows)?;
    keys.sort_unstable();
    Ok(keys)
}

/// The same in file order.
fn row_keys<A: Allocator>(alloc: A, rows: &[Row<'_>]) -> Result<Vec<RowKey, A>, AllocError>
    ensures { IfOk result (λ keys. AreKeysBelow rows.now (length rows.now) keys.items) }
{
    let mut keys = Vec::with_capacity(alloc, rows.len())?;
    for (i, row) in rows.iter().enumerate() {
        keys.push(RowKey {
            site: row.site,
            y: row.at.y(),
            x: row.at.x(),
            row: i,
        })?;
    }
    Ok(keys)
}
