//! The free sites of all rows of a design.

ghost use Rattle.std.specs.Prelude.{List, [], ◌∷◌, ◌++◌, IfOk, OnOk};
ghost use Rattle.leg_geom.specs.Plane.{RectModel};
ghost use Rattle.leg_legal_sites.specs.Steps.BestPosition.{AreReady, IsCandidate, IsBestOf};
ghost use Rattle.leg_legal_sites.specs.Steps.FreeLists.{AreRowsOf, AreFreeLists, IsOfItsSite};

use crate::bounds::Bounds;
use crate::branch::Branch;
use crate::candidate::Wanted;
use crate::near_rows::best_nearby;
use crate::only_row::take_from_rows;
use crate::row_keys::{RowKey, row_order};
use crate::row_parts::RowParts;
use crate::row_search::best_beneath;
use crate::row_tree::nodes_of;
use crate::rows_inside::rows_inside;
use crate::shared_lists::{highest_from, share_upward};
use leg_design_records::Design;
use leg_geom::Rect;
use leg_rules::Candidate;
use std::alloc::{AllocError, Allocator};
use std::marker::Model;

/// The free sites of each row of a design. Contracts see them as their lists, with the keys of the rows in order and the
/// nodes of a tree over these, each of which bounds the free sites of the rows beneath it.
#[derive(Drop)]
pub struct FreeRows<A: Allocator> {
    /// The list of a node is that of all rows beneath it.
    lists: Vec<Option<RowParts<A>>, A>,
    order: Vec<RowKey, A>,
    nodes: Vec<Bounds, A>,
    /// No node before this one has a list.
    highest: usize,
}

impl<A: Allocator> Model for FreeRows<A> {
    ghost use Rattle.leg_legal_sites.specs.Steps.FreeLists.{RowLists};
    ghost use Rattle.leg_legal_sites.specs.Steps.FreeListSharing.{row_lists};
    ghost use Rattle.leg_legal_sites.specs.Steps.SharedLists.{AreListsFrom};

    ghost Value = { RowLists };

    ghost view = { λ f. record { lists = row_lists f.order.items f.lists.items; order = f.order.items; nodes = f.nodes.items } };

    ghost invariant = { λ f. AreListsFrom f.highest f.order.items f.lists.items };
}

impl<A: Allocator + Copy> FreeRows<A> {
    /// The sites of the rows that lie in the die, with nothing in the way. It fails only when out of memory.
    pub fn of_design(alloc: A, design: &Design<'_, A>) -> Result<FreeRows<A>, AllocError>
        ensures { IfOk result (AreFreeLists design.now []) }
    {
        let order = row_order(alloc, design.rows())?;
        let mut lists = rows_inside(alloc, design, order.as_slice())?;
        let nodes = nodes_of(alloc, design, order.as_slice(), lists.as_slice())?;
        share_upward(lists.as_mut_slice(), order.as_slice());
        Ok(FreeRows {
            lists,
            order,
            nodes,
            highest: 0,
        })
    }

    /// The best free position of a component: the nearest one to its start, of those as near one where it isn't turned,
    /// of those one in the row of the lowest number, and there the leftmost. None where no position is free.
    pub fn best_position(&self, design: &Design<'_, A>, wanted: &Wanted) -> Option<Candidate>
        requires rows { AreRowsOf design.now self.now }
        requires ready { AreReady design.now.rows self.now.lists wanted.now }
        requires sized { IsOfItsSite design.now wanted.now }
        ensures { IsBestOf (IsCandidate design.now.rows self.now.lists wanted.now) result }
    {
        let order = self.order.as_slice();
        if order.is_empty() {
            return None;
        }
        let lists = self.lists.as_slice();
        let nodes = self.nodes.as_slice();
        let near = best_nearby(design, lists, order, nodes, self.highest, wanted);
        if near.is_best {
            return near.best;
        }
        let first = Branch {
            node: 1,
            owner: 1,
            bounds: nodes[1],
        };
        best_beneath(design, lists, order, nodes, wanted, &first, near.best)
    }

    /// Takes the sites that share a unit square with the rectangle away from those of each row. It fails only when out of
    /// memory, and then some rows may have lost them and others not.
    pub fn take_box(&mut self, design: &Design<'_, A>, rect: &Rect) -> Result<(), AllocError>
        requires { AreRowsOf design.now self.old }
        ensures { OnOk result ((boxes : List RectModel) → AreFreeLists design.now boxes self.old → AreFreeLists design.now (boxes ++ rect.now ∷ []) self.new) }
    {
        let order = self.order.as_slice();
        if order.is_empty() {
            return Ok(());
        }
        self.highest = highest_from(self.lists.as_slice(), order, self.highest);
        take_from_rows(
            self.lists.as_mut_slice(),
            self.nodes.as_mut_slice(),
            order,
            self.highest,
            design,
            rect,
        )
    }
}
