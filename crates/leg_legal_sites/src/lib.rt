//! The free sites of rows, and the best free position of a component.
//!
//! `FreeSites` keeps the free sites of one row, from which `take` takes those of a component away, and `FreeRows` those of
//! all rows of a design. Its `best_position` finds the free position that is nearest to a component's start.
//!
//! The free sites of a row are a list of stretches, in parts of at most some hundred (`RowParts`), so that a split moves no
//! more than one part, and each part has the length of its longest stretch, so that a search passes a part without a long
//! enough one. Each 32 parts, by their places, are a group, which has that length for all of them, so that a search passes
//! them at once. The parts that a box meets, and the one at which a search begins, are found by bisection; so that it leads
//! there, parts that have lost all their sites are let go. That a part is cut or let go makes all groups of the row anew, and
//! any other change only those of the parts that have changed. In a row a search looks at the last free sites up to the
//! nearest site and at the first ones from it on.
//!
//! `FreeRows` has a tree over the rows, ordered by site, y and x, and lists of free sites at its nodes: the list of a node
//! is that of all rows beneath it, which are of one site and begin at one x, so rows that repeat one another cost one list
//! and one node. Each node has the least and greatest x and y of the free sites of the rows beneath it, the least sum of
//! both, how many free sites follow one another at most, and the lowest number of a row.
//!
//! `best_position` first looks at the rows that lie nearest to the start along y, outward, at most forty-eight, and none
//! where more than four stand at one height: in most blocks the next row on each side is soon farther away than the best
//! position found. Otherwise it goes down the tree, into the nearer one of two nodes first, and passes a node beneath which
//! nothing can be better than the best position found. So full rows and those outside the die cost nothing.
//!
//! `take_box` finds the row by bisection where all rows are of one site, the box meets one row alone along y and the row
//! shares its list with no other. Otherwise it goes down from the first node: it passes each node that the box lies beside,
//! takes the box at once from a list whose rows it all meets along y, hands the list of other nodes down to both nodes
//! below, one of which gets a copy, and makes the nodes anew on its way back. Nodes beneath one with a list keep the bounds
//! that they had, so a search takes there the narrower ones of a node and of those above it. Nodes stay as they are where a row's
//! first and last free site and its longest stretch do. Lists only go down, so none is looked for before the first node that has
//! one: once no two rows have a list together, at none above the leaves.
//!
//! What a list means in the plane is `IsFreeList`: a site is in it if and only if the row has the site and the site's box is
//! clear, that is in the die and sharing no unit square with a box that is in the way.
#![tactic(auto)]

mod bounds;
mod branch;
mod candidate;
mod ends;
mod free_rows;
mod free_sites;
mod near_rows;
mod nearest;
mod only_row;
mod part_ends;
mod part_groups;
mod part_places;
mod part_search;
mod reach;
mod row_keys;
mod row_parts;
mod row_search;
mod row_sites;
mod row_tree;
mod rows_inside;
mod rows_taken;
mod shared_lists;
mod site_edges;
mod stretch;
mod take_parts;
mod take_sites;

pub use candidate::{Wanted, fits};
pub use free_rows::FreeRows;
pub use free_sites::FreeSites;
pub use leg_rules::Candidate;
pub use row_keys::{RowKey, row_order};
pub use row_sites::{sites_inside, sites_met};
pub use stretch::Stretch;
