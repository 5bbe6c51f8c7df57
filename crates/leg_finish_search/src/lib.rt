//! Walks of many nets over a lattice, by negotiation: nets may cross one another at a price that rises from round to round,
//! those that do are taken up and laid again, until none does.
//!
//! This is negotiated congestion (PathFinder, McMurchie and Ebeling, 1995), over a lattice that is seen only through a
//! trait (`Lattice`). In the first round each net is laid, those with a short half perimeter first; in each further round
//! the nets that are in conflict when their turn comes are taken up and laid again. What another net uses costs more from
//! round to round, up to a limit (`Prices`), and a place over which nets were in conflict at the end of a round costs more
//! for good. When none is in conflict, each net is laid twice more past all others, since detours of earlier rounds may not
//! be needed any more.
//!
//! A net is in conflict at its elements: the nodes that its walks use, and the steps up and down. Which elements of other
//! nets lie too near is found from the rectangles that nodes and vias have (`Clash`), at the places around an element. For
//! each element it is counted how many nets have metal in conflict with it; a net keeps the list of where it is counted
//! (`Laid`), so that it is taken away again exactly there. Steps along a level need no count: whatever is too near to the
//! metal between two nodes is as near to one of them.
//!
//! On its turn a net is a tree that grows (`Tree`): from all that is joined a search (A*, `find`) goes for the cheapest way
//! to any other group, and aims at the nearest one. What is kept of a slot takes 16 bytes, and what a search has touched is
//! forgotten slot by slot, so that a short net takes as long as what it looks at, whatever the size of the lattice. Costs
//! are whole numbers, and of equal ones the order is fixed: the same nets get the same walks.
//!
//! What is proved is that it is safe and ends: `leg_finish` judges what it gets.
#![tactic(auto)]

mod board;
mod budget;
mod clash;
mod congestion;
mod element;
mod front;
mod ground;
mod laid;
mod lattice;
mod negotiation;
mod net;
mod place;
mod places;
mod price;
mod progress;
mod rounds;
mod search;
mod slot_state;
mod stamp;
mod table;
mod tree;
mod turn;
mod walk_back;

pub use budget::Budget;
pub use clash::Part;
pub use element::Element;
pub use lattice::{GridPoint, Lattice};
pub use negotiation::{Negotiated, negotiate};
pub use net::NetToJoin;
pub use progress::Progress;
