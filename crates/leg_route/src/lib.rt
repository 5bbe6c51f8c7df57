//! The router: it adds wires to nets that are open, along the grid of tracks, until all their pieces are joined.
//!
//! `route` takes the flat of the design, which it refuses if violations other than open nets hold (`clean_flat` of
//! `leg_check`). Then it makes the grid and goes through the nets of `NETS` in turn. As long as a piece of the net is not
//! joined to its first one, a search over the grid gives the wires of a shortest open walk from the joined part to the rest,
//! and these are added to the flat, which grows; so all later questions are asked of the metal as it is then. Which pieces are
//! joined is found once for each net, from its own shapes, and kept while it gets wires (`NetJoins` of `leg_wire`); what is
//! open is read from a table (`SlotAccess` of `leg_route_access`). Neither is made anew for a walk, nor are the slots of the
//! joined part, to which those of newly joined pieces are added, and their hulls. The slots of the other pieces are kept too:
//! those that may be near to the joined part each with how many steps are left to it at least, and the others in groups of some
//! that lie near one another. A walk is looked for among the near ones alone, and groups come near until no other is as near as
//! the walk is long. The slots are looked for again only where a search nearby finds no walk. Which pieces have come to the
//! joined part is told without a look at the others. So a walk costs a look at the near ends and at each group of the others,
//! and not at each pin of the net.
//!
//! When no net is open, the design gets all wires at once (`Design::with_all_wires`), which is the last allocation; so each
//! refusal returns the design as it was. That the result is legal is a theorem about the run: clean wires leave a clean
//! flat clean, and a flat in which no net is open is that of the design which got the wires, except for the numbers of its
//! shapes and pieces (`leg_route_laws`).
#![tactic(auto)]

mod end_slots;
mod fault;
mod finish;
mod grid_ground;
mod ground;
mod joined_part;
mod kept_joins;
pub mod laws;
mod net_ends;
mod net_turn;
mod nets;
mod next_wires;
mod routing;

pub use fault::RouteFault;
pub use routing::route;
