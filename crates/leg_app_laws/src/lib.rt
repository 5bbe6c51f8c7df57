//! What `route`, `legalise`, `flow` and `finish` print, the checks answer `legal`; and `compare` tells that nothing but places or wires
//! differs.
#![tactic(auto)]

pub mod laws;
