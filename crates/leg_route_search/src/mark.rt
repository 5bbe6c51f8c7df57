//! What a search has noted of the nodes.

/// What a search has noted of a node.
#[derive(Clone, Copy)]
pub enum Mark {
    /// Nothing yet.
    Unseen,
    /// The node is not open.
    Shut,
    /// The node is open. It is this many steps from the nearest start, and is entered from the node `from`: a start
    /// from itself.
    Reached { level: u32, from: u32 },
    /// The node is open, and each walk to it from a start has at least this many steps.
    Far { steps: u32 },
}
