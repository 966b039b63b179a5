use mdp_wide::{Kind, Unfinished};

/// Where a computation over nodes, or over states, has a term past width: what was computed, and the node or state and the choice for which.
#[derive(Clone, Copy)]
pub struct NodePlace {
    pub kind: Kind,
    pub node: u32,
    pub choice: u32,
}

/// Why a computation over nodes, or over states, isn't finished.
pub type RoundError = Unfinished<NodePlace>;
