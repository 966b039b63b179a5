use mdp_wide::{Kind, Unfinished};

/// Where values that are joined have a term past width: what was computed, and the state and the choice for which, where there is one.
#[derive(Clone, Copy)]
pub(crate) struct JoinPlace {
    pub(crate) kind: Kind,
    pub(crate) state: Option<u32>,
    pub(crate) choice: Option<u32>,
}

/// Why values aren't joined.
pub(crate) type JoinError = Unfinished<JoinPlace>;
