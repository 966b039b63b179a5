use mdp_num::Frac;

/// A lower value, which may be missing.
#[derive(Clone, Copy)]
pub(crate) struct Lower {
    pub value: Option<Frac>,
}
