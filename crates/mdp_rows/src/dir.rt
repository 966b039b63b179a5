ghost use Rattle.std.specs.Prelude.{◌≡◌};
ghost use Rattle.mdp_rows.specs.Better.{is_better};

use std::cmp::Ordering;

/// Whether the greatest or the least probability over all policies is meant.
#[derive(Clone, Copy, PartialEq, Eq)]
pub enum Dir {
    Max,
    Min,
}

impl Dir {
    /// Whether a value that compares so with the best one is better: greater for `Max`, less for `Min`.
    pub fn is_better(self, order: Ordering) -> bool
        ensures { result ≡ is_better self order }
    {
        match self {
            Dir::Max => order == Ordering::Greater,
            Dir::Min => order == Ordering::Less,
        }
    }
}
