ghost use Rattle.std.specs.Prelude.{◌≡◌};
ghost use Rattle.mdp_policy_iteration.specs.Ends.{path_error, wide_of_part, error_of_part};

use crate::errors::RoundError;
use mdp_num::Frac;
use mdp_wide::{Kind, Part, SolveError, TooWide, Unfinished};

/// A best policy, with one choice per node, its round and its values. Rounds count from 0; one above 2^64 - 1 is given as 2^64 - 1.
#[derive(Drop)]
pub struct Solution {
    pub round: u64,
    pub policy: Vec<u32>,
    pub values: Vec<Frac>,
}

/// Where a written term is past width: the round, that round's policy, what was computed, and the node and the choice for which.
#[derive(Drop)]
pub struct WideAt {
    pub round: u64,
    pub policy: Vec<u32>,
    pub kind: Kind,
    pub node: u32,
    pub choice: u32,
}

impl WideAt {
    /// The same term as one of a part of a query.
    pub fn in_part(self, part: Part) -> TooWide
        ensures { result ≡ wide_of_part part self }
    {
        TooWide {
            part,
            round: self.round,
            policy: self.policy,
            kind: self.kind,
            state: Some(self.node),
            choice: Some(self.choice),
        }
    }
}

/// Why a path has no best policy.
pub type PathError = Unfinished<WideAt>;

/// The error of a path as one of a part of a query.
pub fn in_part(error: PathError, part: Part) -> SolveError
    ensures { result ≡ error_of_part part error }
{
    match error {
        PathError::TooWide(wide) => SolveError::TooWide(wide.in_part(part)),
        PathError::Memory => SolveError::Memory,
    }
}

/// The error of a round as that of a path, with the number of the round and its policy.
pub fn path_error(error: RoundError, round: u64, policy: Vec<u32>) -> PathError
    ensures { result ≡ path_error error round policy }
{
    match error {
        RoundError::TooWide(place) => PathError::TooWide(WideAt {
            round,
            policy,
            kind: place.kind,
            node: place.node,
            choice: place.choice,
        }),
        RoundError::Memory => PathError::Memory,
    }
}
