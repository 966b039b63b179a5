ghost use Rattle.std.specs.Prelude.{◌≡◌, ◌<◌, length, slice_index};
ghost use Rattle.mdp_wide.specs.declared.too_wide.Kind.TheVariants.{Evaluate, Compare};
ghost use Rattle.mdp_policy_iteration.specs.Faults.{placed_at};

use crate::errors::{NodePlace, RoundError};
use mdp_num::Wide;
use mdp_wide::Kind;

/// A step of the evaluation of a policy, for node `s`, with the node and the policy's choice where its term is past width. One choice for each node.
pub fn at_node<T>(step: Result<T, Wide>, policy: &[u32], s: u32) -> Result<T, RoundError>
    requires { s < length policy.now }
    ensures { result ≡ placed_at Evaluate s (slice_index policy.now s) step }
{
    match step {
        Ok(value) => Ok(value),
        Err(Wide) => Err(RoundError::TooWide(NodePlace {
            kind: Kind::Evaluate,
            node: s,
            choice: policy[s as usize],
        })),
    }
}

/// A step of the comparison of choice `c` of node `s`, with the node and the choice where its term is past width.
pub fn at_choice<T>(step: Result<T, Wide>, s: u32, c: u32) -> Result<T, RoundError>
    ensures { result ≡ placed_at Compare s c step }
{
    match step {
        Ok(value) => Ok(value),
        Err(Wide) => Err(RoundError::TooWide(NodePlace {
            kind: Kind::Compare,
            node: s,
            choice: c,
        })),
    }
}
