ghost use Rattle.mdp_unichain.specs.Path.{IsStart};
ghost use Rattle.mdp_gain.specs.Code.{component_in, Ends, HasEntries, HasEnds};

use crate::chosen::Chosen;
use crate::component::EndComponent;
use crate::round::RoundEnd;
use crate::values::Values;
use mdp_elim::solution_law;
use mdp_policy_iteration::{PathError, path_error};
use std::alloc::Global;

/// The last policy of the path, with its gain and biases.
#[derive(Drop)]
pub(crate) struct Found {
    pub(crate) policy: Vec<u32>,
    pub(crate) values: Values,
}

impl EndComponent<'_> {
    /// Policy iteration from a start policy (Howard 1960): the last policy of the path, or the first term past width. A round above 2^64 - 1 is given
    /// as 2^64 - 1.
    pub(crate) fn improve(&self, alloc: Global, start: Vec<u32>) -> Result<Found, PathError>
        requires given { HasEnds self.now }
        requires start { IsStart (component_in self.now) start.items }
        ensures path { Ends (component_in self.now) start.items result }
        ensures entries { HasEntries (component_in self.now) result }
    {
        solution_law();
        let mut t = match self.reference(alloc, &start) {
            Ok(first) => first,
            Err(_) => return Err(PathError::Memory),
        };
        let mut policy = start;
        let mut round = 0u64;
        'rounds: loop {
            let chosen = Chosen {
                component: *self,
                policy: &policy,
            };
            match chosen.round(alloc, t) {
                Ok(RoundEnd::Done(values, _)) => return Ok(Found { policy, values }),
                Ok(RoundEnd::Next(next)) => {
                    t = match self.reference(alloc, &next) {
                        Ok(after) => after,
                        Err(_) => return Err(PathError::Memory),
                    };
                    policy = next;
                    round = round.saturating_add(1);
                }
                Err(error) => return Err(path_error(error, round, policy)),
            }
        }
    }
}
