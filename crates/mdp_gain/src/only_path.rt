ghost use Rattle.mdp_unichain.specs.Component.{IsInner};
ghost use Rattle.mdp_gain.specs.{Code.{component_in, HasEnds}, Only.{IsErrorOf, Ends}};

use crate::only_round::{Settled, Turn};
use crate::only_state::Only;
use mdp_elim::solution_law;
use mdp_policy_iteration::{NodePlace, PathError, RoundError, WideAt};
use std::alloc::Global;

/// The error of a round, with the round and its choice.
fn path_error(alloc: Global, error: RoundError, round: u64, choice: u32) -> PathError
    ensures { IsErrorOf error round choice result }
{
    let RoundError::TooWide(
        NodePlace {
            kind,
            node,
            choice: wide,
        },
    ) = error
    else {
        return PathError::Memory;
    };
    match vec![in alloc; choice] {
        Ok(policy) => PathError::TooWide(WideAt {
            round,
            policy,
            kind,
            node,
            choice: wide,
        }),
        Err(_) => PathError::Memory,
    }
}

impl Only<'_> {
    /// Policy iteration from a choice.
    pub(crate) fn settle(&self, alloc: Global, start: u32) -> Result<Settled, PathError>
        requires given { HasEnds self.now.component }
        requires start { IsInner (component_in self.now.component) self.now.s start }
        ensures { Ends (component_in self.now.component) self.now.s start result }
    {
        solution_law();
        let mut choice = start;
        let mut round = 0u64;
        'rounds: loop {
            match self.round(choice) {
                Ok(Turn::Done(settled)) => return Ok(settled),
                Ok(Turn::Next(next)) => {
                    choice = next;
                    round = round.saturating_add(1);
                }
                Err(error) => return Err(path_error(alloc, error, round, choice)),
            }
        }
    }
}
