ghost use Rattle.std.specs.Prelude.{◌≡◌, ◌⊎◌, length, IfOk};
ghost use Rattle.mdp_spec.specs.Mdp.{states_of};
ghost use Rattle.mdp_bounds.specs.Reach.{IsReachBounds};
ghost use Rattle.mdp_search_bounds.specs.{Held.{HasReachSizes, IsHeldReach}, Near.{AreNear}, Wide.{IsReachWide}};

use crate::gap::Gap;
use crate::ladder::{Search, bounds_by};
use crate::simplest::simplest_reach;
use crate::trivial::trivial_reach;
use mdp_bounds::{ReachBoundsCert, holds_bounds_reach, reach_bounds_at_state};
use mdp_claims::Verdict;
use mdp_num::Memory;
use mdp_proposals::{ProposedReach, fractions, numbers, propose_reach};
use mdp_reach::solve_reach;
use mdp_rows::{Dir, Marks, Model};
use mdp_wide::Unfinished;
use std::alloc::Global;

/// The search for bounds of the probability to reach a goal.
#[derive(Clone, Copy)]
struct Reaching<'m, 'g> {
    model: &'m Model,
    goals: &'g Marks,
    dir: Dir,
    ghost goals_each: { length goals.now ≡ states_of model.now },
}

impl Search for Reaching<'_, '_> {
    type Proposal = ProposedReach;

    type Cert = ReachBoundsCert;

    ghost is_sized = { λ p cert. HasReachSizes p.model.now cert };

    ghost is_held = { λ p cert. IsHeldReach p.dir p.model.now p.goals.now cert };

    ghost is_near = { λ p digits cert. AreNear digits p.model.now cert.lower.items cert.upper.items };

    ghost is_wide = { λ p. IsReachWide p.dir p.model.now p.goals.now };

    ghost is_made = { λ p digits near. Unit {0} };

    ghost is_proposed = { λ p digits cert. Unit {0} };

    ghost is_found = { λ p cert. Unit {0} };

    fn model(&self) -> &Model {
        self.model
    }

    fn first_digits(&self, _digits: u32) -> Option<u32> {
        None
    }

    fn propose(&self, alloc: Global, digits: u32) -> Result<ProposedReach, Memory> {
        propose_reach(alloc, self.model, self.goals, self.dir, digits)
    }

    fn proposed(&self, alloc: Global, near: &ProposedReach) -> Result<ReachBoundsCert, Memory> {
        let states = self.model.states();
        Ok(ReachBoundsCert {
            lower: fractions(alloc, states, &near.lower, near.one)?,
            upper: fractions(alloc, states, &near.upper, near.one)?,
            choices: numbers(alloc, states, &near.choices)?,
            ranks: numbers(alloc, states, &near.ranks)?,
        })
    }

    fn simplest(
        &self,
        alloc: Global,
        near: &ProposedReach,
        is_sought: &[bool],
    ) -> Result<ReachBoundsCert, Memory> {
        simplest_reach(alloc, self.model, near, is_sought)
    }

    fn holds_at(&self, cert: &ReachBoundsCert, s: u32) -> bool {
        s >= self.model.states()
            || reach_bounds_at_state(self.model, self.goals, self.dir, cert, s).is_ok()
    }

    fn holds(&self, cert: &ReachBoundsCert) -> bool {
        matches!(
            holds_bounds_reach(self.model, self.goals, self.dir, cert),
            Verdict::Yes
        )
    }

    fn exact(&self, alloc: Global) -> Result<Option<ReachBoundsCert>, Memory> {
        match solve_reach(alloc, self.model, self.goals, self.dir) {
            Ok(answer) => {
                let lower = answer.values.to_vec(alloc)?;
                Ok(Some(ReachBoundsCert {
                    lower,
                    upper: answer.values,
                    choices: answer.choices,
                    ranks: answer.ranks,
                }))
            }
            Err(Unfinished::TooWide(_)) => Ok(None),
            Err(Unfinished::Memory) => Err(Memory),
        }
    }

    fn gap(&self, cert: &ReachBoundsCert) -> Gap {
        Gap::between(&cert.lower, &cert.upper)
    }

    fn trivial(&self, alloc: Global) -> Result<ReachBoundsCert, Memory> {
        let cert = trivial_reach(alloc, self.model, self.goals)?;
        match holds_bounds_reach(self.model, self.goals, self.dir, &cert) {
            Verdict::Yes => Ok(cert),
            _ => unreachable!(),
        }
    }
}

/// Bounds of the greatest or the least probability to reach a goal, with a policy and ranks: exact values, where the simplest fractions between the
/// bounds that the search proposes are such; else these bounds, in as few digits as come as near as `digits` say: at most 10^-`digits` apart, or that
/// times an upper value above 1; where none do, the exact answer, if it isn't too wide; else what was found, at last 0 and 1. They always meet the
/// rules. An `Err` is want of memory.
pub fn bounds_reach(
    alloc: Global,
    model: &Model,
    goals: &Marks,
    dir: Dir,
    digits: u32,
) -> Result<ReachBoundsCert, Memory>
    requires goals { length goals.now ≡ states_of model.now }
    ensures rules { IfOk result (λ cert. IsReachBounds dir model.now goals.now cert.lower.items cert.upper.items cert.choices.items
        cert.ranks.items) }
    ensures near { IfOk result (λ cert. AreNear digits model.now cert.lower.items cert.upper.items ⊎ IsReachWide dir model.now goals.now) }
    ensures lower { IfOk result (λ cert. length cert.lower.items ≡ states_of model.now) }
    ensures upper { IfOk result (λ cert. length cert.upper.items ≡ states_of model.now) }
    ensures choices { IfOk result (λ cert. length cert.choices.items ≡ states_of model.now) }
    ensures ranks { IfOk result (λ cert. length cert.ranks.items ≡ states_of model.now) }
{
    let search = Reaching { model, goals, dir };
    bounds_by(alloc, &search, digits)
}
