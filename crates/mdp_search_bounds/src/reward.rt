ghost use Rattle.std.specs.Prelude.{◌≡◌, ◌<◌, ◌⊎◌, false, length, IfOk};
ghost use Rattle.mdp_spec.specs.Mdp.{states_of};
ghost use Rattle.mdp_rows.specs.Negative.{has_negative};
ghost use Rattle.mdp_bounds.specs.Reward.{IsRewardBounds};
ghost use Rattle.mdp_search_bounds.specs.{Held.{HasRewardSizes, IsHeldReward}, Near.{AreRewardsNear}, Wide.{IsRewardWide}};

use crate::gap::Gap;
use crate::ladder::{Search, bounds_by};
use crate::reward_trivial::trivial_reward;
use crate::simplest::simplest_rewards_of;
use mdp_bounds::{RewardBoundsCert, holds_bounds_reward, reward_bounds_at_state};
use mdp_claims::Verdict;
use mdp_num::{Frac, Memory};
use mdp_proposals::{ProposedReward, listed, numbers, propose_reward};
use mdp_reward::solve_reward;
use mdp_rows::{Dir, Marks, Model};
use mdp_wide::Unfinished;
use std::alloc::{AllocError, Global};

/// The search for bounds of the reward of a name until a goal.
#[derive(Clone, Copy)]
struct Earning<'m, 'g> {
    model: &'m Model,
    name: u32,
    goals: &'g Marks,
    dir: Dir,
    ghost named: { name < length model.now.names },
    ghost goals_each: { length goals.now ≡ states_of model.now },
    ghost none_negative: { has_negative model.now name ≡ false },
}

/// The same values once more.
fn copied(alloc: Global, values: &[Option<Frac>]) -> Result<Vec<Option<Frac>>, AllocError>
    ensures { IfOk result (λ list. list.items ≡ values.now) }
{
    values.to_vec(alloc)
}

impl Search for Earning<'_, '_> {
    type Proposal = ProposedReward;

    type Cert = RewardBoundsCert;

    ghost is_sized = { λ p cert. HasRewardSizes p.model.now cert };

    ghost is_held = { λ p cert. IsHeldReward p.dir p.model.now p.name p.goals.now cert };

    ghost is_near = { λ p digits cert. AreRewardsNear digits p.model.now cert.lower.items cert.upper.items };

    ghost is_wide = { λ p. IsRewardWide p.dir p.model.now p.name p.goals.now };

    ghost is_made = { λ p digits near. Unit {0} };

    ghost is_proposed = { λ p digits cert. Unit {0} };

    ghost is_found = { λ p cert. Unit {0} };

    fn model(&self) -> &Model {
        self.model
    }

    fn first_digits(&self, _digits: u32) -> Option<u32> {
        None
    }

    fn propose(&self, alloc: Global, digits: u32) -> Result<ProposedReward, Memory> {
        propose_reward(alloc, self.model, self.name, self.goals, self.dir, digits)
    }

    fn proposed(&self, alloc: Global, near: &ProposedReward) -> Result<RewardBoundsCert, Memory> {
        let states = self.model.states();
        Ok(RewardBoundsCert {
            lower: listed(alloc, states, &near.lower)?,
            upper: listed(alloc, states, &near.upper)?,
            choices: numbers(alloc, states, &near.choices)?,
            ranks: numbers(alloc, states, &near.ranks)?,
        })
    }

    fn simplest(
        &self,
        alloc: Global,
        near: &ProposedReward,
        is_sought: &[bool],
    ) -> Result<RewardBoundsCert, Memory> {
        simplest_rewards_of(alloc, self.model, near, is_sought)
    }

    fn holds_at(&self, cert: &RewardBoundsCert, s: u32) -> bool {
        s >= self.model.states()
            || reward_bounds_at_state(self.model, self.name, self.goals, self.dir, cert, s).is_ok()
    }

    fn holds(&self, cert: &RewardBoundsCert) -> bool {
        matches!(
            holds_bounds_reward(self.model, self.name, self.goals, self.dir, cert),
            Verdict::Yes
        )
    }

    fn exact(&self, alloc: Global) -> Result<Option<RewardBoundsCert>, Memory> {
        match solve_reward(alloc, self.model, self.name, self.goals, self.dir) {
            Ok(answer) => {
                let lower = copied(alloc, &answer.values)?;
                Ok(Some(RewardBoundsCert {
                    lower,
                    upper: answer.values,
                    choices: answer.choices,
                    ranks: answer.ranks,
                }))
            }
            Err(Unfinished::TooWide(_)) => Ok(None),
            Err(Unfinished::Memory) => Err(Memory),
        }
    }

    fn gap(&self, cert: &RewardBoundsCert) -> Gap {
        Gap::between_rewards(&cert.lower, &cert.upper)
    }

    fn trivial(&self, alloc: Global) -> Result<RewardBoundsCert, Memory> {
        trivial_reward(alloc, self.model, self.name, self.goals, self.dir)
    }
}

/// Bounds of the greatest or the least reward of the name of place `name` until a goal, in units of that reward, with a policy and ranks: exact
/// values, where the simplest fractions between the bounds that the search proposes are such; else these bounds, in as few digits as come as near as
/// `digits` say: at most 10^-`digits` apart, or that times an upper value above 1; where none do, the exact answer, if it isn't too wide; else what
/// was found, at last 0 and infinite. They always meet the rules. An `Err` is want of memory.
pub fn bounds_reward(
    alloc: Global,
    model: &Model,
    name: u32,
    goals: &Marks,
    dir: Dir,
    digits: u32,
) -> Result<RewardBoundsCert, Memory>
    requires name { name < length model.now.names }
    requires goals { length goals.now ≡ states_of model.now }
    requires none_negative { has_negative model.now name ≡ false }
    ensures rules { IfOk result (λ cert. IsRewardBounds dir model.now name goals.now cert.lower.items cert.upper.items cert.choices.items
        cert.ranks.items) }
    ensures near { IfOk result (λ cert. AreRewardsNear digits model.now cert.lower.items cert.upper.items ⊎
        IsRewardWide dir model.now name goals.now) }
    ensures lower { IfOk result (λ cert. length cert.lower.items ≡ states_of model.now) }
    ensures upper { IfOk result (λ cert. length cert.upper.items ≡ states_of model.now) }
    ensures choices { IfOk result (λ cert. length cert.choices.items ≡ states_of model.now) }
    ensures ranks { IfOk result (λ cert. length cert.ranks.items ≡ states_of model.now) }
{
    let search = Earning {
        model,
        name,
        goals,
        dir,
    };
    bounds_by(alloc, &search, digits)
}
