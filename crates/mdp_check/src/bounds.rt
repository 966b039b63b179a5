ghost use Rattle.std.specs.Prelude.{◌≡◌, ◌⊎◌, ◌↔◌, IfOk, Some, length};
ghost use Rattle.mdp_spec.specs.Mdp.{states_of};
ghost use Rattle.mdp_cert.specs.{Cert.{plain_claim}, BoundsPlain.{plain}};
ghost use Rattle.mdp_farkas.specs.Verdict.{IfYes, IsYes};
ghost use Rattle.mdp_check.specs.Check.{reward_place};
ghost use Rattle.mdp_check.specs.Bounds.{bounds_verdict, bounds_answer_to, AreValidBounds, LiesBetween, IsBoundsAccepted, IsBoundsTrue};

use crate::answer::{Answer, answer_of};
use crate::bounds_initial::bounds_init_verdict;
use crate::checking::{goal_marks, reward_place};
use crate::until::until_bounds_verdict;
use mdp_bounds::{holds_bounds_mean, holds_bounds_reach, holds_bounds_reward};
use mdp_cert::{BoundsBody, BoundsCert, Claim};
use mdp_farkas::Verdict;
use mdp_num::Memory;
use mdp_rows::{Marks, Model};
use std::alloc::Global;

/// What the rules of the claim from rule 2 on say of the body, for the claim's reward model and goals.
fn bounds_verdict(
    alloc: Global,
    model: &Model,
    reward: u32,
    goals: &Marks,
    cert: &BoundsCert,
) -> Result<Verdict, Memory>
    requires reward { reward_place model.now (plain_claim cert.now.claim) ≡ Some reward }
    requires goals { length goals.now ≡ states_of model.now }
    requires states { cert.now.states ≡ states_of model.now }
    ensures verdict { IfOk result (λ v. v ≡ bounds_verdict model.now reward goals.now (plain cert.now)) }
    ensures rules { IfOk result (λ v. IsYes v ↔ AreValidBounds model.now reward goals.now (plain cert.now)) }
    ensures between { IfOk result (λ v. IfYes v (LiesBetween model.now reward goals.now (plain cert.now))) }
{
    match (&cert.claim, &cert.body) {
        (Claim::Reach { dir, .. }, BoundsBody::Reach(reach)) => {
            Ok(holds_bounds_reach(model, goals, *dir, reach))
        }
        (Claim::Until { dir, stay, .. }, BoundsBody::Reach(reach)) => {
            until_bounds_verdict(alloc, model, goals, *dir, stay, reach)
        }
        (Claim::Reward { dir, .. }, BoundsBody::Reward(rewards)) => {
            Ok(holds_bounds_reward(model, reward, goals, *dir, rewards))
        }
        (Claim::Mean { dir, .. }, BoundsBody::Mean(mean)) => {
            Ok(holds_bounds_mean(model, reward, *dir, mean))
        }
        _ => unreachable!(),
    }
}

/// Holds a certificate of bounds against a model: the numbers of states, then the label and the reward model, then rule 1 and the rules of the claim.
/// After yes the claim is true of the model, whoever made the certificate.
pub fn check_bounds(alloc: Global, model: &Model, cert: &BoundsCert) -> Answer
    ensures answer { (result ≡ Answer.Memory) ⊎ (result ≡ bounds_answer_to model.now (plain cert.now)) }
    ensures accepted { (result ≡ Answer.Memory) ⊎ ((result ≡ Answer.Yes) ↔ IsBoundsAccepted model.now (plain cert.now)) }
    ensures bound { result ≡ Answer.Yes → IsBoundsTrue model.now (plain cert.now) }
{
    if cert.states != model.states() {
        return Answer::Size;
    }
    let goals = match goal_marks(alloc, model, &cert.claim) {
        Ok(Some(goals)) => goals,
        Ok(None) => return Answer::NoLabel,
        Err(Memory) => return Answer::Memory,
    };
    let Some(reward) = reward_place(model, &cert.claim) else {
        return Answer::NoReward;
    };
    match bounds_init_verdict(model, &cert.init, &cert.body) {
        Verdict::Yes => match bounds_verdict(alloc, model, reward, &goals, cert) {
            Ok(verdict) => answer_of(verdict),
            Err(Memory) => Answer::Memory,
        },
        other => answer_of(other),
    }
}
