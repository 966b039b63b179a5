ghost use Rattle.std.specs.Prelude.{◌≡◌, ◌⊎◌, ◌↔◌, IfOk, Some, length, option_map};
ghost use Rattle.mdp_spec.specs.Mdp.{states_of};
ghost use Rattle.mdp_cert.specs.{Plain.{plain}, Cert.{plain_claim}};
ghost use Rattle.mdp_farkas.specs.Verdict.{IfYes, IsYes};
ghost use Rattle.mdp_check.specs.Check.{labelled_marks, marks_by, reward_place, goal_marks, answer_to, body_verdict, IsBound, BoundOf, IsAccepted};
ghost use Rattle.mdp_check.specs.Check.{IsValidBody};

use crate::answer::{Answer, answer_of};
use crate::initial::{init_verdict, start_of};
use crate::until::{floor_verdict, flow_verdict, until_verdict};
use mdp_cert::{Body, Cert, Claim};
use mdp_farkas::{Verdict, holds_mean, holds_reach, holds_reward, holds_upper};
use mdp_num::Memory;
use mdp_rows::{Dir, Marks, Model};
use std::alloc::Global;

/// The place of the claim's reward model in the model, where it is there; 0 where the claim names none.
pub(crate) fn reward_place(model: &Model, claim: &Claim) -> Option<u32>
    ensures { result ≡ reward_place model.now (plain_claim claim.now) }
{
    match claim {
        Claim::Upper { .. } | Claim::Reach { .. } | Claim::Until { .. } | Claim::Witness { .. } =>
            Some(0),
        Claim::Reward { name, .. } => model.reward_named(name),
        Claim::Mean { name, .. } => model.reward_named(name),
    }
}

/// Which states have this label. None where the model hasn't it.
fn labelled_marks(alloc: Global, model: &Model, label: &[u8]) -> Result<Option<Marks>, Memory>
    ensures { IfOk result (λ goals. goals ≡ labelled_marks model.now label.now) }
{
    match model.label(label) {
        Some(place) => Ok(Some(model.marks_of(alloc, place)?)),
        None => Ok(None),
    }
}

/// The goals of a label, which may be asked by way of states with the label `stay`. None where the model hasn't one of the two.
pub fn goals_on_way(
    alloc: Global,
    model: &Model,
    stay: Option<&[u8]>,
    label: &[u8],
) -> Result<Option<Marks>, Memory>
    ensures { IfOk result (λ goals. goals ≡ marks_by model.now (option_map (λ name. name.now) stay.entry) label.now) }
{
    match stay {
        Some(stay) if model.label(stay).is_none() => Ok(None),
        _ => labelled_marks(alloc, model, label),
    }
}

/// The goals: which states have the claim's label; no state where the claim names none. None where the model hasn't the label.
pub(crate) fn goal_marks(
    alloc: Global,
    model: &Model,
    claim: &Claim,
) -> Result<Option<Marks>, Memory>
    ensures { IfOk result (λ goals. goals ≡ goal_marks model.now (plain_claim claim.now)) }
{
    match claim {
        Claim::Upper { label } => labelled_marks(alloc, model, label),
        Claim::Reach { label, .. } => labelled_marks(alloc, model, label),
        Claim::Until { stay, label, .. } => {
            goals_on_way(alloc, model, Some(stay.as_slice()), label)
        }
        Claim::Reward { label, .. } => labelled_marks(alloc, model, label),
        Claim::Witness {
            stay: None,
            label,
            ..
        } => goals_on_way(alloc, model, None, label),
        Claim::Witness {
            stay: Some(stay),
            label,
            ..
        } => goals_on_way(alloc, model, Some(stay.as_slice()), label),
        Claim::Mean { .. } => Ok(Some(Marks::empty(alloc, model.states())?)),
    }
}

/// What the rules of the claim from rule 2 on say of the body, for the claim's reward model and goals.
fn body_verdict(
    alloc: Global,
    model: &Model,
    reward: u32,
    goals: &Marks,
    cert: &Cert,
) -> Result<Verdict, Memory>
    requires reward { reward_place model.now (plain_claim cert.now.claim) ≡ Some reward }
    requires goals { length goals.now ≡ states_of model.now }
    requires states { cert.now.states ≡ states_of model.now }
    ensures verdict { IfOk result (λ v. v ≡ body_verdict model.now reward goals.now (plain cert.now)) }
    ensures rules { IfOk result (λ v. IsYes v ↔ IsValidBody model.now reward goals.now (plain cert.now)) }
    ensures bound { IfOk result (λ v. IfYes v (BoundOf model.now reward goals.now (plain cert.now))) }
{
    let start = start_of(&cert.init);
    match (&cert.claim, &cert.body) {
        (Claim::Upper { .. }, Body::Upper(upper)) => Ok(holds_upper(model, goals, upper)),
        (Claim::Reach { dir, .. }, Body::Reach(reach)) => {
            Ok(holds_reach(model, goals, *dir, reach))
        }
        (Claim::Until { dir, stay, .. }, Body::Reach(reach)) => {
            until_verdict(alloc, model, goals, *dir, stay, reach)
        }
        (Claim::Reward { dir, .. }, Body::Reward(rewards)) => {
            Ok(holds_reward(model, reward, goals, *dir, rewards))
        }
        (Claim::Mean { dir, .. }, Body::Mean(mean)) => Ok(holds_mean(model, reward, *dir, mean)),
        (
            Claim::Witness {
                dir: Dir::Max,
                stay,
                threshold,
                ..
            },
            Body::Flow(flow),
        ) => flow_verdict(alloc, model, goals, start, stay, *threshold, flow),
        (
            Claim::Witness {
                dir: Dir::Min,
                stay,
                threshold,
                ..
            },
            Body::Floor(floor),
        ) => floor_verdict(alloc, model, goals, start, stay, *threshold, floor),
        _ => unreachable!(),
    }
}

/// Holds a certificate against a model: the numbers of states, then the reward model and the label, then rule 1 and the rules of the claim.
/// After yes the claim is true of the model, whoever made the certificate.
pub fn check(alloc: Global, model: &Model, cert: &Cert) -> Answer
    ensures answer { (result ≡ Answer.Memory) ⊎ (result ≡ answer_to model.now (plain cert.now)) }
    ensures accepted { (result ≡ Answer.Memory) ⊎ ((result ≡ Answer.Yes) ↔ IsAccepted model.now (plain cert.now)) }
    ensures bound { result ≡ Answer.Yes → IsBound model.now (plain cert.now) }
{
    if cert.states != model.states() {
        return Answer::Size;
    }
    let Some(reward) = reward_place(model, &cert.claim) else {
        return Answer::NoReward;
    };
    let goals = match goal_marks(alloc, model, &cert.claim) {
        Ok(Some(goals)) => goals,
        Ok(None) => return Answer::NoLabel,
        Err(Memory) => return Answer::Memory,
    };
    match init_verdict(model, &cert.init, &cert.body) {
        Verdict::Yes => match body_verdict(alloc, model, reward, &goals, cert) {
            Ok(verdict) => answer_of(verdict),
            Err(Memory) => Answer::Memory,
        },
        other => answer_of(other),
    }
}
