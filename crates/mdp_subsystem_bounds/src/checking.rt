ghost use Rattle.std.specs.Prelude.{◌≡◌, ◌⊎◌, ◌↔◌, ◌<◌, IfOk, length, option_map, unwrap_or};
ghost use Rattle.mdp_spec.specs.Mdp.{states_of};
ghost use Rattle.mdp_subsystem_bounds.specs.{Check.{verdict_on, answer_to, IsAccepted, IsBound}, Plain.{plain}};

use crate::cert::SubsystemBoundsCert;
use crate::holds::holds_subsystem_bounds;
use mdp_check::{Answer, answer_of, goals_on_way, way_by};
use mdp_farkas::{Verdict, state_verdict};
use mdp_num::Memory;
use mdp_rows::{Marks, Model};
use std::alloc::Global;

/// The label of the states on the way, where the claim names one.
fn name_of(stay: &Option<Vec<u8>>) -> Option<&[u8]>
    ensures { option_map (λ name. name.now) result ≡ option_map (λ name. name.items) stay.now }
{
    match stay {
        Some(stay) => Some(stay.as_slice()),
        None => None,
    }
}

/// The model on which the rules are held: what is left for the way, or the model itself.
fn way_in<'a>(model: &'a Model, left: &'a Option<Model>) -> &'a Model
    ensures { result.now ≡ unwrap_or left.now model.now }
{
    match left {
        Some(way) => way,
        None => model,
    }
}

/// What the rules from rule 2 on say, on the model or on what is left of it for the way.
fn verdict_on(
    alloc: Global,
    model: &Model,
    goals: &Marks,
    cert: &SubsystemBoundsCert,
) -> Result<Verdict, Memory>
    requires goals { length goals.now ≡ states_of model.now }
    requires states { length cert.now.lists.bounds.lower.items ≡ states_of model.now }
    ensures { IfOk result (λ v. v ≡ verdict_on model.now goals.now (plain cert.now)) }
{
    let left = way_by(alloc, model, goals, name_of(&cert.stay))?;
    let way = way_in(model, &left);
    holds_subsystem_bounds(
        alloc,
        way,
        goals,
        cert.start,
        cert.dir,
        cert.threshold,
        &cert.lists,
    )
}

/// What holding a certificate against a model answers.
fn answered(alloc: Global, model: &Model, cert: &SubsystemBoundsCert) -> Answer
    ensures { (result ≡ Answer.Memory) ⊎ (result ≡ answer_to model.now (plain cert.now)) }
{
    if cert.lists.bounds.lower.len() != model.states() as usize {
        return Answer::Size;
    }
    let goals = match goals_on_way(alloc, model, name_of(&cert.stay), &cert.label) {
        Ok(Some(goals)) => goals,
        Ok(None) => return Answer::NoLabel,
        Err(Memory) => return Answer::Memory,
    };
    match state_verdict(cert.start, model.initial(), true) {
        Verdict::Yes => match verdict_on(alloc, model, &goals, cert) {
            Ok(verdict) => answer_of(verdict),
            Err(Memory) => Answer::Memory,
        },
        other => answer_of(other),
    }
}

/// Holds a certificate of bounds of a subsystem against a model: the numbers of states, then the labels, then rule 1 and the rules of the claim.
/// After yes the claim is true of the model, whoever made the certificate.
pub fn check_subsystem_bounds(alloc: Global, model: &Model, cert: &SubsystemBoundsCert) -> Answer
    ensures answer { (result ≡ Answer.Memory) ⊎ (result ≡ answer_to model.now (plain cert.now)) }
    ensures accepted { (result ≡ Answer.Memory) ⊎ ((result ≡ Answer.Yes) ↔ IsAccepted model.now (plain cert.now)) }
    ensures bound { result ≡ Answer.Yes → IsBound model.now (plain cert.now) }
{
    model.known();
    answered(alloc, model, cert)
}
