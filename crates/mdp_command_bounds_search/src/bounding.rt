ghost use Rattle.std.specs.Prelude.{◌≡◌, ◌⊎◌, Some, None, OnOk, IfOk, IfErr, length};
ghost use Rattle.mdp_spec.specs.{Labels.{place_of}, Mdp.{states_of}};
ghost use Rattle.mdp_cert.specs.BoundsCert.{plain_body};
ghost use Rattle.mdp_check.specs.Check.{labelled_marks};
ghost use Rattle.mdp_command.specs.Prelude.{plain_query, no_memory, plain_refusal};
ghost use Rattle.mdp_job.specs.Job.{reach, until, reward, mean};
ghost use Rattle.mdp_command_bounds_search.specs.{Certificate.{AreBounds}, Due.{claim_of, label_fault, fault_of}, Near.{IsNearOrWide}};

use mdp_cert::BoundsBody;
use mdp_job::{Query, Refusal};
use mdp_rows::{Dir, Marks, Model};
use mdp_search_bounds::{bounds_mean, bounds_reach, bounds_reward};
use std::alloc::Global;

/// The states with a label, or the refusal of a label that isn't there.
fn states_with(alloc: Global, model: &Model, label: &[u8]) -> Result<Marks, Refusal>
    ensures marks { IfOk result (λ marks. labelled_marks model.now label.now ≡ Some marks) }
    ensures each { IfOk result (λ marks. length marks ≡ states_of model.now) }
    ensures refused { IfErr result (λ r. (plain_refusal r ≡ no_memory)
        ⊎ (label_fault (place_of label.now model.now.labels) ≡ Some (plain_refusal r))) }
{
    let Some(place) = model.label(label) else {
        return Err(Refusal::QueryLabel);
    };
    match model.marks_of(alloc, place) {
        Ok(marks) => Ok(marks),
        Err(_) => Err(Refusal::Memory),
    }
}

/// Bounds of the probabilities of reaching a label, or the refusal of a label that isn't there.
fn bounds_of_label(
    alloc: Global,
    model: &Model,
    dir: Dir,
    label: &[u8],
    digits: u32,
) -> Result<BoundsBody, Refusal>
    ensures fits { OnOk result (fault_of (reach label.now) model.now ≡ None) }
    ensures found { IfOk result (λ body. AreBounds (claim_of dir (reach label.now)) model.now (plain_body body)) }
    ensures near { IfOk result (λ body. IsNearOrWide digits dir (reach label.now) model.now (plain_body body)) }
    ensures refused { IfErr result (λ r. (plain_refusal r ≡ no_memory) ⊎ (fault_of (reach label.now) model.now ≡ Some (plain_refusal r))) }
{
    model.known();
    let goals = states_with(alloc, model, label)?;
    match bounds_reach(alloc, model, &goals, dir, digits) {
        Ok(bounds) => Ok(BoundsBody::Reach(bounds)),
        Err(_) => Err(Refusal::Memory),
    }
}

/// Bounds of the probabilities of reaching a label by way of states with the label `stay` alone, or the refusal of a label that isn't there: `stay`
/// is looked up first. They are bounds of reaching the label on the model in which each state with neither label is left with a loop.
fn bounds_of_until(
    alloc: Global,
    model: &Model,
    dir: Dir,
    stay: &[u8],
    label: &[u8],
    digits: u32,
) -> Result<BoundsBody, Refusal>
    ensures fits { OnOk result (fault_of (until stay.now label.now) model.now ≡ None) }
    ensures found { IfOk result (λ body. AreBounds (claim_of dir (until stay.now label.now)) model.now (plain_body body)) }
    ensures near { IfOk result (λ body. IsNearOrWide digits dir (until stay.now label.now) model.now (plain_body body)) }
    ensures refused { IfErr result (λ r. (plain_refusal r ≡ no_memory) ⊎ (fault_of (until stay.now label.now) model.now ≡ Some (plain_refusal r))) }
{
    model.known();
    let stays = states_with(alloc, model, stay)?;
    let goals = states_with(alloc, model, label)?;
    let Ok(way) = model.cut(alloc, &stays, &goals) else {
        return Err(Refusal::Memory);
    };
    match bounds_reach(alloc, &way, &goals, dir, digits) {
        Ok(bounds) => Ok(BoundsBody::Reach(bounds)),
        Err(_) => Err(Refusal::Memory),
    }
}

/// Bounds of the rewards of a name until a label, or the first refusal: the name is looked up first, then the label, then it is asked whether a
/// reward of this name is below 0.
fn bounds_of_reward(
    alloc: Global,
    model: &Model,
    dir: Dir,
    name: &[u8],
    label: &[u8],
    digits: u32,
) -> Result<BoundsBody, Refusal>
    ensures fits { OnOk result (fault_of (reward name.now label.now) model.now ≡ None) }
    ensures found { IfOk result (λ body. AreBounds (claim_of dir (reward name.now label.now)) model.now (plain_body body)) }
    ensures near { IfOk result (λ body. IsNearOrWide digits dir (reward name.now label.now) model.now (plain_body body)) }
    ensures refused { IfErr result (λ r. (plain_refusal r ≡ no_memory) ⊎ (fault_of (reward name.now label.now) model.now ≡ Some (plain_refusal r))) }
{
    model.known();
    let Some(reward) = model.reward_named(name) else {
        return Err(Refusal::QueryReward);
    };
    let Some(place) = model.label(label) else {
        return Err(Refusal::QueryLabel);
    };
    if model.negative(reward) {
        return Err(Refusal::QueryNegative);
    }
    let Ok(goals) = model.marks_of(alloc, place) else {
        return Err(Refusal::Memory);
    };
    match bounds_reward(alloc, model, reward, &goals, dir, digits) {
        Ok(bounds) => Ok(BoundsBody::Reward(bounds)),
        Err(_) => Err(Refusal::Memory),
    }
}

/// Bounds of the mean payoffs of a name, or the refusal of a name that isn't there.
fn bounds_of_mean(
    alloc: Global,
    model: &Model,
    dir: Dir,
    name: &[u8],
    digits: u32,
) -> Result<BoundsBody, Refusal>
    ensures fits { OnOk result (fault_of (mean name.now) model.now ≡ None) }
    ensures found { IfOk result (λ body. AreBounds (claim_of dir (mean name.now)) model.now (plain_body body)) }
    ensures near { IfOk result (λ body. IsNearOrWide digits dir (mean name.now) model.now (plain_body body)) }
    ensures refused { IfErr result (λ r. (plain_refusal r ≡ no_memory) ⊎ (fault_of (mean name.now) model.now ≡ Some (plain_refusal r))) }
{
    model.known();
    let Some(reward) = model.reward_named(name) else {
        return Err(Refusal::QueryReward);
    };
    match bounds_mean(alloc, model, reward, dir, digits) {
        Ok(bounds) => Ok(BoundsBody::Mean(bounds)),
        Err(_) => Err(Refusal::Memory),
    }
}

/// Bounds of a query, or its refusal.
pub(crate) fn bounds_of_query(
    alloc: Global,
    model: &Model,
    dir: Dir,
    query: Query<'_>,
    digits: u32,
) -> Result<BoundsBody, Refusal>
    ensures fits { OnOk result (fault_of (plain_query query.entry) model.now ≡ None) }
    ensures found { IfOk result (λ body. AreBounds (claim_of dir (plain_query query.entry)) model.now (plain_body body)) }
    ensures near { IfOk result (λ body. IsNearOrWide digits dir (plain_query query.entry) model.now (plain_body body)) }
    ensures refused { IfErr result (λ r. (plain_refusal r ≡ no_memory) ⊎ (fault_of (plain_query query.entry) model.now ≡ Some (plain_refusal r))) }
{
    match query {
        Query::Reach { label } => bounds_of_label(alloc, model, dir, label, digits),
        Query::Until { stay, label } => bounds_of_until(alloc, model, dir, stay, label, digits),
        Query::Reward { name, label } => bounds_of_reward(alloc, model, dir, name, label, digits),
        Query::Mean { name } => bounds_of_mean(alloc, model, dir, name, digits),
    }
}
