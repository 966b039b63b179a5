ghost use Rattle.std.specs.Prelude.{◌≡◌, IfOk, All};
ghost use Rattle.mdp_spec.specs.{Labels.{initial_of}, Mdp.{states_of}};
ghost use Rattle.mdp_cert.specs.{Cert.{plain_claim, IsValueNarrow}, BoundsCert.{plain_body, IsInitInWidth, IsBodyInWidth, Fits}, BoundsPlain.{plain}};
ghost use Rattle.mdp_job.specs.Job.{plain_query};
ghost use Rattle.mdp_command_bounds_search.specs.{Certificate.{HasValues, init_between, certificate_of, AreBounds}, Due.{claim_of}};

use mdp_cert::{BoundsBody, BoundsCert, BoundsInit, Claim};
use mdp_job::Query;
use mdp_num::Frac;
use mdp_rows::{Dir, Model};
use mdp_text::{all_narrow, all_short};
use std::alloc::{AllocError, Global};

/// A fraction is in width.
fn narrow(value: &Option<Frac>)
    ensures { IsValueNarrow value.now }
{
    if let Some(value) = value {
        value.num();
    }
}

/// Each fraction among these is in width.
fn all_rewards_narrow(values: &[Option<Frac>])
    ensures { All IsValueNarrow values.now }
{
    for value in values {
        narrow(value);
    }
}

/// The fractions of a line `init` are in width.
fn init_narrow(init: &BoundsInit)
    ensures { IsInitInWidth init.now }
{
    if let BoundsInit::Between(_, lower, upper) = init {
        narrow(lower);
        narrow(upper);
    }
}

/// The numbers of a body are in width.
fn body_narrow(body: &BoundsBody)
    ensures { IsBodyInWidth (plain_body body.now) }
{
    match body {
        BoundsBody::Reach(bounds) => {
            all_narrow(&bounds.lower);
            all_narrow(&bounds.upper);
            all_short(&bounds.choices);
            all_short(&bounds.ranks);
        }
        BoundsBody::Reward(bounds) => {
            all_rewards_narrow(&bounds.lower);
            all_rewards_narrow(&bounds.upper);
            all_short(&bounds.choices);
            all_short(&bounds.ranks);
        }
        BoundsBody::Mean(bounds) => {
            all_narrow(&bounds.lower);
            all_narrow(&bounds.upper);
            all_narrow(&bounds.bound);
            all_narrow(&bounds.bias);
            all_short(&bounds.choices);
            bounds.spread.num();
        }
    }
}

/// What the line `init` says of a model: its one initial state with that state's lower and upper value, or that there isn't exactly one.
fn init_between(model: &Model, body: &BoundsBody) -> BoundsInit
    requires { HasValues (states_of model.now) (plain_body body.now) }
    ensures { result ≡ init_between (initial_of model.now) (plain_body body.now) }
{
    let Some(state) = model.initial() else {
        return BoundsInit::Missing;
    };
    let s = state as usize;
    match body {
        BoundsBody::Reach(bounds) => {
            BoundsInit::Between(state, Some(bounds.lower[s]), Some(bounds.upper[s]))
        }
        BoundsBody::Reward(bounds) => BoundsInit::Between(state, bounds.lower[s], bounds.upper[s]),
        BoundsBody::Mean(bounds) => {
            BoundsInit::Between(state, Some(bounds.lower[s]), Some(bounds.upper[s]))
        }
    }
}

/// The claim of a query.
pub(crate) fn claim_of(alloc: Global, dir: Dir, query: Query<'_>) -> Result<Claim, AllocError>
    ensures { IfOk result (λ claim. plain_claim claim ≡ claim_of dir (plain_query query.entry)) }
{
    match query {
        Query::Reach { label } => {
            let label = label.to_vec(alloc)?;
            Ok(Claim::Reach { dir, label })
        }
        Query::Until { stay, label } => {
            let stay = stay.to_vec(alloc)?;
            let label = label.to_vec(alloc)?;
            Ok(Claim::Until { dir, stay, label })
        }
        Query::Reward { name, label } => {
            let name = name.to_vec(alloc)?;
            let label = label.to_vec(alloc)?;
            Ok(Claim::Reward { dir, name, label })
        }
        Query::Mean { name } => {
            let name = name.to_vec(alloc)?;
            Ok(Claim::Mean { dir, name })
        }
    }
}

/// The certificate of bounds of a claim, which has a text.
pub(crate) fn certificate_of(model: &Model, claim: Claim, body: BoundsBody) -> BoundsCert
    requires { AreBounds (plain_claim claim) model.now (plain_body body) }
    ensures certificate { plain result ≡ certificate_of (plain_claim claim) model.now (plain_body body) }
    ensures fits { Fits (plain result) }
{
    model.known();
    body_narrow(&body);
    let init = init_between(model, &body);
    init_narrow(&init);
    BoundsCert {
        claim,
        states: model.states(),
        init,
        body,
    }
}
