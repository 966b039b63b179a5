ghost use Rattle.std.specs.Prelude.{All};
ghost use Rattle.mdp_text.specs.Heads.{IsInitInWidth};
ghost use Rattle.mdp_cert.specs.Cert.{plain_claim, plain_body, IsClaimInWidth, IsValueNarrow, IsFlowInWidth, IsBodyInWidth};

use crate::body::Body;
use crate::claim::Claim;
use mdp_claims::Flow;
use mdp_num::Frac;
use mdp_text::{Init, all_narrow, all_short};

/// The threshold of a claim is in width, as its type keeps it.
pub(crate) fn claim_narrow(claim: &Claim)
    ensures { IsClaimInWidth (plain_claim claim.now) }
{
    if let Claim::Witness { threshold, .. } = claim {
        threshold.num();
    }
}

/// The value of the initial state is in width.
pub(crate) fn init_narrow(init: &Init)
    ensures { IsInitInWidth init.now }
{
    if let Init::Finite(_, value) = init {
        value.num();
    }
}

/// A value that may be infinite is in width.
fn value_narrow(value: &Option<Frac>)
    ensures { IsValueNarrow value.now }
{
    if let Some(value) = value {
        value.num();
    }
}

/// Each of these values is in width.
fn all_values_narrow(values: &[Option<Frac>])
    ensures { All IsValueNarrow values.now }
{
    for value in values {
        value_narrow(value);
    }
}

/// Each flow is in width.
fn all_flows_narrow(flows: &[Flow])
    ensures { All IsFlowInWidth flows.now }
{
    for flow in flows {
        let _choice = flow.choice;
        flow.amount.num();
    }
}

/// What a certificate says of each state is in width.
pub(crate) fn body_narrow(body: &Body)
    ensures { IsBodyInWidth (plain_body body.now) }
{
    match body {
        Body::Upper(bounds) => all_narrow(&bounds.values),
        Body::Reach(policy) => {
            all_narrow(&policy.values);
            all_short(&policy.choices);
            all_short(&policy.ranks);
        }
        Body::Reward(policy) => {
            all_values_narrow(&policy.values);
            all_short(&policy.choices);
            all_short(&policy.ranks);
        }
        Body::Mean(mean) => {
            all_narrow(&mean.gains);
            all_narrow(&mean.bound);
            all_narrow(&mean.bias);
            all_short(&mean.choices);
            mean.spread.num();
        }
        Body::Flow(flow) => all_flows_narrow(&flow.flows),
        Body::Floor(floor) => {
            all_narrow(&floor.values);
            all_short(&floor.ranks);
        }
    }
}
