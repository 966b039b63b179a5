ghost use Rattle.std.specs.Prelude.{◌≡◌, ◌<◌, IsTrue, Some, length};
ghost use Rattle.mdp_spec.specs.Mdp.{states_of};
ghost use Rattle.mdp_rows.specs.Name.{IsName};
ghost use Rattle.mdp_reach.specs.Query as query;
ghost use Rattle.mdp_reward.specs.Query as rewarded;
ghost use Rattle.mdp_mean.specs.Query as averaged;
ghost use Rattle.mdp_cert.specs.{Cert.{are_names, plain_claim, Fits}, Plain.{plain}};
ghost use Rattle.mdp_command_solve.specs.{Ways.{owned_name}, Due.{claim_of, certificate_of, reward_certificate_of, mean_certificate_of}};

use mdp_cert::{Body, Cert, Claim};
use mdp_farkas::{MeanCert, ReachCert, RewardCert};
use mdp_rows::{Dir, Model};
use mdp_text::{init_with, init_with_rewards};

/// The claim of reaching the label, by way of states with the label `stay` alone where there is one.
fn claim_of(dir: Dir, stay: Option<Vec<u8>>, label: Vec<u8>) -> Claim
    ensures { plain_claim result ≡ claim_of dir (owned_name stay) label.items }
{
    match stay {
        None => Claim::Reach { dir, label },
        Some(stay) => Claim::Until { dir, stay, label },
    }
}

/// The certificate of an answer to a query of reachability, which has a text.
pub fn certificate_of(
    model: &Model,
    dir: Dir,
    stay: Option<Vec<u8>>,
    label: Vec<u8>,
    answer: ReachCert,
) -> Cert
    requires names { IsTrue (are_names (claim_of dir (owned_name stay) label.items)) }
    requires values { length answer.values.items ≡ states_of model.now }
    requires choices { length answer.choices.items ≡ states_of model.now }
    requires ranks { length answer.ranks.items ≡ states_of model.now }
    ensures certificate { plain result ≡ certificate_of dir (owned_name stay) label.items model.now (query.plain answer) }
    ensures fits { Fits (plain result) }
{
    model.known();
    let init = init_with(model, &answer.values);
    let cert = Cert {
        claim: claim_of(dir, stay, label),
        states: model.states(),
        init,
        body: Body::Reach(answer),
    };
    cert.known();
    cert
}

/// The certificate of an answer to a query of rewards, which has a text.
pub fn reward_certificate_of(
    model: &Model,
    dir: Dir,
    name: Vec<u8>,
    label: Vec<u8>,
    answer: RewardCert,
) -> Cert
    requires name { IsName name.items }
    requires label { IsName label.items }
    requires values { length answer.values.items ≡ states_of model.now }
    requires choices { length answer.choices.items ≡ states_of model.now }
    requires ranks { length answer.ranks.items ≡ states_of model.now }
    ensures certificate { plain result ≡ reward_certificate_of dir name.items label.items model.now (rewarded.plain answer) }
    ensures fits { Fits (plain result) }
{
    model.known();
    let init = init_with_rewards(model, &answer.values);
    let cert = Cert {
        claim: Claim::Reward { dir, name, label },
        states: model.states(),
        init,
        body: Body::Reward(answer),
    };
    cert.known();
    cert
}

/// The certificate of an answer to a query of the mean payoff, which has a text; the value of the initial state is its gain.
pub fn mean_certificate_of(model: &Model, dir: Dir, name: Vec<u8>, answer: MeanCert) -> Cert
    requires name { IsName name.items }
    requires gains { length answer.gains.items ≡ states_of model.now }
    requires bound { length answer.bound.items ≡ states_of model.now }
    requires bias { length answer.bias.items ≡ states_of model.now }
    requires choices { length answer.choices.items ≡ states_of model.now }
    ensures certificate { plain result ≡ mean_certificate_of dir name.items model.now (averaged.plain answer) }
    ensures fits { Fits (plain result) }
{
    model.known();
    let init = init_with(model, &answer.gains);
    let cert = Cert {
        claim: Claim::Mean { dir, name },
        states: model.states(),
        init,
        body: Body::Mean(answer),
    };
    cert.known();
    cert
}
