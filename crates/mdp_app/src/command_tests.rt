//! Each command, run to its end with all that it needs.
use crate::tests::{COIN, COIN_POLICY, Given, ROOM, ended, ends, sink};
use mdp_edge::ListSink;
use mdp_job::Status;
use std::alloc::Global;

/// State 0 stays for 1, or goes to the goal for 2, which stays for 3.
const PAID: &str =
    "@type: MDP\n@reward_models\ncost\n@nr_states\n2\n@model\nstate 0 init\naction [1]\n0 : 1\naction [2]\n1 : 1\nstate 1 goal\naction [3]\n1 : 1\n";

/// A certificate of the coin.
const COIN_UPPER: &str =
    "mdp-certificate 2\nclaim upper reach \"goal\"\nstates 3\ninit 0 1\nrun 0 2 1\nend\n";

/// Bounds of the coin: the greatest probability at state 0, 1/3, lies between 1/4 and 1/2.
const COIN_BOUNDS: &str =
    "mdp-bounds 1\nclaim max reach \"goal\"\nstates 3\ninit 0 1/4 1/2\nstate 0 1/4 1/2 1 1\nstate 1 1 1 0 0\nstate 2 0 0 0 0\nend\n";

/// A source of these bytes that never fails.
fn given(bytes: &[u8]) -> Given<'_> {
    Given {
        bytes,
        chunk: 64,
        fails: &[],
    }
}

/// Whether a command does its work on a model and a second text.
fn does(alloc: Global, command: &str, model: &str, second: &str, out: &mut ListSink) -> bool {
    let model = given(model.as_bytes());
    let second = given(second.as_bytes());
    matches!(
        ended(alloc, command, &model, &second, out),
        Some(Status::Done)
    )
}

/// Whether a command does its work, and writes a text that begins so.
fn writes(alloc: Global, command: &str, model: &str, second: &str, head: &str) -> bool {
    let Ok(mut out) = sink(alloc, &ROOM) else {
        return false;
    };
    does(alloc, command, model, second, &mut out) && out.bytes().starts_with(head.as_bytes())
}

fn solves_the_coin(alloc: Global) -> bool {
    let most = "mdp-certificate 2\nclaim max reach \"goal\"\nstates 3\ninit 0 1/3\n";
    let least = "mdp-certificate 2\nclaim min reach \"goal\"\nstates 3\ninit 0 0\n";
    writes(alloc, "solve M exact max reach goal", COIN, "", most)
        && writes(alloc, "solve M exact min reach goal", COIN, "", least)
}

fn finds_subsystems(alloc: Global) -> bool {
    let most = "mdp-certificate 2\nclaim max witness \"goal\" 1/3\nstates 3\ninit 0\nkeep 0 kept\n";
    let least = "mdp-certificate 2\nclaim min witness \"goal\" 0\nstates 3\ninit 0\nend\n";
    writes(alloc, "witness M exact max goal 1/3", COIN, "", most)
        && writes(alloc, "witness M exact min goal 0", COIN, "", least)
}

fn accepts(alloc: Global) -> bool {
    writes(alloc, "check M exact C", COIN, COIN_UPPER, "yes\n")
        && writes(alloc, "check M exact C", COIN, COIN_BOUNDS, "yes\n")
        && writes(alloc, "bounds-check M exact C", COIN, COIN_BOUNDS, "yes\n")
}

fn bounds_the_coin(alloc: Global) -> bool {
    let reach = "mdp-bounds 1\nclaim max reach \"goal\"\nstates 3\ninit 0 ";
    let until = "mdp-horizon-bounds 1\nclaim max until \"-\" \"goal\" 2\nstates 3\ninit 0 ";
    writes(alloc, "bounds M exact max reach goal 6", COIN, "", reach)
        && writes(
            alloc,
            "bounds M exact max until - goal 2 6",
            COIN,
            "",
            until,
        )
}

/// `drill` reads no model.
fn works_otherwise(alloc: Global) -> bool {
    let value = "mdp-value 1\npolicy reach \"goal\"\nstates 3\ninit 0 1/3\n";
    let within = "mdp-horizon 1\nclaim max until \"-\" \"goal\" 2\nstates 3\ninit 0 1/3\n";
    let drilled = "drill 0 1 1 states 3 choices 4 value 1 yes\n";
    writes(
        alloc,
        "policy M exact P reach goal",
        COIN,
        COIN_POLICY,
        value,
    ) && writes(alloc, "horizon M exact max - goal 2", COIN, "", within)
        && writes(alloc, "drill 0 1 1", COIN, "", drilled)
}

/// By way of the initial state alone.
fn solves_until(alloc: Global) -> bool {
    let most = "mdp-certificate 2\nclaim max until \"init\" \"goal\"\nstates 3\ninit 0 1/3\n";
    let between = "mdp-bounds 1\nclaim max until \"init\" \"goal\"\nstates 3\ninit 0 ";
    writes(alloc, "solve M exact max until init goal", COIN, "", most)
        && writes(
            alloc,
            "bounds M exact max until init goal 6",
            COIN,
            "",
            between,
        )
}

/// The same for a subsystem and for a policy.
fn works_until(alloc: Global) -> bool {
    let part =
        "mdp-certificate 2\nclaim max witness until \"init\" \"goal\" 1/3\nstates 3\ninit 0\nkeep 0 kept\n";
    let value = "mdp-value 1\npolicy until \"init\" \"goal\"\nstates 3\ninit 0 1/3\n";
    let command = "witness M exact max until init goal 1/3";
    writes(alloc, command, COIN, "", part)
        && writes(
            alloc,
            "policy M exact P until init goal",
            COIN,
            COIN_POLICY,
            value,
        )
}

/// Each state keeps the choice of the policy alone.
fn keeps_a_policy(alloc: Global) -> bool {
    let chain =
        "@type: MDP\n@parameters\n\n@reward_models\n\n@nr_states\n3\n@nr_choices\n3\n@model\nstate 0 [0] \"init\"\n\taction 0 [0]\n\t\t1 : 1/3\n\t\t2 : 2/3\nstate 1 ";
    writes(alloc, "chain M exact P", COIN, COIN_POLICY, chain)
}

/// With no step the goal isn't reached.
fn draws_a_curve(alloc: Global) -> bool {
    let curve = "mdp-curve 1\nclaim max until \"-\" \"goal\"\ninit 0\nsteps 2\nstep 0 0 0\n";
    writes(alloc, "curve M exact max until - goal 2 6", COIN, "", curve)
}

/// The commands whose model is the coin.
#[test]
fn works_on_the_coin(rt: HostRuntime) {
    let alloc = rt.alloc();
    assert!(rt; solves_the_coin(alloc) && finds_subsystems(alloc));
    assert!(rt; accepts(alloc) && bounds_the_coin(alloc) && works_otherwise(alloc));
    assert!(rt; solves_until(alloc) && works_until(alloc) && draws_a_curve(alloc));
    assert!(rt; keeps_a_policy(alloc));
}

/// Whether a command on the model with rewards writes a text that begins so.
fn pays(alloc: Global, command: &str, head: &str) -> bool {
    writes(alloc, command, PAID, "", head)
}

/// The greatest reward until the goal is infinite, since a policy may stay for ever.
fn solves_rewards(alloc: Global) -> bool {
    let most = "mdp-certificate 2\nclaim max reward \"cost\" \"goal\"\nstates 2\ninit 0 inf\n";
    let least = "mdp-certificate 2\nclaim min reward \"cost\" \"goal\"\nstates 2\ninit 0 2\n";
    pays(alloc, "solve M exact max reward cost goal", most)
        && pays(alloc, "solve M exact min reward cost goal", least)
}

fn solves_means(alloc: Global) -> bool {
    let most = "mdp-certificate 2\nclaim max mean \"cost\"\nstates 2\ninit 0 3\n";
    let least = "mdp-certificate 2\nclaim min mean \"cost\"\nstates 2\ninit 0 1\n";
    pays(alloc, "solve M exact max mean cost", most)
        && pays(alloc, "solve M exact min mean cost", least)
}

fn bounds_rewards(alloc: Global) -> bool {
    let reward = "mdp-bounds 1\nclaim min reward \"cost\" \"goal\"\nstates 2\ninit 0 ";
    let mean = "mdp-bounds 1\nclaim max mean \"cost\"\nstates 2\ninit 0 ";
    pays(alloc, "bounds M exact min reward cost goal 6", reward)
        && pays(alloc, "bounds M exact max mean cost 6", mean)
}

fn earns_within_steps(alloc: Global) -> bool {
    let most = "mdp-horizon 1\nclaim max reward \"cost\" 2\nstates 2\ninit 0 5\n";
    let total = "mdp-horizon-bounds 1\nclaim min total \"cost\" 2\nstates 2\ninit 0 2 2\n";
    let curve =
        "mdp-curve 1\nclaim max total \"cost\"\ninit 0\nsteps 2\nstep 0 0 0\nstep 1 2 2\nstep 2 5 5\nend\n";
    pays(alloc, "total M exact max cost 2", most)
        && pays(alloc, "bounds M exact min total cost 2 6", total)
        && pays(alloc, "curve M exact max total cost 2 6", curve)
}

fn discounts(alloc: Global) -> bool {
    let bounds = "mdp-bounds 1\nclaim max discount \"cost\" 1/2\nstates 2\ninit 0 ";
    let most = "mdp-discount 1\nclaim max discount \"cost\" 1/2\nstates 2\ninit 0 5\n";
    let least = "mdp-discount 1\nclaim min discount \"cost\" 1/2\nstates 2\ninit 0 2\n";
    pays(alloc, "bounds M exact max discount cost 1/2 6", bounds)
        && pays(alloc, "discount M exact max cost 1/2", most)
        && pays(alloc, "discount M exact min cost 1/2", least)
}

/// The commands whose model has rewards.
#[test]
fn works_on_rewards(rt: HostRuntime) {
    let alloc = rt.alloc();
    assert!(rt; solves_rewards(alloc) && solves_means(alloc) && bounds_rewards(alloc));
    assert!(rt; earns_within_steps(alloc) && discounts(alloc));
}

/// Whether `discount-check` accepts a certificate.
fn discount_is_accepted(alloc: Global, certificate: &[u8]) -> bool {
    ends(
        alloc,
        "discount-check M exact C",
        &given(PAID.as_bytes()),
        &given(certificate),
        &ROOM,
        Status::Done,
        b"yes\n",
    )
}

fn discounted_is_accepted(alloc: Global) -> bool {
    let Ok(mut found) = sink(alloc, &ROOM) else {
        return false;
    };
    does(alloc, "discount M exact max cost 1/2", PAID, "", &mut found)
        && discount_is_accepted(alloc, found.bytes())
}

/// What `discount` writes is accepted by `discount-check`.
#[test]
fn accepts_what_is_discounted(rt: HostRuntime) {
    assert!(rt; discounted_is_accepted(rt.alloc()));
}
