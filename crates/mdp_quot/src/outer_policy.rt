ghost use Rattle.std.specs.Prelude.{◌≡◌, ◌<◌, length, IfOk};
ghost use Rattle.mdp_policy_iteration.specs.Queries.{Solves};
ghost use Rattle.mdp_quot.specs.{OfModel.{IsOfModel}, Problem.{component_of, first_choice, outer_start}};
ghost use Rattle.mdp_quot.specs.Outer.{HasGains, plain, OuterEndSo, IsBestOuter};

use crate::outer_problem::OuterProblem;
use crate::quotient::Quotient;
use mdp_num::Frac;
use mdp_policy_iteration::{improve, in_part};
use mdp_rows::Dir;
use mdp_wide::{Part, SolveError};
use std::alloc::{AllocError, Global};

/// What is best at each node: 0 where it stops, `1 + i` where it takes its exit `i`; and the gain that it comes to.
#[derive(Drop)]
pub struct Outer {
    pub policy: Vec<u32>,
    pub values: Vec<Frac>,
}

/// An end component stops, any other node takes its first exit.
fn first_choice(quotient: &Quotient<'_>, node: u32) -> u32
    requires { node < length quotient.now.exits }
    ensures { result ≡ first_choice (component_of quotient.now node) }
{
    match quotient.component(node) {
        Some(_) => 0,
        None => 1,
    }
}

/// The first policy.
fn start(alloc: Global, quotient: &Quotient<'_>) -> Result<Vec<u32>, AllocError>
    ensures { IfOk result (λ policy. policy.items ≡ outer_start quotient.now) }
{
    let mut policy = Vec::new(alloc);
    for node in 0..quotient.nodes() {
        policy.push(first_choice(quotient, node))?;
    }
    Ok(policy)
}

/// The best gain that can be come to from each node of a quotient, where a node that is an end component may stop with its own gain (`gains`: one for
/// each end component), and a policy that comes to it. `TooWide` is the first written term past width of its policy iteration, in which end components
/// stop at first and other nodes take their first exits; states and choices in it are nodes and entries of the policy.
pub fn best_exits(
    alloc: Global,
    quotient: &Quotient<'_>,
    gains: &[Frac],
    dir: Dir,
) -> Result<Outer, SolveError>
    requires of_model { IsOfModel quotient.now }
    requires gains { HasGains quotient.now gains.now }
    ensures path { Solves plain (OuterEndSo dir quotient.now gains.now) result }
    ensures best { IfOk result (λ x. IsBestOuter dir quotient.now gains.now (plain x)) }
{
    let first = start(alloc, quotient)?;
    let problem = OuterProblem {
        dir,
        quotient,
        gains,
    };
    match improve(alloc, &problem, first) {
        Ok(found) => Ok(Outer {
            policy: found.policy,
            values: found.values,
        }),
        Err(error) => Err(in_part(error, Part::Outer)),
    }
}
