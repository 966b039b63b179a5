ghost use Rattle.std.specs.Prelude.{◌≡◌, IfOk};
ghost use Rattle.mdp_policy_iteration.specs.Queries.{Solves};
ghost use Rattle.mdp_quot.specs.{OfModel.{IsOfModel}, Problem.{steps_start}, Steps.{StepsEndSo, IsLongest}};

use crate::quotient::Quotient;
use crate::steps_problem::StepsProblem;
use mdp_num::Frac;
use mdp_policy_iteration::{improve, in_part};
use mdp_wide::{Part, SolveError};
use std::alloc::{AllocError, Global};

/// Exit 0 of each node.
fn start(alloc: Global, quotient: &Quotient<'_>) -> Result<Vec<u32>, AllocError>
    ensures { IfOk result (λ policy. policy.items ≡ steps_start quotient.now) }
{
    let mut policy = Vec::new(alloc);
    for _node in 0..quotient.nodes() {
        policy.push(0)?;
    }
    Ok(policy)
}

/// The greatest expected number of exits that can be taken from each node of a quotient, before a node without exits; 0 at such a node. `TooWide` is
/// the first written term past width of its policy iteration, which starts at exit 0 of each node; states and choices in it are nodes and exits.
pub fn longest(alloc: Global, quotient: &Quotient<'_>) -> Result<Vec<Frac>, SolveError>
    requires { IsOfModel quotient.now }
    ensures path { Solves (λ n. n.items) (StepsEndSo quotient.now) result }
    ensures longest { IfOk result (λ n. IsLongest quotient.now n.items) }
{
    let first = start(alloc, quotient)?;
    let problem = StepsProblem { quotient };
    match improve(alloc, &problem, first) {
        Ok(found) => Ok(found.values),
        Err(error) => Err(in_part(error, Part::Steps)),
    }
}
