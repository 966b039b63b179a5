ghost use Rattle.std.specs.Prelude.{◌≡◌, ◌<◌, length, pos, All, IfOk};
ghost use Rattle.mdp_math.specs.Rational.{of_int, lt_ℚ};
ghost use Rattle.mdp_spec.specs.Mdp.{states_of};
ghost use Rattle.mdp_subsystem_rules.specs.{Listed.{listed, marks_at, values_at, ranks_at}, Visits.{visit_flows}};

use mdp_num::{Frac, Memory};
use mdp_rows::Marks;
use mdp_subsystem_rules::{FloorCert, Flow, FlowCert};
use std::alloc::{AllocError, Global};

/// The marked ones of so many states, ascending.
pub(crate) fn listed(alloc: Global, states: u32, marks: &Marks) -> Result<Vec<u32>, AllocError>
    requires { length marks.now ≡ states }
    ensures { IfOk result (λ list. list.items ≡ listed states marks.now) }
{
    let mut list = Vec::new(alloc);
    for s in 0..states {
        if marks.at(s) {
            list.push(s)?;
        }
    }
    Ok(list)
}

/// The marks of these states.
pub(crate) fn marks_at(
    alloc: Global,
    marks: &Marks,
    states: &[u32],
) -> Result<Vec<bool>, AllocError>
    requires { All (λ s. s < length marks.now) states.now }
    ensures { IfOk result (λ list. list.items ≡ marks_at marks.now states.now) }
{
    let mut list = Vec::new(alloc);
    for s in states {
        list.push(marks.at(*s))?;
    }
    Ok(list)
}

/// The values of these states.
pub(crate) fn values_at(
    alloc: Global,
    values: &[Frac],
    states: &[u32],
) -> Result<Vec<Frac>, AllocError>
    requires { All (λ s. s < length values.now) states.now }
    ensures { IfOk result (λ list. list.items ≡ values_at values.now states.now) }
{
    let mut list = Vec::new(alloc);
    for s in states {
        list.push(values[*s as usize])?;
    }
    Ok(list)
}

/// The ranks of these states.
pub(crate) fn ranks_at(alloc: Global, ranks: &[u32], states: &[u32]) -> Result<Vec<u32>, AllocError>
    requires { All (λ s. s < length ranks.now) states.now }
    ensures { IfOk result (λ list. list.items ≡ ranks_at ranks.now states.now) }
{
    let mut list = Vec::new(alloc);
    for s in states {
        list.push(ranks[*s as usize])?;
    }
    Ok(list)
}

/// Whether an amount is above 0.
fn is_positive(amount: &Frac) -> bool
    ensures { result ≡ lt_ℚ (of_int (pos 0)) amount.now }
{
    amount.sign() > 0
}

/// The flows of so many states by the policy, by how often each state is visited; those of amount 0 are left out.
pub(crate) fn flows_of(
    alloc: Global,
    states: u32,
    policy: &[u32],
    visits: &[Frac],
) -> Result<Vec<Flow>, AllocError>
    requires policy { length policy.now ≡ states }
    requires visits { length visits.now ≡ states }
    ensures { IfOk result (λ list. list.items ≡ visit_flows states policy.now visits.now) }
{
    let mut flows = Vec::new(alloc);
    for s in 0..states {
        let amount = visits[s as usize];
        if is_positive(&amount) {
            flows.push(Flow {
                state: s,
                choice: policy[s as usize],
                amount,
            })?;
        }
    }
    Ok(flows)
}
