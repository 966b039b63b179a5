ghost use Rattle.std.specs.Prelude.{ℕ, ◌≡◌, ◌<◌, ◌==◌, not, length, IfOk, slice_index};
ghost use Rattle.mdp_spec.specs.{Bounds.{MeanMax, MeanMin}, Mdp.{states_of, value_at}};
ghost use Rattle.mdp_rows.specs.declared.dir.Dir.TheVariants.{Max, Min};
ghost use Rattle.mdp_parts.specs.FoundEnds.{AreEndsOf};
ghost use Rattle.mdp_policy_iteration.specs.Queries.{Solves};
ghost use Rattle.mdp_quot.specs.{Quotient.{IsQuotient}, Steps.{IsLongest}};
ghost use Rattle.mdp_quot.specs.Outer as outer;
ghost use Rattle.mdp_farkas.specs.Mean.{IsMean};
ghost use Rattle.mdp_mean.specs.{Best.{AreBest}, PartsCode.{inners_in, joining_of}, Query.{plain, at_nodes, leaving, JoinEndsSo}, Faults.{in_join}};

use crate::certificate::held;
use crate::errors::{JoinError, JoinPlace};
use crate::inners::Inners;
use crate::join::joined;
use crate::joining::Joining;
use mdp_farkas::MeanCert;
use mdp_num::Frac;
use mdp_parts::Ends;
use mdp_quot::{Outer, Quotient};
use mdp_rows::{Dir, Marks, Model};
use mdp_wide::{Part, SolveError, TooWide};
use std::alloc::{AllocError, Global};

/// What was found of the parts of a query: the end components and their best gains, the quotient, the best gains that can be come to over it, and the
/// greatest expected number of exits from each of its nodes.
#[derive(Drop)]
pub(crate) struct Parts<'a, 'b> {
    pub(crate) ends: &'a Ends,
    pub(crate) quotient: &'a Quotient<'b>,
    pub(crate) inner: &'a Inners,
    pub(crate) outer: &'a Outer,
    pub(crate) steps: &'a [Frac],
}

/// The value of the node of state `s`.
fn value_at(quotient: &Quotient<'_>, values: &[Frac], s: u32) -> Frac
    requires state { s < length quotient.now.nodes }
    requires node { slice_index quotient.now.nodes s < length values.now }
    ensures { result ≡ value_at values.now (slice_index quotient.now.nodes s) }
{
    values[quotient.node_of(s) as usize]
}

/// For each state the value of its node.
fn at_nodes(
    alloc: Global,
    model: &Model,
    quotient: &Quotient<'_>,
    values: &[Frac],
) -> Result<Vec<Frac>, AllocError>
    requires nodes { length quotient.now.nodes ≡ states_of model.now }
    requires below { (s : ℕ) → s < states_of model.now → slice_index quotient.now.nodes s < length values.now }
    ensures { IfOk result (λ list. list.items ≡ at_nodes model.now quotient.now values.now) }
{
    let mut list = Vec::new(alloc);
    for s in 0..model.states() {
        list.push(value_at(quotient, values, s))?;
    }
    Ok(list)
}

/// Whether the node of state `s` takes an exit.
fn is_left(quotient: &Quotient<'_>, policy: &[u32], s: u32) -> bool
    requires state { s < length quotient.now.nodes }
    requires node { slice_index quotient.now.nodes s < length policy.now }
    ensures { result ≡ not (slice_index policy.now (slice_index quotient.now.nodes s) == 0) }
{
    policy[quotient.node_of(s) as usize] != 0
}

/// The states whose node takes an exit.
fn leaving(
    alloc: Global,
    model: &Model,
    quotient: &Quotient<'_>,
    policy: &[u32],
) -> Result<Marks, AllocError>
    requires nodes { length quotient.now.nodes ≡ states_of model.now }
    requires below { (s : ℕ) → s < states_of model.now → slice_index quotient.now.nodes s < length policy.now }
    ensures { IfOk result (λ marks. marks ≡ leaving model.now quotient.now policy.now) }
{
    let mut marks = Vec::new(alloc);
    for s in 0..model.states() {
        marks.push(is_left(quotient, policy, s))?;
    }
    Ok(Marks::from_values(marks))
}

/// An error of the join, with the policy of all states.
fn in_join(error: JoinError, policy: Vec<u32>) -> SolveError
    ensures { result ≡ in_join error policy }
{
    match error {
        JoinError::TooWide(
            JoinPlace {
                kind,
                state,
                choice,
            },
        ) => SolveError::TooWide(TooWide {
            part: Part::Join,
            round: 0,
            policy,
            kind,
            state,
            choice,
        }),
        JoinError::Memory => SolveError::Memory,
    }
}

/// The certificate that the parts make together, held against the rules.
pub(crate) fn join_parts(
    alloc: Global,
    model: &Model,
    m: u32,
    dir: Dir,
    parts: &Parts<'_, '_>,
) -> Result<MeanCert, SolveError>
    requires name { m < length model.now.names }
    requires ends { AreEndsOf model.now parts.now.ends.now }
    requires quotient { IsQuotient model.now parts.now.ends.now.parts parts.now.quotient.now }
    requires inner { AreBest dir model.now parts.now.ends.now.parts m (inners_in parts.now.inner.now) }
    requires outer { outer.IsBestOuter dir parts.now.quotient.now parts.now.inner.now.gains.items (outer.plain parts.now.outer.now) }
    requires steps { IsLongest parts.now.quotient.now parts.now.steps.now }
    ensures join { Solves plain (JoinEndsSo (joining_of dir model.now m parts.now)) result }
    ensures each { IfOk result (λ cert. length cert.gains.items ≡ states_of model.now) }
    ensures rules { IfOk result (λ cert. IsMean dir model.now m cert.gains.items cert.bound.items cert.bias.items cert.spread cert.choices.items) }
    ensures max { dir ≡ Max → IfOk result (λ cert. MeanMax model.now m cert.gains.items cert.spread cert.choices.items) }
    ensures min { dir ≡ Min → IfOk result (λ cert. MeanMin model.now m cert.gains.items cert.spread cert.choices.items) }
{
    model.known();
    let quotient = parts.quotient;
    let exits = &parts.outer.policy;
    let policy = quotient.lift(alloc, model, parts.ends, exits, &parts.inner.choices)?;
    let active = leaving(alloc, model, quotient, exits)?;
    let gains = at_nodes(alloc, model, quotient, &parts.outer.values)?;
    let steps = at_nodes(alloc, model, quotient, parts.steps)?;
    let join = Joining {
        dir,
        model,
        name: m,
        ends: parts.ends,
        policy: &policy,
        active: &active,
        gains: &gains,
        steps: &steps,
        inner: &parts.inner.bias,
    };
    let values = match joined(alloc, &join) {
        Ok(values) => values,
        Err(error) => return Err(in_join(error, policy)),
    };
    let cert = MeanCert {
        gains,
        bound: values.bound,
        bias: values.bias,
        choices: policy,
        spread: values.spread,
    };
    held(model, m, dir, cert)
}
