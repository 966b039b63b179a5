ghost use Rattle.std.specs.{Prelude.{ℕ, ◌≡◌, ◌<◌, length, true, false, Ok, Err, OnOk, IfOk, IfErr}, List.{All}, Result.{result_ok}};
ghost use Rattle.mdp_spec.specs.Mdp.{value_at};
ghost use Rattle.mdp_rows.specs.Preds.{is_among};
ghost use Rattle.mdp_elim.specs.{Kept.{IsKept}, System.{is_active}};
ghost use Rattle.mdp_elim.specs.Kept as elimination;
ghost use Rattle.mdp_policy_iteration.specs.{Problem.{IsPolicy, count, taken, goes_on, active_of}, Values.{CanLeave}};
ghost use Rattle.mdp_policy_iteration.specs.Path.{evaluating, fits, stop_value, constant_by, constant, solved, filled_by, filled, written_values};
ghost use Rattle.mdp_policy_iteration.specs.{Places.{up_to, all_pass}, Faults.{Answers, Says}, Code.{RowsFit}, Changes.{Ascend}};
ghost use Rattle.mdp_policy_iteration.specs.Evaluated.{StopsWith, equations_of, HasRoom, IsEvaluated, CanServe};

use crate::errors::{NodePlace, RoundError};
use crate::loops::Loops;
use crate::outer::outer_sum;
use crate::placing::at_node;
use crate::policy_chain::PolicyChain;
use crate::shortest_path::ShortestPath;
use bumpalo::Bump;
use mdp_elim::{ElimError, Kept};
use mdp_num::{Frac, Memory, Wide};
use mdp_rows::Marks;
use mdp_wide::Kind;
use std::alloc::Global;
use std::marker::Model;
use std::slice;

/// The value with which node `s` stops, 0 where it is active.
fn stop_value<P: ShortestPath>(problem: &P, policy: &[u32], s: u32) -> Frac
    requires policy { IsPolicy (P.problem problem.now) policy.now }
    requires node { s < count (P.problem problem.now) }
    ensures { result ≡ stop_value (taken (P.problem problem.now) policy.now s) }
{
    let choice = policy[s as usize];
    if problem.goes_on(s, choice) {
        Frac::whole(0)
    } else {
        problem.amount(s, choice)
    }
}

/// The constant of node `s`: what it earns, and the sum over its entries to nodes that stop.
fn constant_at<P: ShortestPath>(
    problem: &P,
    policy: &[u32],
    active: &Marks,
    values: &[Frac],
    s: u32,
) -> Result<Frac, Wide>
    requires policy { IsPolicy (P.problem problem.now) policy.now }
    requires fit { RowsFit (P.problem problem.now) policy.now }
    requires node { s < count (P.problem problem.now) }
    requires active { length active.now ≡ count (P.problem problem.now) }
    requires values { length values.now ≡ count (P.problem problem.now) }
    ensures { result_ok result ≡ constant_by active.now values.now (taken (P.problem problem.now) policy.now s) }
{
    let choice = policy[s as usize];
    if !problem.goes_on(s, choice) {
        return Ok(Frac::whole(0));
    }
    let amount = problem.amount(s, choice);
    outer_sum(problem.row(s, choice), active, &amount, values)
}

/// The value of node `s`: that of the solution where it is active, and that with which it stops elsewhere.
fn filled_value<P: ShortestPath>(problem: &P, policy: &[u32], solution: &[Frac], s: u32) -> Frac
    requires policy { IsPolicy (P.problem problem.now) policy.now }
    requires node { s < count (P.problem problem.now) }
    requires solution { length solution.now ≡ count (P.problem problem.now) }
    ensures { result ≡ filled_by solution.now s (taken (P.problem problem.now) policy.now s) }
{
    let choice = policy[s as usize];
    if problem.goes_on(s, choice) {
        solution[s as usize]
    } else {
        problem.amount(s, choice)
    }
}

/// Refuses the first of these nodes whose row has a term past width. The rows of the others are in width.
fn check_rows_at<P: ShortestPath>(
    problem: &P,
    policy: &[u32],
    nodes: &[u32],
) -> Result<(), RoundError>
    requires policy { IsPolicy (P.problem problem.now) policy.now }
    requires in_range { All (λ s. s < count (P.problem problem.now)) nodes.now }
    requires ascend { Ascend nodes.now }
    requires others { (s : ℕ) → s < count (P.problem problem.now) → is_among s nodes.now ≡ false → fits (P.problem problem.now) policy.now s ≡ true }
    ensures { Answers (λ _. true) result (all_pass (fits (P.problem problem.now) policy.now) (evaluating policy.now)
        (count (P.problem problem.now))) }
{
    for s in nodes {
        let choice = policy[*s as usize];
        if !problem.fits(*s, choice) {
            return Err(RoundError::TooWide(NodePlace {
                kind: Kind::Evaluate,
                node: *s,
                choice,
            }));
        }
    }
    Ok(())
}

/// Marks which of these nodes are active. The others have their marks.
fn mark_active<P: ShortestPath>(problem: &P, policy: &[u32], nodes: &[u32], active: &mut Marks)
    requires policy { IsPolicy (P.problem problem.now) policy.now }
    requires in_range { All (λ s. s < count (P.problem problem.now)) nodes.now }
    requires room { length active.old ≡ count (P.problem problem.now) }
    requires others { (s : ℕ) → s < count (P.problem problem.now) → is_among s nodes.now ≡ false →
        is_active active.old s ≡ goes_on (taken (P.problem problem.now) policy.now s) }
    ensures { active.new ≡ active_of (P.problem problem.now) policy.now }
{
    for s in nodes {
        active.set(*s, problem.goes_on(*s, policy[*s as usize]));
    }
}

/// Gives these nodes the values with which they stop, 0 where they are active. Others that stop have these values.
fn put_stop_values<P: ShortestPath>(problem: &P, policy: &[u32], nodes: &[u32], values: &mut [Frac])
    requires policy { IsPolicy (P.problem problem.now) policy.now }
    requires in_range { All (λ s. s < count (P.problem problem.now)) nodes.now }
    requires room { length values.old ≡ count (P.problem problem.now) }
    requires others { (s : ℕ) → s < count (P.problem problem.now) → is_among s nodes.now ≡ false →
        StopsWith (P.problem problem.now) policy.now values.old s }
    ensures stops { (s : ℕ) → s < count (P.problem problem.now) → StopsWith (P.problem problem.now) policy.now values.new s }
    ensures others { (s : ℕ) → s < count (P.problem problem.now) → is_among s nodes.now ≡ false → value_at values.new s ≡ value_at values.old s }
{
    for s in nodes {
        values[*s as usize] = stop_value(problem, policy, *s);
    }
}

/// Gives these nodes the constants of their equations. The others have theirs. An error names the first node whose constant has a term past width.
fn put_constants<P: ShortestPath>(
    problem: &P,
    policy: &[u32],
    nodes: &[u32],
    active: &Marks,
    values: &[Frac],
    constants: &mut [Frac],
) -> Result<(), RoundError>
    requires policy { IsPolicy (P.problem problem.now) policy.now }
    requires fit { RowsFit (P.problem problem.now) policy.now }
    requires in_range { All (λ s. s < count (P.problem problem.now)) nodes.now }
    requires ascend { Ascend nodes.now }
    requires active { active.now ≡ active_of (P.problem problem.now) policy.now }
    requires values { length values.now ≡ count (P.problem problem.now) }
    requires stops { (s : ℕ) → s < count (P.problem problem.now) → StopsWith (P.problem problem.now) policy.now values.now s }
    requires room { length constants.old ≡ count (P.problem problem.now) }
    requires others { (s : ℕ) → s < count (P.problem problem.now) → is_among s nodes.now ≡ false →
        constant (P.problem problem.now) policy.now s ≡ Ok (value_at constants.old s) }
    ensures made { OnOk result (up_to (constant (P.problem problem.now) policy.now) (count (P.problem problem.now)) ≡ Ok constants.new) }
    ensures refused { IfErr result (λ e. Says e (up_to (constant (P.problem problem.now) policy.now) (count (P.problem problem.now)))) }
{
    for s in nodes {
        let constant = constant_at(problem, policy, active, values, *s);
        constants[*s as usize] = at_node(constant, policy, *s)?;
    }
    Ok(())
}

/// Solves a policy's system at these nodes. What is kept serves the others.
fn solve_at<P: ShortestPath>(
    alloc: Global,
    rows: PolicyChain<'_, P>,
    active: &Marks,
    constants: &Vec<Frac>,
    nodes: &[u32],
    kept: &mut Kept<'_>,
) -> Result<(), RoundError>
    requires leaves { CanLeave (P.problem rows.problem.now) rows.policy.now }
    requires active { active.now ≡ active_of (P.problem rows.problem.now) rows.policy.now }
    requires constants { length constants.now.items ≡ count (P.problem rows.problem.now) }
    requires in_range { All (λ s. s < count (P.problem rows.problem.now)) nodes.now }
    requires ascend { Ascend nodes.now }
    requires others { elimination.CanServe nodes.now (equations_of (P.problem rows.problem.now) rows.policy.now constants.now.items) kept.old }
    ensures kept { OnOk result (IsKept (equations_of (P.problem rows.entry.problem.now) rows.entry.policy.now constants.now.items) kept.new) }
    ensures solved { OnOk result (solved (P.problem rows.entry.problem.now) rows.entry.policy.now constants.now.items
        ≡ Ok (filled (P.problem rows.entry.problem.now) rows.entry.policy.now kept.new.first)) }
    ensures others { OnOk result ((s : ℕ) → is_among s nodes.now ≡ false → value_at kept.new.first s ≡ value_at kept.old.first s) }
    ensures refused { IfErr result (λ e. Says e (solved (P.problem rows.entry.problem.now) rows.entry.policy.now constants.now.items)) }
{
    match kept.solve_again(alloc, &rows, active, slice::from_ref(constants), nodes) {
        Ok(()) => Ok(()),
        Err(ElimError::TooWide(state)) => Err(RoundError::TooWide(NodePlace {
            kind: Kind::Evaluate,
            node: state,
            choice: rows.policy[state as usize],
        })),
        Err(ElimError::Memory) => Err(RoundError::Memory),
    }
}

/// Gives these nodes their values: those of the solution where they are active, and those with which they stop elsewhere. The others have theirs.
fn put_values<P: ShortestPath>(
    problem: &P,
    policy: &[u32],
    nodes: &[u32],
    solution: &[Frac],
    values: &mut [Frac],
)
    requires policy { IsPolicy (P.problem problem.now) policy.now }
    requires in_range { All (λ s. s < count (P.problem problem.now)) nodes.now }
    requires solution { length solution.now ≡ count (P.problem problem.now) }
    requires room { length values.old ≡ count (P.problem problem.now) }
    requires others { (s : ℕ) → s < count (P.problem problem.now) → is_among s nodes.now ≡ false →
        value_at values.old s ≡ filled_by solution.now s (taken (P.problem problem.now) policy.now s) }
    ensures { values.new ≡ filled (P.problem problem.now) policy.now solution.now }
{
    for s in nodes {
        values[*s as usize] = filled_value(problem, policy, solution, *s);
    }
}

/// The evaluation of a policy, kept so that the next policy is evaluated at those nodes alone that come to a change: which nodes are active, the
/// constants of their equations, what elimination keeps, with its rows in an arena, and the values.
#[derive(Drop)]
pub(crate) struct Evaluation<'a> {
    active: Marks,
    constants: Vec<Frac>,
    kept: Kept<'a>,
    values: Vec<Frac>,
}

impl<'a> Model for Evaluation<'a> {
    ghost use Rattle.mdp_policy_iteration.specs.Evaluated as spec;

    ghost Value = { spec.Evaluation };

    ghost view = { λ e. record { active = e.active; constants = e.constants.items; kept = e.kept; values = e.values.items } };
}

impl<'a> Evaluation<'a> {
    /// Room for so many nodes, with rows in this arena; no policy is evaluated.
    pub(crate) fn new(alloc: Global, arena: &'a Bump, nodes: u32) -> Result<Evaluation<'a>, Memory>
        ensures { IfOk result (λ e. HasRoom nodes e) }
    {
        let active = Marks::empty(alloc, nodes)?;
        let constants = vec![in alloc; Frac::whole(0); nodes as usize]?;
        let values = vec![in alloc; Frac::whole(0); nodes as usize]?;
        let kept = Kept::new(alloc, arena, nodes)?;
        Ok(Evaluation {
            active,
            constants,
            kept,
            values,
        })
    }

    /// The values of the nodes.
    pub(crate) fn values(&self) -> &[Frac]
        ensures { result.now ≡ self.now.values }
    {
        &self.values
    }

    /// The values of the nodes, taken out.
    pub(crate) fn into_values(self) -> Vec<Frac>
        ensures { result.items ≡ self.entry.values }
    {
        self.values
    }

    /// Evaluates a policy at these nodes, which ascend. All others have the rows for which `self` was evaluated, and come to none of these. An error
    /// names the first place at which a written term of the whole evaluation is past width.
    pub(crate) fn evaluate<P: ShortestPath>(
        &mut self,
        alloc: Global,
        problem: &P,
        policy: &[u32],
        loops: &Loops,
        nodes: &[u32],
    ) -> Result<(), RoundError>
        requires policy { IsPolicy (P.problem problem.now) policy.now }
        requires leaves { CanLeave (P.problem problem.now) policy.now }
        requires loops { length loops.now.nodes.items ≡ count (P.problem problem.now) }
        requires in_range { All (λ s. s < count (P.problem problem.now)) nodes.now }
        requires ascend { Ascend nodes.now }
        requires others { CanServe (P.problem problem.now) nodes.now policy.now self.old }
        ensures evaluated { OnOk result (IsEvaluated (P.problem problem.now) policy.now self.new) }
        ensures others { OnOk result ((s : ℕ) → is_among s nodes.now ≡ false → value_at self.new.values s ≡ value_at self.old.values s) }
        ensures refused { IfErr result (λ e. Says e (written_values (P.problem problem.now) policy.now)) }
    {
        check_rows_at(problem, policy, nodes)?;
        mark_active(problem, policy, nodes, &mut self.active);
        put_stop_values(problem, policy, nodes, &mut self.values);
        put_constants(
            problem,
            policy,
            nodes,
            &self.active,
            &self.values,
            &mut self.constants,
        )?;
        let rows = PolicyChain {
            problem,
            policy,
            loops,
        };
        solve_at(
            alloc,
            rows,
            &self.active,
            &self.constants,
            nodes,
            &mut self.kept,
        )?;
        put_values(problem, policy, nodes, self.kept.values(), &mut self.values);
        Ok(())
    }
}
