ghost use Rattle.std.specs.{Prelude.{◌≡◌, ◌+◌, ◌<◌, ◌||◌, ◌&&◌, ℕ, [], length, replicate, slice_index_or, IfOk, OnOk}, List.{All}};
ghost use Rattle.mdp_rows.specs.Preds.{is_among};
ghost use Rattle.mdp_policy_iteration.specs.{Problem.{count}, Dependents.{depends, is_choice}, DependentsOf.{AreDependents, AreDependentsTo}};

use crate::shortest_path::ShortestPath;
use mdp_rows::Pred;
use std::alloc::{AllocError, Global};

/// For each node the choices that depend on its value.
#[derive(Drop)]
pub(crate) struct Dependents {
    lists: Vec<Vec<Pred>>,
}

impl std::marker::Model for Dependents {
    ghost use Rattle.std.specs.Prelude.{List, map};
    ghost use Rattle.mdp_rows.specs.declared.preds.Pred.{Pred};

    ghost Value = { List (List Pred) };

    ghost view = { λ d. map (λ list. list.items) d.lists.items };
}

impl Dependents {
    /// So many nodes, on whose values no choice depends.
    fn none(alloc: Global, nodes: u32) -> Result<Dependents, AllocError>
        ensures { IfOk result (λ d. d ≡ replicate nodes []) }
    {
        let mut lists = Vec::with_capacity(alloc, nodes as usize)?;
        for _ in 0..nodes {
            lists.push(Vec::new(alloc))?;
        }
        Ok(Dependents { lists })
    }

    /// One more choice, which depends on the values of these nodes. Where memory is refused it may be listed at some of them.
    fn push(&mut self, dependent: Pred, nodes: &[u32]) -> Result<(), AllocError>
        requires { All (λ t. t < length self.old) nodes.now }
        ensures count { OnOk result (length self.new ≡ length self.old) }
        ensures added { OnOk result ((s c t : ℕ) → t < length self.old →
            depends self.new s c t ≡ (depends self.old s c t || (is_choice s c dependent && is_among t nodes.now))) }
    {
        for t in nodes {
            self.lists[*t as usize].push(dependent)?;
        }
        Ok(())
    }

    /// The choices that depend on the value of node `t`.
    pub(crate) fn of(&self, t: u32) -> &[Pred]
        requires { t < length self.now }
        ensures { result.now ≡ slice_index_or self.now t [] }
    {
        self.lists[t as usize].as_slice()
    }
}

/// The choices of one more node, each listed at the nodes on whose values its worth depends.
fn push_choices<P: ShortestPath>(
    problem: &P,
    s: u32,
    dependents: &mut Dependents,
) -> Result<(), AllocError>
    requires node { s < count (P.problem problem.now) }
    requires earlier { AreDependentsTo (P.problem problem.now) s 0 dependents.old }
    ensures { OnOk result (AreDependentsTo (P.problem problem.now) (s + 1) 0 dependents.new) }
{
    for c in 0..problem.choices(s) {
        let dependent = Pred {
            state: s,
            choice: c,
        };
        dependents.push(dependent, problem.reads(s, c))?;
    }
    Ok(())
}

/// For each node the choices whose worth depends on its value.
pub(crate) fn dependents_of<P: ShortestPath>(
    alloc: Global,
    problem: &P,
) -> Result<Dependents, AllocError>
    ensures { IfOk result (λ dependents. AreDependents (P.problem problem.now) dependents) }
{
    let mut dependents = Dependents::none(alloc, problem.count())?;
    for s in 0..problem.count() {
        push_choices(problem, s, &mut dependents)?;
    }
    Ok(dependents)
}
