ghost use Rattle.std.specs.{Prelude.{◌≡◌, false, replicate, IfOk, OnOk}, List.{All, range_with_len}};
ghost use Rattle.mdp_policy_iteration.specs.{Problem.{IsPolicy, count}, DependentsOf.{AreDependents}, Changes.{IsChangeOf}, Scope.{IsScope}};

use crate::comparison::changed_nodes;
use crate::dependents::Dependents;
use crate::loops::all_nodes;
use crate::shortest_path::ShortestPath;
use mdp_rows::{Marks, Pred};
use std::alloc::{AllocError, Global};
use std::marker::Model;

/// Where a round has anything to do: the nodes at which the policy is evaluated, and those at which choices are compared. Both ascend.
#[derive(Drop)]
pub(crate) struct Scope {
    pub(crate) affected: Vec<u32>,
    pub(crate) compared: Vec<u32>,
}

impl Model for Scope {
    ghost use Rattle.mdp_policy_iteration.specs.Scope as spec;

    ghost Value = { spec.Scope };

    ghost view = { λ s. record { affected = s.affected.items; compared = s.compared.items } };
}

impl Scope {
    /// The scope of a first policy: all nodes.
    pub(crate) fn all(alloc: Global, count: u32) -> Result<Scope, AllocError>
        ensures affected { IfOk result (λ scope. scope.affected ≡ range_with_len 0 count) }
        ensures compared { IfOk result (λ scope. scope.compared ≡ range_with_len 0 count) }
    {
        let affected = all_nodes(alloc, count)?;
        let compared = all_nodes(alloc, count)?;
        Ok(Scope { affected, compared })
    }

    /// The scope of a policy that these changes have made. No mark may stand, and none does behind it.
    pub(crate) fn of_changes<P: ShortestPath>(
        alloc: Global,
        problem: &P,
        dependents: &Dependents,
        policy: &[u32],
        changes: &[Pred],
        marks: &mut Marks,
    ) -> Result<Scope, AllocError>
        requires policy { IsPolicy (P.problem problem.now) policy.now }
        requires dependents { AreDependents (P.problem problem.now) dependents.now }
        requires changes { All (IsChangeOf (P.problem problem.now)) changes.now }
        requires marks { marks.old ≡ replicate (count (P.problem problem.now)) false }
        ensures scope { IfOk result (λ scope. IsScope (P.problem problem.now) policy.now changes.now scope) }
        ensures marks { OnOk result (marks.new ≡ marks.old) }
    {
        let changed = changed_nodes(alloc, changes)?;
        let affected = dependents.coming_to(alloc, policy, &changed, marks)?;
        let compared = dependents.with_dependents(alloc, &affected, marks)?;
        Ok(Scope { affected, compared })
    }
}
