ghost use Rattle.std.specs.{Prelude.{◌≡◌, ◌<◌, ℕ, false, length, Some, None, Ok, IfOk, IfErr}, List.{All}};
ghost use Rattle.mdp_rows.specs.Preds.{is_among};
ghost use Rattle.mdp_policy_iteration.specs.{Problem.{count, choices_at, choice_at}, Faults.{Answers}, Code.{shown}, Candidates.{compared}};
ghost use Rattle.mdp_policy_iteration.specs.{Path.{improvement, improvements, improved}, Changes.{Ascend, IsChangeOf, nodes_of, spread}};

use crate::errors::RoundError;
use crate::leader::{Leader, judged};
use crate::placing::at_choice;
use crate::shortest_path::ShortestPath;
use mdp_num::{Frac, Wide};
use mdp_rows::Pred;
use std::alloc::{AllocError, Global};

/// The leader after choice `c` of node `s` has been compared with it.
fn compared<P: ShortestPath>(
    problem: &P,
    values: &[Frac],
    s: u32,
    c: u32,
    best: Leader,
) -> Result<Leader, Wide>
    requires node { s < count (P.problem problem.now) }
    requires choice { c < length (choices_at (P.problem problem.now) s) }
    requires values { length values.now ≡ count (P.problem problem.now) }
    ensures value { IfOk result (λ next. compared (P.problem problem.now).dir values.now c (choice_at (P.problem problem.now) s c) (shown best)
        ≡ Some (shown next)) }
    ensures wide { IfErr result (λ _. compared (P.problem problem.now).dir values.now c (choice_at (P.problem problem.now) s c) (shown best) ≡ None) }
{
    if !problem.is_candidate(s, c) {
        return Ok(best);
    }
    let sum = problem.worth(s, c, values)?;
    judged(problem.dir(), c, best, sum)
}

/// The choice that improves node `s`, where there is one.
fn improvement<P: ShortestPath>(
    problem: &P,
    values: &[Frac],
    s: u32,
) -> Result<Option<u32>, RoundError>
    requires node { s < count (P.problem problem.now) }
    requires values { length values.now ≡ count (P.problem problem.now) }
    ensures { Answers (λ choice. choice) result (improvement (P.problem problem.now) values.now s) }
{
    let mut best = Leader {
        value: values[s as usize],
        choice: None,
    };
    for c in 0..problem.choices(s) {
        best = at_choice(compared(problem, values, s, c, best), s, c)?;
    }
    Ok(best.choice)
}

/// The choices that improve these nodes, which ascend, each with its node, where no other node is improved.
pub(crate) fn improvements<P: ShortestPath>(
    alloc: Global,
    problem: &P,
    values: &[Frac],
    nodes: &[u32],
) -> Result<Vec<Pred>, RoundError>
    requires values { length values.now ≡ count (P.problem problem.now) }
    requires in_range { All (λ s. s < count (P.problem problem.now)) nodes.now }
    requires ascend { Ascend nodes.now }
    requires others { (s : ℕ) → s < count (P.problem problem.now) → is_among s nodes.now ≡ false →
        improvement (P.problem problem.now) values.now s ≡ Ok None }
    ensures answers { Answers (λ changes. spread (count (P.problem problem.now)) changes.items) result
        (improvements (P.problem problem.now) values.now) }
    ensures each { IfOk result (λ changes. All (IsChangeOf (P.problem problem.now)) changes.items) }
    ensures ascend { IfOk result (λ changes. Ascend (nodes_of changes.items)) }
{
    let mut changes = Vec::new(alloc);
    for s in nodes {
        if let Some(choice) = improvement(problem, values, *s)? {
            changes.push(Pred { state: *s, choice })?;
        }
    }
    Ok(changes)
}

/// Takes changes, whose nodes ascend: each of these nodes has the choice of its change.
pub(crate) fn take_changes(policy: &mut [u32], changes: &[Pred])
    requires in_range { All (λ x. x.state < length policy.old) changes.now }
    requires ascend { Ascend (nodes_of changes.now) }
    ensures { policy.new ≡ improved policy.old (spread (length policy.old) changes.now) }
{
    for change in changes {
        policy[change.state as usize] = change.choice;
    }
}

/// The nodes of changes.
pub(crate) fn changed_nodes(alloc: Global, changes: &[Pred]) -> Result<Vec<u32>, AllocError>
    ensures { IfOk result (λ nodes. nodes.items ≡ nodes_of changes.now) }
{
    changes.iter().map(|change| change.state).collect(alloc)
}
