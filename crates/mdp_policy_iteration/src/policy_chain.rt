ghost use Rattle.std.specs.Prelude.{◌≡◌, length};
ghost use Rattle.mdp_policy_iteration.specs.{Problem.{IsPolicy, count, rows_of}, Code.{RowsFit, IsPolicy-prop}};

use crate::loops::Loops;
use crate::shortest_path::ShortestPath;
use mdp_rows::{Row, RowsOf};

/// The rows of a policy: those of its choices, and at a node that stops the one that stays there.
#[derive(Drop)]
pub(crate) struct PolicyChain<'a, P: ShortestPath> {
    pub(crate) problem: &'a P,
    pub(crate) policy: &'a [u32],
    pub(crate) loops: &'a Loops,
    ghost is: { IsPolicy (P.problem problem.now) policy.now } by { IsPolicy-prop (P.problem problem.now) policy.now },
    ghost fit: { RowsFit (P.problem problem.now) policy.now },
    ghost enough: { length loops.now.nodes.items ≡ count (P.problem problem.now) },
}

impl<P: ShortestPath> RowsOf for PolicyChain<'_, P> {
    ghost rows = { λ c. rows_of (P.problem c.problem.now) c.policy.now };

    fn known(&self) {
        self.problem.known();
    }

    fn count(&self) -> u32 {
        self.problem.count()
    }

    fn row(&self, s: u32) -> Row<'_> {
        let choice = self.policy[s as usize];
        if self.problem.goes_on(s, choice) {
            self.problem.row(s, choice)
        } else {
            self.loops.row(s)
        }
    }
}
