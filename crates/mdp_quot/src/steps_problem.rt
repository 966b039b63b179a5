ghost use Rattle.std.specs.Prelude.{◌≡◌, ◌<◌, ◌==◌, not, length};
ghost use Rattle.mdp_quot.specs.{Quotient.{exits_at}, Sizes.{HasFewExits}, Problem.{steps_problem}};

use crate::quotient::Quotient;
use mdp_num::{Frac, Wide};
use mdp_policy_iteration::ShortestPath;
use mdp_rows::{Dir, Row};

/// The greatest expected number of exits as a shortest path problem: a node that has exits goes on by one of them and earns 1; any other is worth 0.
#[derive(Clone, Copy)]
pub(crate) struct StepsProblem<'a, 'b> {
    pub(crate) quotient: &'a Quotient<'b>,
    ghost few: { HasFewExits quotient.now },
}

impl StepsProblem<'_, '_> {
    /// Whether node `s` has exits.
    fn has_exits(&self, s: u32) -> bool
        requires { s < length self.now.quotient.now.exits }
        ensures { result ≡ not (length (exits_at self.now.quotient.now s) == 0) }
    {
        !self.quotient.exits(s).is_empty()
    }
}

impl ShortestPath for StepsProblem<'_, '_> {
    ghost problem = { λ p. steps_problem p.quotient.now };

    fn known(&self) {
        self.quotient.known();
    }

    fn dir(&self) -> Dir {
        Dir::Max
    }

    fn count(&self) -> u32 {
        self.quotient.nodes()
    }

    fn choices(&self, s: u32) -> u32 {
        self.quotient.exits(s).len() as u32
    }

    fn is_candidate(&self, _s: u32, _c: u32) -> bool {
        true
    }

    fn worth(&self, s: u32, c: u32, values: &[Frac]) -> Result<Frac, Wide> {
        let row = self.quotient.row(s, c);
        row.sum(&Frac::whole(1), values)
    }

    fn reads(&self, s: u32, c: u32) -> &[u32] {
        self.quotient.row(s, c).targets
    }

    fn goes_on(&self, s: u32, _c: u32) -> bool {
        self.has_exits(s)
    }

    fn amount(&self, s: u32, _c: u32) -> Frac {
        if self.has_exits(s) {
            Frac::whole(1)
        } else {
            Frac::whole(0)
        }
    }

    fn fits(&self, _s: u32, _c: u32) -> bool {
        true
    }

    fn row(&self, s: u32, c: u32) -> Row<'_> {
        self.quotient.row(s, c)
    }
}
