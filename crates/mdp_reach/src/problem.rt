ghost use Rattle.std.specs.Prelude.{◌≡◌, ◌<◌, ◌&&◌, not, length, if◌then◌else◌, pos};
ghost use Rattle.mdp_math.specs.Rational.{of_int};
ghost use Rattle.mdp_spec.specs.{Mdp.{states_of}, Tree.{is_marked}};
ghost use Rattle.mdp_reach.specs.Problem.{is_open, reach_problem};

use mdp_num::{Frac, Wide};
use mdp_policy_iteration::ShortestPath;
use mdp_rows::{Dir, Marks, Model, Row};

/// Reaching a goal as a shortest path problem: goals are worth 1, other states that aren't open 0, and an open state goes on by each of its
/// choices. The marks say, for the greatest probability, from which states a goal can be reached, and for the least one at which states goals can be
/// avoided.
#[derive(Clone, Copy)]
pub(crate) struct Reach<'m, 'g, 'k> {
    pub(crate) dir: Dir,
    pub(crate) model: &'m Model,
    pub(crate) goals: &'g Marks,
    pub(crate) marks: &'k Marks,
    ghost goals_each: { length goals.now ≡ states_of model.now },
    ghost marks_each: { length marks.now ≡ states_of model.now },
}

impl Reach<'_, '_, '_> {
    /// Whether state `s` goes on.
    fn decides(&self, s: u32) -> bool
        requires { s < states_of self.now.model.now }
        ensures { result ≡ (not (is_marked self.now.goals.now s) && is_open self.now.dir (is_marked self.now.marks.now s)) }
    {
        let is_open = match self.dir {
            Dir::Max => self.marks.at(s),
            Dir::Min => !self.marks.at(s),
        };
        !self.goals.at(s) && is_open
    }

    /// 1 at a goal, 0 elsewhere.
    fn given(&self, s: u32) -> Frac
        requires { s < states_of self.now.model.now }
        ensures { result ≡ (if is_marked self.now.goals.now s then of_int (pos 1) else of_int (pos 0)) }
    {
        if self.goals.at(s) {
            Frac::whole(1)
        } else {
            Frac::whole(0)
        }
    }
}

impl ShortestPath for Reach<'_, '_, '_> {
    ghost problem = { λ r. reach_problem r.dir r.model.now r.goals.now r.marks.now };

    fn known(&self) {
        self.model.known();
    }

    fn dir(&self) -> Dir {
        self.dir
    }

    fn count(&self) -> u32 {
        self.model.states()
    }

    fn choices(&self, s: u32) -> u32 {
        if self.decides(s) {
            self.model.choices(s)
        } else {
            0
        }
    }

    fn is_candidate(&self, _s: u32, _c: u32) -> bool {
        true
    }

    fn worth(&self, s: u32, c: u32, values: &[Frac]) -> Result<Frac, Wide> {
        self.model.row(s, c).sum(&Frac::whole(0), values)
    }

    fn reads(&self, s: u32, c: u32) -> &[u32] {
        self.model.row(s, c).targets
    }

    fn goes_on(&self, s: u32, _c: u32) -> bool {
        self.decides(s)
    }

    fn amount(&self, s: u32, _c: u32) -> Frac {
        self.given(s)
    }

    fn fits(&self, _s: u32, _c: u32) -> bool {
        true
    }

    fn row(&self, s: u32, c: u32) -> Row<'_> {
        self.model.row(s, c)
    }
}
