ghost use Rattle.std.specs.Prelude.{◌≡◌, ◌<◌, length};
ghost use Rattle.mdp_spec.specs.{Mdp.{states_of}, Tree.{is_marked}};
ghost use Rattle.mdp_reward.specs.Problem.{is_transient, reward_problem};

use mdp_farkas::{StateTest, each_target};
use mdp_num::{Frac, Wide};
use mdp_policy_iteration::ShortestPath;
use mdp_rows::{Dir, Marks, Model, Row};

/// The reward of a name until a goal as a shortest path problem: a state whose value is finite and that is no goal goes on by its choices and
/// earns their rewards; all others are worth 0.
#[derive(Clone, Copy)]
pub(crate) struct Reward<'m, 'g, 'f> {
    pub(crate) dir: Dir,
    pub(crate) model: &'m Model,
    pub(crate) name: u32,
    pub(crate) goals: &'g Marks,
    pub(crate) finite: &'f Marks,
    ghost named: { name < length model.now.names },
    ghost goals_each: { length goals.now ≡ states_of model.now },
    ghost finite_each: { length finite.now ≡ states_of model.now },
}

impl Reward<'_, '_, '_> {
    /// Whether state `s` goes on.
    fn decides(&self, s: u32) -> bool
        requires { s < states_of self.now.model.now }
        ensures { result ≡ is_transient self.now.goals.now self.now.finite.now s }
    {
        !self.goals.at(s) && self.finite.at(s)
    }
}

/// A state passes where its value is finite.
impl StateTest for Reward<'_, '_, '_> {
    ghost states = { λ p. states_of p.model.now };

    ghost test = { λ p. is_marked p.finite.now };

    fn passes(self, t: u32) -> bool {
        self.finite.at(t)
    }
}

impl ShortestPath for Reward<'_, '_, '_> {
    ghost problem = { λ p. reward_problem p.dir p.model.now p.name p.goals.now p.finite.now };

    fn known(&self) {
        self.model.known();
    }

    fn dir(&self) -> Dir {
        self.dir
    }

    fn count(&self) -> u32 {
        self.model.states()
    }

    fn choices(&self, s: u32) -> u32 {
        if self.decides(s) {
            self.model.choices(s)
        } else {
            0
        }
    }

    fn is_candidate(&self, s: u32, c: u32) -> bool {
        match self.dir {
            Dir::Max => true,
            Dir::Min => each_target(self.model, s, c, *self),
        }
    }

    fn worth(&self, s: u32, c: u32, values: &[Frac]) -> Result<Frac, Wide> {
        let row = self.model.row(s, c);
        row.sum(&self.model.reward(self.name, s, c), values)
    }

    fn reads(&self, s: u32, c: u32) -> &[u32] {
        self.model.row(s, c).targets
    }

    fn goes_on(&self, s: u32, _c: u32) -> bool {
        self.decides(s)
    }

    fn amount(&self, s: u32, c: u32) -> Frac {
        if self.decides(s) {
            self.model.reward(self.name, s, c)
        } else {
            Frac::whole(0)
        }
    }

    fn fits(&self, _s: u32, _c: u32) -> bool {
        true
    }

    fn row(&self, s: u32, c: u32) -> Row<'_> {
        self.model.row(s, c)
    }
}
