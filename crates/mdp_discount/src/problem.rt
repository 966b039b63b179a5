ghost use Rattle.std.specs.{Prelude.{◌≡◌, ◌<◌, length}, Option.{option_map}};
ghost use Rattle.mdp_spec.specs.Mdp.{states_of, choices_at, row_at};
ghost use Rattle.mdp_discount_rules.specs.Rules.{IsFactor};
ghost use Rattle.mdp_discount.specs.{Problem.{discount_problem}, ScaledView.{row_in, scaled_row, AreScaled, AreScaled-prop}};

use crate::scaled::StateRows;
use mdp_discount_rules::earned;
use mdp_num::{Frac, Wide};
use mdp_policy_iteration::ShortestPath;
use mdp_rows::{Dir, Model, Row};

/// The discounted reward of a name as a shortest path problem: each state goes on by its choices, which earn their rewards and lead by `factor`
/// times their rows, and with what is left of 1 to a node behind the states, which is worth 0.
#[derive(Clone, Copy)]
pub(crate) struct Discounted<'m, 's, 'b> {
    pub(crate) dir: Dir,
    pub(crate) model: &'m Model,
    pub(crate) name: u32,
    pub(crate) factor: Frac,
    pub(crate) states: &'s [StateRows<'b>],
    ghost named: { name < length model.now.names },
    ghost discount: { IsFactor factor },
    ghost made: { AreScaled model.now factor states.now } by { AreScaled-prop model.now factor states.now },
}

impl Discounted<'_, '_, '_> {
    /// The discounted row of choice `c` of state `s`; none where a term is past width.
    fn scaled(&self, s: u32, c: u32) -> Option<Row<'_>>
        requires state { s < states_of self.now.model.now }
        requires choice { c < length (choices_at self.now.model.now s) }
        ensures { option_map row_in result ≡ scaled_row (states_of self.now.model.now) self.now.factor (row_at self.now.model.now s c) }
    {
        let rows = self.states[s as usize].rows;
        rows[c as usize]
    }
}

impl ShortestPath for Discounted<'_, '_, '_> {
    ghost problem = { λ p. discount_problem p.dir p.model.now p.name p.factor };

    fn known(&self) {
        self.model.known();
    }

    fn dir(&self) -> Dir {
        self.dir
    }

    fn count(&self) -> u32 {
        self.model.known();
        self.model.states() + 1
    }

    fn choices(&self, s: u32) -> u32 {
        if s < self.model.states() {
            self.model.choices(s)
        } else {
            0
        }
    }

    fn is_candidate(&self, _s: u32, _c: u32) -> bool {
        true
    }

    fn worth(&self, s: u32, c: u32, values: &[Frac]) -> Result<Frac, Wide> {
        if values[self.model.states() as usize] != Frac::whole(0) {
            return Err(Wide);
        }
        earned(self.model, self.name, &self.factor, s, c, values)
    }

    fn reads(&self, s: u32, c: u32) -> &[u32] {
        self.model.row(s, c).targets
    }

    fn goes_on(&self, s: u32, _c: u32) -> bool {
        s < self.model.states()
    }

    fn amount(&self, s: u32, c: u32) -> Frac {
        if s < self.model.states() {
            self.model.reward(self.name, s, c)
        } else {
            Frac::whole(0)
        }
    }

    fn fits(&self, s: u32, c: u32) -> bool {
        if s < self.model.states() {
            self.scaled(s, c).is_some()
        } else {
            true
        }
    }

    fn row(&self, s: u32, c: u32) -> Row<'_> {
        self.model.known();
        match self.scaled(s, c) {
            Some(row) => row,
            None => unreachable!(),
        }
    }
}
