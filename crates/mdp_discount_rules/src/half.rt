ghost use Rattle.std.specs.{Prelude.{◌≡◌, ◌<◌, length}, Result.{result_ok}};
ghost use Rattle.mdp_spec.specs.Mdp.{states_of, choices_at};
ghost use Rattle.mdp_discount_rules.specs.BoundsChecks.{told_left, number_allows, allows, each_check};

use mdp_bounds::{finite_row_sum, plain_sum, value_stands};
use mdp_farkas::{Objection, OneCheck, Rule, judged, stays_finite_at};
use mdp_num::{Frac, Wide};
use mdp_rows::{Dir, Model};

/// The values of one column, which are held against a model at one state: whether its value is as good as what choices earn.
#[derive(Clone, Copy)]
pub(crate) struct DiscountHalf<'a> {
    pub dir: Dir,
    pub model: &'a Model,
    pub name: u32,
    pub factor: &'a Frac,
    pub values: &'a [Option<Frac>],
    pub state: u32,
    pub ghost named: { name < length model.now.names },
    pub ghost one_each: { length values.now ≡ states_of model.now },
    pub ghost in_model: { state < states_of model.now },
}

impl OneCheck for DiscountHalf<'_> {
    ghost use Rattle.mdp_discount_rules.specs.BoundsClaim.{asked_of};

    ghost count = { λ h. length (choices_at h.model.now h.state) };

    ghost check = { λ h. asked_of h each_check };

    /// The value against choice `c`.
    fn check_at(self, c: u32) -> Result<(), Objection> {
        judged(
            self.allows(c),
            Rule::DiscountedOnEachChoice,
            self.state,
            Some(c),
        )
    }
}

impl DiscountHalf<'_> {
    ghost use Rattle.mdp_discount_rules.specs.BoundsClaim.{asked_of};

    /// What a value leaves to the reward of choice `c`: less `factor` times the sum over its row.
    fn left_for(self, c: u32, value: &Frac) -> Result<Frac, Wide>
        requires { c < length (choices_at self.model.now self.state) }
        ensures { result_ok result ≡ told_left self.entry.model.now self.entry.factor.now self.entry.state c self.entry.values.now value.now }
    {
        let row = self.model.row(self.state, c);
        let sum = finite_row_sum(row, &Frac::whole(0), self.values)?;
        let later = self.factor.mul(&sum)?;
        plain_sum(value, &later.negate())
    }

    /// Whether a value is as good as what choice `c` earns.
    fn number_allows(self, c: u32, value: &Frac) -> Result<bool, Wide>
        requires { c < length (choices_at self.model.now self.state) }
        ensures { result_ok result ≡ asked_of self.entry number_allows c value.now }
    {
        if !stays_finite_at(self.model, self.values, self.state, c) {
            return Ok(false);
        }
        let left = self.left_for(c, value)?;
        let reward = self.model.reward(self.name, self.state, c);
        Ok(value_stands(self.dir, &left, &reward))
    }

    /// Whether the value of the state is as good as what choice `c` earns, as a missing one is.
    pub(crate) fn allows(self, c: u32) -> Result<bool, Wide>
        requires { c < length (choices_at self.model.now self.state) }
        ensures { result_ok result ≡ asked_of self.entry allows c }
    {
        match self.values[self.state as usize] {
            Some(value) => self.number_allows(c, &value),
            None => Ok(true),
        }
    }
}
