ghost use Rattle.std.specs.{Prelude.{◌≡◌, ◌<◌, ◌≤◌, length}, Result.{result_ok}};
ghost use Rattle.mdp_spec.specs.Mdp.{states_of, choices_at};
ghost use Rattle.mdp_discount_rules.specs.Checks.{written_discounted};

use mdp_num::{Frac, Wide};
use mdp_rows::Model;

/// What choice `c` of state `s` earns under values of the states: its reward of the reward name of place `m`, and `factor` times the sum over its
/// row. `Wide` where a written term is past width.
pub fn earned(
    model: &Model,
    m: u32,
    factor: &Frac,
    s: u32,
    c: u32,
    values: &[Frac],
) -> Result<Frac, Wide>
    requires name { m < length model.now.names }
    requires state { s < states_of model.now }
    requires choice { c < length (choices_at model.now s) }
    requires values { states_of model.now ≤ length values.now }
    ensures { result_ok result ≡ written_discounted model.now m factor.now s c values.now }
{
    let sum = model.row(s, c).sum(&Frac::whole(0), values)?;
    let later = factor.mul(&sum)?;
    model.reward(m, s, c).add(&later)
}
