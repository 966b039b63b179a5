ghost use Rattle.std.specs.{Prelude.{◌≡◌, ◌<◌, length, All, not}, Result.{result_ok}};
ghost use Rattle.mdp_spec.specs.{Bounds.{finite_part, infinite}, Mdp.{states_of, choices_at, value_at}};
ghost use Rattle.mdp_spec.specs.{Row.{entries}, Tree.{is_marked}, Written.{written_sum}};
ghost use Rattle.mdp_farkas.specs.Reward.{stays_finite};

use crate::targets::{StateTest, each_target};
use mdp_num::{Frac, Wide};
use mdp_rows::{Model, Row, ValuesOf};

/// Whether the value of state `s` is infinite.
pub fn is_infinite_at(values: &[Option<Frac>], s: u32) -> bool
    requires { s < length values.now }
    ensures { result ≡ is_marked (infinite values.now) s }
{
    values[s as usize].is_none()
}

/// The value of state `s`, and 0 where it is infinite.
pub fn finite_at(values: &[Option<Frac>], s: u32) -> Frac
    requires { s < length values.now }
    ensures { result ≡ value_at (finite_part values.now) s }
{
    values[s as usize].unwrap_or(Frac::whole(0))
}

/// Values of which an infinite one counts as 0.
#[derive(Clone, Copy)]
struct FiniteParts<'a> {
    values: &'a [Option<Frac>],
}

impl ValuesOf for FiniteParts<'_> {
    ghost values = { λ v. finite_part v.values.now };

    fn value_of(&self, t: u32) -> Frac {
        finite_at(self.values, t)
    }
}

/// `start`, and for each entry of the row its probability times the value of its target (0 where that is infinite), added in the order of
/// the targets. `Wide` where a written term of one of these operations is past width.
pub fn finite_sum(row: Row<'_>, start: &Frac, values: &[Option<Frac>]) -> Result<Frac, Wide>
    requires { All (λ t. t < length values.now) row.targets.now }
    ensures { result_ok result ≡ written_sum (finite_part values.now) start.now (entries row.entry.targets.now row.entry.probs.now) }
{
    row.sum_over(start, &FiniteParts { values })
}

impl StateTest for FiniteParts<'_> {
    ghost states = { λ v. length v.values.now };

    ghost test = { λ v t. not (is_marked (infinite v.values.now) t) };

    fn passes(self, t: u32) -> bool {
        !is_infinite_at(self.values, t)
    }
}

/// Whether each entry of the row of choice `c` at state `s` leads to a finite value.
pub fn stays_finite_at(model: &Model, values: &[Option<Frac>], s: u32, c: u32) -> bool
    requires values { length values.now ≡ states_of model.now }
    requires state { s < states_of model.now }
    requires choice { c < length (choices_at model.now s) }
    ensures { result ≡ stays_finite model.now values.now s c }
{
    each_target(model, s, c, FiniteParts { values })
}
