ghost use Rattle.std.specs.{Prelude.{◌≡◌, ◌<◌, length, All}, Result.{result_ok}};
ghost use Rattle.mdp_spec.specs.{Mdp.{value_at}, Row.{entries}};
ghost use Rattle.mdp_num.specs.Equal.{eq_ℚ};
ghost use Rattle.mdp_bounds.specs.Sum.{first_value, plain_add, one_sum, told_sum};

use mdp_farkas::{StateTest, all_pass};
use mdp_num::{Frac, Wide};
use mdp_rows::Row;

/// The value of the first target; 0 where there is none.
fn first_of(targets: &[u32], values: &[Frac]) -> Frac
    requires { All (λ t. t < length values.now) targets.now }
    ensures { result ≡ first_value values.now targets.now }
{
    if targets.is_empty() {
        return Frac::whole(0);
    }
    values[targets[0] as usize]
}

/// Values that are held against one value.
#[derive(Clone, Copy)]
struct Values<'a> {
    values: &'a [Frac],
    value: &'a Frac,
}

impl StateTest for Values<'_> {
    ghost states = { λ x. length x.values.now };

    ghost test = { λ x t. eq_ℚ (value_at x.values.now t) x.value.now };

    /// Whether state `t` has the value.
    fn passes(self, t: u32) -> bool {
        self.values[t as usize] == *self.value
    }
}

/// The sum, with no written term where one of the two is 0.
pub fn plain_sum(x: &Frac, y: &Frac) -> Result<Frac, Wide>
    ensures { result_ok result ≡ plain_add x.now y.now }
{
    let zero = Frac::whole(0);
    if *x == zero {
        return Ok(*y);
    }
    if *y == zero {
        return Ok(*x);
    }
    x.add(y)
}

/// The sum, or nothing where one of its terms is past width.
pub fn sum_in_width(x: &Frac, y: &Frac) -> Option<Frac>
    ensures { result ≡ plain_add x.now y.now }
{
    match plain_sum(x, y) {
        Ok(sum) => Some(sum),
        Err(Wide) => None,
    }
}

/// `start` and the one value that all targets have; nothing where they have more values, or where a term of that sum is past width.
fn one_value_sum(targets: &[u32], start: &Frac, values: &[Frac]) -> Option<Frac>
    requires { All (λ t. t < length values.now) targets.now }
    ensures { result ≡ one_sum values.now start.now targets.now }
{
    let first = first_of(targets, values);
    let held = Values {
        values,
        value: &first,
    };
    if all_pass(targets, held) {
        return sum_in_width(start, &first);
    }
    None
}

/// `start` and the sum over the row: with no written product where the row's targets all have one value, since the probabilities add to 1, and
/// that sum is in width.
pub fn row_sum(row: Row<'_>, start: &Frac, values: &[Frac]) -> Result<Frac, Wide>
    requires { All (λ t. t < length values.now) row.targets.now }
    ensures { result_ok result ≡ told_sum values.now start.now (entries row.entry.targets.now row.entry.probs.now) }
{
    match one_value_sum(row.targets, start, values) {
        Some(sum) => Ok(sum),
        None => row.sum(start, values),
    }
}
