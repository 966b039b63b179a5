ghost use Rattle.std.specs.{Prelude.{◌≡◌, ◌<◌, length, All}, Result.{result_ok}};
ghost use Rattle.mdp_spec.specs.{Bounds.{finite_part}, Mdp.{value_at}, Row.{entries}};
ghost use Rattle.mdp_num.specs.Equal.{eq_ℚ};
ghost use Rattle.mdp_bounds.specs.Sum.{first_value, one_sum, told_sum};

use crate::sum::sum_in_width;
use mdp_farkas::{StateTest, all_pass, finite_at, finite_sum};
use mdp_num::{Frac, Wide};
use mdp_rows::Row;

/// The value of the first target, 0 where it is infinite; and 0 where there is none.
fn first_finite(targets: &[u32], values: &[Option<Frac>]) -> Frac
    requires { All (λ t. t < length values.now) targets.now }
    ensures { result ≡ first_value (finite_part values.now) targets.now }
{
    if targets.is_empty() {
        return Frac::whole(0);
    }
    finite_at(values, targets[0])
}

/// Values that are held against one value, where an infinite one is 0.
#[derive(Clone, Copy)]
struct FiniteValues<'a> {
    values: &'a [Option<Frac>],
    value: &'a Frac,
}

impl StateTest for FiniteValues<'_> {
    ghost states = { λ x. length x.values.now };

    ghost test = { λ x t. eq_ℚ (value_at (finite_part x.values.now) t) x.value.now };

    /// Whether state `t` has the value.
    fn passes(self, t: u32) -> bool {
        finite_at(self.values, t) == *self.value
    }
}

/// `start` and the one value that all targets have, as an infinite one has 0; nothing where they have more values, or where a term of that sum
/// is past width.
fn one_finite_sum(targets: &[u32], start: &Frac, values: &[Option<Frac>]) -> Option<Frac>
    requires { All (λ t. t < length values.now) targets.now }
    ensures { result ≡ one_sum (finite_part values.now) start.now targets.now }
{
    let first = first_finite(targets, values);
    let held = FiniteValues {
        values,
        value: &first,
    };
    if all_pass(targets, held) {
        return sum_in_width(start, &first);
    }
    None
}

/// `start` and the sum over the row, where an infinite value counts as 0: with no written product where the row's targets all have one value and
/// that sum is in width.
pub fn finite_row_sum(row: Row<'_>, start: &Frac, values: &[Option<Frac>]) -> Result<Frac, Wide>
    requires { All (λ t. t < length values.now) row.targets.now }
    ensures { result_ok result ≡ told_sum (finite_part values.now) start.now (entries row.entry.targets.now row.entry.probs.now) }
{
    match one_finite_sum(row.targets, start, values) {
        Some(sum) => Ok(sum),
        None => finite_sum(row, start, values),
    }
}
