ghost use Rattle.std.specs.{Prelude.{◌≡◌, ◌<◌, length}, List.{All}, Result.{result_ok}};
ghost use Rattle.mdp_spec.specs.{Row.{entries}, Written.{written_sum}};
ghost use Rattle.mdp_policy_iteration.specs.{Code.{plus_outer}, Path.{outer}};

use mdp_num::{Frac, Wide};
use mdp_rows::{Marks, Row};

/// `sum`, and where the target isn't active its value times the probability.
fn plus_outer(
    sum: &Frac,
    target: u32,
    prob: &Frac,
    active: &Marks,
    values: &[Frac],
) -> Result<Frac, Wide>
    requires active { target < length active.now }
    requires values { target < length values.now }
    ensures { result_ok result ≡ plus_outer active.now values.now sum.now target prob.now }
{
    if active.at(target) {
        return Ok(*sum);
    }
    let term = prob.mul(&values[target as usize])?;
    sum.add(&term)
}

/// `start`, and for each entry of a row to a node that isn't active its probability times the value of its target: the constant of an active node's
/// equation. One mark and one value for each node. `Wide` where a term is past width.
pub fn outer_sum(row: Row<'_>, active: &Marks, start: &Frac, values: &[Frac]) -> Result<Frac, Wide>
    requires active { All (λ t. t < length active.now) row.targets.now }
    requires values { All (λ t. t < length values.now) row.targets.now }
    ensures { result_ok result ≡ written_sum values.now start.now (outer active.now (entries row.entry.targets.now row.entry.probs.now)) }
{
    let mut sum = *start;
    for i in 0..row.targets.len() {
        sum = plus_outer(&sum, row.targets[i], &row.probs[i], active, values)?;
    }
    Ok(sum)
}
