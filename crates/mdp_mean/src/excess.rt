ghost use Rattle.std.specs.{Prelude.{◌≡◌, ◌<◌, length, [], ◌∷◌, Some}, Result.{result_ok}};
ghost use Rattle.mdp_wide.specs.declared.too_wide.Kind.TheVariants.{Compare};
ghost use Rattle.mdp_farkas.specs.Spread.{written_best};
ghost use Rattle.mdp_rows.specs.declared.dir.Dir.TheVariants.{Max};
ghost use Rattle.mdp_spec.specs.Mdp.{states_of, choices_at};
ghost use Rattle.mdp_mean.specs.{Code.{joining_in}, Faults.{placed_at, Answers}, Join.{after_choice, after_state, written_excess}};
ghost use Rattle.mdp_mean.specs.Terms.{excess_over, excess_at, greater_excess};

use crate::errors::{JoinError, JoinPlace};
use crate::joining::Joining;
use mdp_num::{Frac, Wide};
use mdp_rows::Dir;
use mdp_wide::Kind;
use std::cmp::Ordering;

/// How much `earned` is above `value`, or for the least mean payoff below it.
fn excess_over(dir: Dir, earned: &Frac, value: &Frac) -> Result<Frac, Wide>
    ensures { result_ok result ≡ excess_over dir earned.now value.now }
{
    match dir {
        Dir::Max => earned.sub(value),
        Dir::Min => value.sub(earned),
    }
}

/// How much choice `c` of state `s` earns by the inner bias beyond the gain and the inner bias.
fn excess_at(join: &Joining<'_>, s: u32, c: u32) -> Result<Frac, Wide>
    requires state { s < states_of join.now.model.now }
    requires choice { c < length (choices_at join.now.model.now s) }
    ensures { result_ok result ≡ excess_at (joining_in join.now) s c }
{
    let reward = join.model.reward(join.name, s, c);
    let earned = join.model.row(s, c).sum(&reward, join.inner)?;
    let value = join.gains[s as usize].add(&join.inner[s as usize])?;
    excess_over(join.dir, &earned, &value)
}

/// The greater of two numbers.
fn greater(first: Frac, second: Frac) -> Result<Frac, Wide>
    ensures { result_ok result ≡ written_best Max first (second ∷ []) }
{
    if second.compare(&first)? == Ordering::Greater {
        Ok(second)
    } else {
        Ok(first)
    }
}

/// The greater of the excess of choice `c` of state `s` and the greatest one so far.
fn greater_excess(join: &Joining<'_>, s: u32, c: u32, greatest: Frac) -> Result<Frac, Wide>
    requires state { s < states_of join.now.model.now }
    requires choice { c < length (choices_at join.now.model.now s) }
    ensures { result_ok result ≡ greater_excess (joining_in join.now) s c greatest }
{
    let excess = excess_at(join, s, c)?;
    greater(greatest, excess)
}

/// A step for choice `c` of state `s`.
fn at_choice(step: Result<Frac, Wide>, s: u32, c: u32) -> Result<Frac, JoinError>
    ensures { result ≡ placed_at Compare (Some s) (Some c) step }
{
    match step {
        Ok(value) => Ok(value),
        Err(Wide) => Err(JoinError::TooWide(JoinPlace {
            kind: Kind::Compare,
            state: Some(s),
            choice: Some(c),
        })),
    }
}

/// The greatest excess so far and of choice `c` of state `s`, where that is an exit.
fn after_choice(join: &Joining<'_>, s: u32, c: u32, greatest: Frac) -> Result<Frac, JoinError>
    requires state { s < states_of join.now.model.now }
    requires choice { c < length (choices_at join.now.model.now s) }
    ensures { Answers (λ d. d) result (after_choice (joining_in join.now) s c greatest) }
{
    if join.ends.inside(s, c) {
        return Ok(greatest);
    }
    at_choice(greater_excess(join, s, c, greatest), s, c)
}

/// The greatest excess so far and of the exits among the choices of state `s`.
fn after_state(join: &Joining<'_>, s: u32, greatest: Frac) -> Result<Frac, JoinError>
    requires state { s < states_of join.now.model.now }
    ensures { Answers (λ d. d) result (after_state (joining_in join.now) s greatest) }
{
    let mut excess = greatest;
    for c in 0..join.model.choices(s) {
        excess = after_choice(join, s, c, excess)?;
    }
    Ok(excess)
}

/// The greatest excess of an exit, and at least 0, or the first place at which a written term is past width.
pub(crate) fn greatest_excess(join: &Joining<'_>) -> Result<Frac, JoinError>
    ensures { Answers (λ d. d) result (written_excess (joining_in join.now)) }
{
    let mut excess = Frac::whole(0);
    for s in 0..join.model.states() {
        excess = after_state(join, s, excess)?;
    }
    Ok(excess)
}
