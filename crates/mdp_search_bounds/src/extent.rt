ghost use Rattle.std.specs.Prelude.{◌≡◌, ◌<◌, ◌⊎◌, length};
ghost use Rattle.mdp_math.specs.Written.{cmp_ℚ};
ghost use Rattle.mdp_spec.specs.Mdp.{states_of, choices_at};
ghost use Rattle.mdp_rows.specs.Better.{is_better, IsAsGood};
ghost use Rattle.mdp_search_bounds.specs.Extent.{IsAsGoodAt, IsAsGoodBelow, IsEarned, IsExtreme};

use mdp_num::Frac;
use mdp_rows::{Dir, Model};

/// Whether a number is better than the best one: greater, or for `Min` less.
fn improves(dir: Dir, number: &Frac, best: &Frac) -> bool
    ensures { result ≡ is_better dir (cmp_ℚ number.now best.now) }
{
    dir.is_better(number.order(best))
}

/// The greater, or for `Min` the lesser, of two numbers.
fn better(dir: Dir, number: &Frac, best: &Frac) -> Frac
    ensures as_best { IsAsGood dir result best.now }
    ensures as_number { IsAsGood dir result number.now }
    ensures one { (result ≡ best.now) ⊎ (result ≡ number.now) }
{
    if improves(dir, number, best) {
        *number
    } else {
        *best
    }
}

/// The best of a first number and the rewards of the choices of state `s`.
fn best_at(model: &Model, name: u32, dir: Dir, first: &Frac, s: u32) -> Frac
    requires name { name < length model.now.names }
    requires state { s < states_of model.now }
    ensures as_first { IsAsGood dir result first.now }
    ensures as_each { IsAsGoodAt dir model.now name result s (length (choices_at model.now s)) }
    ensures one { (result ≡ first.now) ⊎ IsEarned model.now name result }
{
    let mut best = *first;
    for c in 0..model.choices(s) {
        best = better(dir, &model.reward(name, s, c), &best);
    }
    best
}

/// The best of a first number and the rewards of all choices.
fn best_of(model: &Model, name: u32, dir: Dir, first: &Frac) -> Frac
    requires { name < length model.now.names }
    ensures as_each { IsAsGoodBelow dir model.now name result (states_of model.now) }
    ensures one { (result ≡ first.now) ⊎ IsEarned model.now name result }
{
    let mut best = *first;
    for s in 0..model.states() {
        best = best_at(model, name, dir, &best, s);
    }
    best
}

/// The greatest, or the least, reward of a choice under the reward name of place `name`.
pub(crate) fn extreme(model: &Model, name: u32, dir: Dir) -> Frac
    requires { name < length model.now.names }
    ensures { IsExtreme dir model.now name result }
{
    model.known();
    best_of(model, name, dir, &model.reward(name, 0, 0))
}
