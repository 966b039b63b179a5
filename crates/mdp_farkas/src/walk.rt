ghost use Rattle.std.specs.{Prelude.{◌≡◌, ℕ, ◌<◌, List, [], ◌∷◌, length}, List.{flat_map, range_with_len}};
ghost use Rattle.mdp_spec.specs.Mdp.{states_of, choices_at};
ghost use Rattle.mdp_farkas.specs.Verdict.{Check, at_choices, objection_to};

use mdp_claims::Objection;
use mdp_rows::Model;

/// Checks at each number below a count.
pub trait Checks: Copy {
    // Below which number it has checks.
    ghost count: { Self → ℕ };

    // The checks at a number.
    ghost checks: { Self → ℕ → List Check };

    /// What stands against the checks at number `i`.
    fn check(self, i: u32) -> Result<(), Objection>
        requires { i < count self }
        ensures { result ≡ objection_to (checks self i) };
}

/// One check at each number below a count.
pub trait OneCheck: Copy {
    // Below which number it has a check.
    ghost count: { Self → ℕ };

    // The check at a number.
    ghost check: { Self → ℕ → Check };

    /// What stands against the check at number `i`.
    fn check_at(self, i: u32) -> Result<(), Objection>
        requires { i < count self }
        ensures { result ≡ objection_to (check self i ∷ []) };
}

/// The checks at each number below `count`, in order: the first objection ends the walk.
pub fn each_below<C: Checks>(count: u32, checks: C) -> Result<(), Objection>
    requires { C.count checks ≡ count }
    ensures { result ≡ objection_to (flat_map (C.checks checks) (range_with_len 0 count)) }
{
    for i in 0..count {
        checks.check(i)?;
    }
    Ok(())
}

/// The check at each choice of state `s`.
pub fn each_choice<C: OneCheck>(model: &Model, s: u32, check: C) -> Result<(), Objection>
    requires state { s < states_of model.now }
    requires count { C.count check ≡ length (choices_at model.now s) }
    ensures { result ≡ objection_to (at_choices model.now s (C.check check)) }
{
    for c in 0..model.choices(s) {
        check.check_at(c)?;
    }
    Ok(())
}
