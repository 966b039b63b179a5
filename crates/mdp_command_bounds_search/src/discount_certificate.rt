ghost use Rattle.std.specs.Prelude.{◌≡◌, Some, length, IfOk, IfSome, IsTrue, All};
ghost use Rattle.mdp_spec.specs.{Labels.{initial_of, place_of}, Mdp.{states_of}};
ghost use Rattle.mdp_claims.specs.declared.verdict.Verdict.TheVariants.{Yes};
ghost use Rattle.mdp_discount_rules.specs.Rules.{IsFactor};
ghost use Rattle.mdp_discount_rules.specs.{BoundsCert.{IsValueNarrow, is_init, Fits}, BoundsCheck.{init_check, IsAccepted}};
ghost use Rattle.mdp_discount_rules.specs.{BoundsChecks.{IsDiscountBounds}, BoundsPlain.{plain}};
ghost use Rattle.mdp_command_bounds_search.specs.DiscountDue.{ClaimsSo};

use mdp_discount_rules::{DiscountBounds, DiscountBoundsCert, InitialBounds};
use mdp_num::Frac;
use mdp_rows::{Dir, Model};
use mdp_text::all_short;
use std::alloc::{AllocError, Global};

/// A fraction is in width.
fn narrow(value: &Option<Frac>)
    ensures { IsValueNarrow value.now }
{
    if let Some(value) = value {
        value.num();
    }
}

/// Each fraction among these is in width.
fn all_values_narrow(values: &[Option<Frac>])
    ensures { All IsValueNarrow values.now }
{
    for value in values {
        narrow(value);
    }
}

/// The initial state of a model with its two values, where there is one.
fn init_of(model: &Model, bounds: &DiscountBounds) -> Option<InitialBounds>
    requires lower { length bounds.now.lower.items ≡ states_of model.now }
    requires upper { length bounds.now.upper.items ≡ states_of model.now }
    ensures checked { init_check result (initial_of model.now) bounds.now.lower.items bounds.now.upper.items ≡ Yes }
    ensures inside { IsTrue (is_init (length bounds.now.lower.items) result) }
    ensures width { IfSome result (λ i. IsValueNarrow i.lower × IsValueNarrow i.upper) }
{
    let Some(state) = model.initial() else {
        return None;
    };
    let lower = bounds.lower[state as usize];
    let upper = bounds.upper[state as usize];
    narrow(&lower);
    narrow(&upper);
    Some(InitialBounds {
        state,
        lower,
        upper,
    })
}

/// The certificate of bounds of discounted rewards of the name of place `m`, which is `name`. It is accepted, and has a text.
pub(crate) fn certificate_of(
    alloc: Global,
    model: &Model,
    m: u32,
    dir: Dir,
    name: &[u8],
    factor: Frac,
    bounds: DiscountBounds,
) -> Result<DiscountBoundsCert, AllocError>
    requires place { place_of name.now model.now.names ≡ Some m }
    requires factor { IsFactor factor }
    requires rules { IsDiscountBounds dir model.now m factor bounds.lower.items bounds.upper.items bounds.remainder bounds.choices.items }
    requires lower { length bounds.lower.items ≡ states_of model.now }
    requires upper { length bounds.upper.items ≡ states_of model.now }
    requires choices { length bounds.choices.items ≡ states_of model.now }
    ensures claim { IfOk result (λ cert. ClaimsSo dir name.now factor (plain cert)) }
    ensures accepted { IfOk result (λ cert. IsAccepted model.now (plain cert)) }
    ensures fits { IfOk result (λ cert. Fits (plain cert)) }
    ensures bounds { IfOk result (λ cert. cert.bounds ≡ bounds) }
{
    model.known();
    let init = init_of(model, &bounds);
    factor.num();
    bounds.remainder.num();
    all_values_narrow(&bounds.lower);
    all_values_narrow(&bounds.upper);
    all_short(&bounds.choices);
    let own = name.to_vec(alloc)?;
    Ok(DiscountBoundsCert {
        dir,
        name: own,
        factor,
        init,
        bounds,
    })
}
