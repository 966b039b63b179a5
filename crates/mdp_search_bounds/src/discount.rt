ghost use Rattle.std.specs.Prelude.{◌≡◌, ◌<◌, ◌⊎◌, ℕ, true, length, map, Some, IsSome, IfOk, IfSome};
ghost use Rattle.mdp_spec.specs.{Mdp.{states_of}, Bounds.{reward_at}};
ghost use Rattle.mdp_discount_rules.specs.{Rules.{IsFactor}, Checks.{IsDiscount}};
ghost use Rattle.mdp_discount_rules.specs.BoundsChecks.{IsDiscountBounds};
ghost use Rattle.mdp_search_bounds.specs.{DiscountHeld.{HasDiscountSizes, IsHeldDiscount, AreExactBounds}, Near.{AreValuesNear}};
ghost use Rattle.mdp_search_bounds.specs.Wide.{IsDiscountWide};

use crate::finite::finite_bounds;
use crate::gap::Gap;
use crate::ladder::{Search, bounds_by};
use crate::missing::missing_discount;
use mdp_discount::solve_discount;
use mdp_discount_rules::{
    DiscountBounds, DiscountCert, Verdict, discount_bounds_at_state, greatest_bounds_magnitude,
    holds_bounds_discount,
};
use mdp_num::{Frac, Memory};
use mdp_proposals::{
    ProposedDiscount, all_capped, listed, numbers, propose_discount, simplest_rewards,
};
use mdp_rows::{Dir, Model};
use mdp_wide::SolveError;
use std::alloc::{AllocError, Global};

/// The search for bounds of the discounted reward of a name.
#[derive(Clone, Copy)]
struct Discounting<'m> {
    model: &'m Model,
    name: u32,
    dir: Dir,
    factor: &'m Frac,
    ghost named: { name < length model.now.names },
    ghost discounted: { IsFactor factor.now },
}

/// The bounds with the simplest fractions between lower and upper values as both, at the flagged states; where one of the two is missing it stays so.
fn simplest_bounds(
    alloc: Global,
    model: &Model,
    bounds: &DiscountBounds,
    is_sought: &[bool],
) -> Result<DiscountBounds, Memory>
    requires { HasDiscountSizes model.now bounds.now }
    ensures { IfOk result (HasDiscountSizes model.now) }
{
    let states = model.states();
    let lower = simplest_rewards(alloc, states, &bounds.lower, &bounds.upper, is_sought)?;
    let upper = all_capped(alloc, states, &lower, &bounds.upper)?;
    let choices = bounds.choices.clone()?;
    let remainder = greatest_bounds_magnitude(&lower, &upper);
    Ok(DiscountBounds {
        lower,
        upper,
        choices,
        remainder,
    })
}

/// Whether no value is missing.
fn are_there(values: &[Option<Frac>]) -> bool
    ensures { result ≡ true → (s : ℕ) → s < length values.now → IsSome (reward_at values.now s) }
{
    for place in 0..values.len() {
        if values[place].is_none() {
            return false;
        }
    }
    true
}

/// A value for each state, all of them there.
fn some_values(alloc: Global, values: &[Frac]) -> Result<Vec<Option<Frac>>, AllocError>
    ensures { IfOk result (λ list. list.items ≡ map Some values.now) }
{
    let mut list = Vec::new(alloc);
    for value in values {
        list.push(Some(*value))?;
    }
    Ok(list)
}

impl Discounting<'_> {
    /// An exact answer as bounds: its values are lower and upper ones.
    fn bounds_of(self, alloc: Global, answer: DiscountCert) -> Result<DiscountBounds, AllocError>
        requires { IsDiscount self.dir self.model.now self.name self.factor.now answer.values.items answer.remainder answer.choices.items }
        ensures sizes { IfOk result (HasDiscountSizes self.entry.model.now) }
        ensures exact { IfOk result (AreExactBounds answer.values.items answer.choices.items) }
    {
        let lower = some_values(alloc, &answer.values)?;
        let upper = some_values(alloc, &answer.values)?;
        let remainder = greatest_bounds_magnitude(&lower, &upper);
        Ok(DiscountBounds {
            lower,
            upper,
            choices: answer.choices,
            remainder,
        })
    }
}

impl Search for Discounting<'_> {
    type Proposal = ProposedDiscount;

    type Cert = DiscountBounds;

    ghost is_sized = { λ p bounds. HasDiscountSizes p.model.now bounds };

    ghost is_held = { λ p bounds. IsHeldDiscount p.dir p.model.now p.name p.factor.now bounds };

    ghost is_near = { λ p digits bounds. AreValuesNear digits p.model.now bounds.lower.items bounds.upper.items };

    ghost is_wide = { λ p. IsDiscountWide p.dir p.model.now p.name p.factor.now };

    ghost is_made = { λ p digits near. Unit {0} };

    ghost is_proposed = { λ p digits cert. Unit {0} };

    ghost is_found = { λ p cert. Unit {0} };

    fn model(&self) -> &Model {
        self.model
    }

    fn first_digits(&self, _digits: u32) -> Option<u32> {
        None
    }

    fn propose(&self, alloc: Global, digits: u32) -> Result<ProposedDiscount, Memory> {
        propose_discount(alloc, self.model, self.name, self.dir, self.factor, digits)
    }

    fn proposed(&self, alloc: Global, near: &ProposedDiscount) -> Result<DiscountBounds, Memory> {
        let model = self.model;
        let lower = listed(alloc, model.states(), &near.lower)?;
        let upper = listed(alloc, model.states(), &near.upper)?;
        let choices = numbers(alloc, model.states(), &near.choices)?;
        let bounds = DiscountBounds {
            lower,
            upper,
            choices,
            remainder: Frac::whole(0),
        };
        Ok(finite_bounds(model, self.name, self.factor, bounds))
    }

    fn simplest(
        &self,
        alloc: Global,
        near: &ProposedDiscount,
        is_sought: &[bool],
    ) -> Result<DiscountBounds, Memory> {
        let bounds = self.proposed(alloc, near)?;
        simplest_bounds(alloc, self.model, &bounds, is_sought)
    }

    fn holds_at(&self, bounds: &DiscountBounds, s: u32) -> bool {
        s >= self.model.states()
            || discount_bounds_at_state(
                self.model,
                self.name,
                self.dir,
                self.factor,
                bounds,
                s,
            ).is_ok()
    }

    fn holds(&self, bounds: &DiscountBounds) -> bool {
        matches!(
            holds_bounds_discount(self.model, self.name, self.dir, self.factor, bounds),
            Verdict::Yes
        )
    }

    fn exact(&self, alloc: Global) -> Result<Option<DiscountBounds>, Memory> {
        let model = self.model;
        let name = model.name(self.name);
        match solve_discount(alloc, model, self.name, name, self.dir, *self.factor) {
            Ok(answer) => Ok(Some(self.bounds_of(alloc, answer)?)),
            Err(SolveError::TooWide(_)) => Ok(None),
            Err(SolveError::Memory) => Err(Memory),
        }
    }

    fn gap(&self, bounds: &DiscountBounds) -> Gap {
        if are_there(&bounds.lower) {
            Gap::between_rewards(&bounds.lower, &bounds.upper)
        } else {
            Gap::WIDEST
        }
    }

    fn trivial(&self, alloc: Global) -> Result<DiscountBounds, Memory> {
        let none = missing_discount(alloc, self.model)?;
        let finite = finite_bounds(self.model, self.name, self.factor, none);
        if self.holds(&finite) {
            return Ok(finite);
        }
        let bounds = missing_discount(alloc, self.model)?;
        match holds_bounds_discount(self.model, self.name, self.dir, self.factor, &bounds) {
            Verdict::Yes => Ok(bounds),
            _ => unreachable!(),
        }
    }
}

/// Bounds of the greatest or the least sum of rewards of the name of place `name` where a step later counts `factor` times as much, with a policy and
/// a remainder: exact values, where the simplest fractions between the bounds that the search proposes are such; else these bounds, in as few digits
/// as come as near as `digits` say: at most 10^-`digits` apart, or that times an upper value above 1; where none do, the exact answer, if it isn't
/// too wide; else what was found, at last one number that no reward passes, or no value at all. They always meet the rules. An `Err` is want of
/// memory.
pub fn bounds_discount(
    alloc: Global,
    model: &Model,
    name: u32,
    dir: Dir,
    factor: &Frac,
    digits: u32,
) -> Result<DiscountBounds, Memory>
    requires name { name < length model.now.names }
    requires factor { IsFactor factor.now }
    ensures rules { IfOk result (λ bounds. IsDiscountBounds dir model.now name factor.now bounds.lower.items bounds.upper.items bounds.remainder
        bounds.choices.items) }
    ensures near { IfOk result (λ bounds. AreValuesNear digits model.now bounds.lower.items bounds.upper.items ⊎
        IsDiscountWide dir model.now name factor.now) }
    ensures lower { IfOk result (λ bounds. length bounds.lower.items ≡ states_of model.now) }
    ensures upper { IfOk result (λ bounds. length bounds.upper.items ≡ states_of model.now) }
    ensures choices { IfOk result (λ bounds. length bounds.choices.items ≡ states_of model.now) }
{
    let search = Discounting {
        model,
        name,
        dir,
        factor,
    };
    bounds_by(alloc, &search, digits)
}
