ghost use Rattle.std.specs.Prelude.{◌≡◌, ◌<◌, ◌↔◌, length, slice_index, [], ◌∷◌};
ghost use Rattle.mdp_spec.specs.Mdp.{states_of, choices_at};
ghost use Rattle.mdp_farkas.specs.Verdict.{objection_to, verdict_of, IsYes, IfYes};
ghost use Rattle.mdp_rows.specs.declared.dir.Dir.TheVariants.{Max, Min};
ghost use Rattle.mdp_bounds.specs.Says.{covering_rewards};
ghost use Rattle.mdp_discount_rules.specs.Rules.{IsFactor};
ghost use Rattle.mdp_discount_rules.specs.Between.{DiscountMaxBetween, DiscountMinBetween};
ghost use Rattle.mdp_discount_rules.specs.BoundsChecks.{remainder_check, bounds_at, discount_bounds_checks, IsDiscountBounds, IsTrivialDiscount};

use crate::bounds::DiscountBounds;
use crate::bounds_remainder::greatest_bounds_magnitude;
use crate::half::DiscountHalf;
use mdp_farkas::{
    Checks, Objection, Rule, Verdict, choice_at, each_below, each_choice, judged, judged_at,
    reversed, verdict_after,
};
use mdp_num::Frac;
use mdp_rows::{Dir, Model};

/// Lower and upper values and a policy that are held against a model.
#[derive(Clone, Copy)]
struct DiscountBoundsClaim<'a> {
    dir: Dir,
    model: &'a Model,
    name: u32,
    factor: &'a Frac,
    lower: &'a [Option<Frac>],
    upper: &'a [Option<Frac>],
    choices: &'a [u32],
    ghost named: { name < length model.now.names },
    ghost lower_each: { length lower.now ≡ states_of model.now },
    ghost upper_each: { length upper.now ≡ states_of model.now },
    ghost choices_each: { length choices.now ≡ states_of model.now },
}

impl Checks for DiscountBoundsClaim<'_> {
    ghost use Rattle.mdp_discount_rules.specs.BoundsClaim.{rules_at};

    ghost count = { λ x. states_of x.model.now };

    ghost checks = { λ x s. rules_at x s (slice_index x.choices.now s) };

    /// The rules at state `s`.
    fn check(self, s: u32) -> Result<(), Objection> {
        self.state_at(s, self.choices[s as usize])
    }
}

impl<'a> DiscountBoundsClaim<'a> {
    ghost use Rattle.mdp_discount_rules.specs.BoundsClaim.{covers_at, follows_at, rules_at, all_checks};

    /// The values of the half in this direction: the upper ones for `Max`, and the lower ones for `Min`.
    fn covering(self, dir: Dir) -> &'a [Option<Frac>]
        ensures values { result.now ≡ covering_rewards dir self.entry.lower.now self.entry.upper.now }
        ensures one_each { length result.now ≡ states_of self.entry.model.now }
    {
        match dir {
            Dir::Max => self.upper,
            Dir::Min => self.lower,
        }
    }

    /// The half on each choice, at state `s`.
    fn covers(self, s: u32) -> Result<(), Objection>
        requires { s < states_of self.model.now }
        ensures { result ≡ objection_to (covers_at self.entry s) }
    {
        let half = DiscountHalf {
            dir: self.dir,
            model: self.model,
            name: self.name,
            factor: self.factor,
            values: self.covering(self.dir),
            state: s,
        };
        each_choice(self.model, s, half)
    }

    /// The half on the policy's choice, at state `s`.
    fn follows(self, s: u32, choice: u32) -> Result<(), Objection>
        requires state { s < states_of self.model.now }
        requires choice { choice < length (choices_at self.model.now s) }
        ensures { result ≡ objection_to (follows_at self.entry s choice) }
    {
        let dir = reversed(self.dir);
        let half = DiscountHalf {
            dir,
            model: self.model,
            name: self.name,
            factor: self.factor,
            values: self.covering(dir),
            state: s,
        };
        judged(
            half.allows(choice),
            Rule::DiscountedOnPolicy,
            s,
            Some(choice),
        )
    }

    /// The rules at state `s`, where the policy takes this choice.
    fn state_at(self, s: u32, choice: u32) -> Result<(), Objection>
        requires { s < states_of self.model.now }
        ensures { result ≡ objection_to (rules_at self.entry s choice) }
    {
        choice_at(self.model, s, choice)?;
        self.covers(s)?;
        self.follows(s, choice)
    }

    /// The remainder is the greatest magnitude of the values.
    fn remainder(self, remainder: &Frac) -> Result<(), Objection>
        ensures { result ≡ objection_to (remainder_check self.entry.lower.now self.entry.upper.now remainder.now ∷ []) }
    {
        let holds = *remainder == greatest_bounds_magnitude(self.lower, self.upper);
        judged_at(Ok(holds), Rule::RemainderIsGreatest, None, None)
    }

    /// All rules: those at each state, from 0 on, and that of the remainder.
    fn walk(self, remainder: &Frac) -> Result<(), Objection>
        ensures { result ≡ objection_to (all_checks self.entry remainder.now) }
    {
        each_below(self.model.states(), self)?;
        self.remainder(remainder)
    }
}

/// The rules at state `s` for these bounds: the first that fails, or the first written term past width.
pub fn discount_bounds_at_state(
    model: &Model,
    m: u32,
    dir: Dir,
    factor: &Frac,
    bounds: &DiscountBounds,
    s: u32,
) -> Result<(), Objection>
    requires name { m < length model.now.names }
    requires lower { length bounds.now.lower.items ≡ states_of model.now }
    requires upper { length bounds.now.upper.items ≡ states_of model.now }
    requires choices { length bounds.now.choices.items ≡ states_of model.now }
    requires state { s < states_of model.now }
    ensures { result
        ≡ objection_to (bounds_at dir model.now m factor.now bounds.now.lower.items bounds.now.upper.items
        s (slice_index bounds.now.choices.items s)) }
{
    let claim = DiscountBoundsClaim {
        dir,
        model,
        name: m,
        factor,
        lower: &bounds.lower,
        upper: &bounds.upper,
        choices: &bounds.choices,
    };
    claim.check(s)
}

/// Whether the greatest, or the least, discounted rewards of the reward name of place `m` lie between the values, and those of the policy too: what
/// rules 2 and 26 to 28 say. Yes, the first rule that is false with its place, or the place of the first written term past width where that comes
/// before; the rule of the remainder has no place. Values that are all missing get yes on every model, with the remainder 0. It takes no memory.
pub fn holds_bounds_discount(
    model: &Model,
    m: u32,
    dir: Dir,
    factor: &Frac,
    bounds: &DiscountBounds,
) -> Verdict
    requires name { m < length model.now.names }
    requires factor { IsFactor factor.now }
    requires lower { length bounds.now.lower.items ≡ states_of model.now }
    requires upper { length bounds.now.upper.items ≡ states_of model.now }
    requires choices { length bounds.now.choices.items ≡ states_of model.now }
    ensures verdict { result
        ≡ verdict_of (discount_bounds_checks dir model.now m factor.now
        bounds.now.lower.items bounds.now.upper.items bounds.now.remainder bounds.now.choices.items) }
    ensures rules { IsYes result
        ↔ IsDiscountBounds dir model.now m factor.now bounds.now.lower.items bounds.now.upper.items bounds.now.remainder bounds.now.choices.items }
    ensures max { dir ≡ Max
        → IfYes result (DiscountMaxBetween model.now m factor.now
        bounds.now.lower.items bounds.now.upper.items bounds.now.remainder bounds.now.choices.items) }
    ensures min { dir ≡ Min
        → IfYes result (DiscountMinBetween model.now m factor.now
        bounds.now.lower.items bounds.now.upper.items bounds.now.remainder bounds.now.choices.items) }
    ensures trivial { IsTrivialDiscount model.now bounds.now.lower.items bounds.now.upper.items bounds.now.remainder bounds.now.choices.items
        → IsYes result }
{
    model.known();
    let claim = DiscountBoundsClaim {
        dir,
        model,
        name: m,
        factor,
        lower: bounds.lower.as_slice(),
        upper: bounds.upper.as_slice(),
        choices: bounds.choices.as_slice(),
    };
    verdict_after(claim.walk(&bounds.remainder))
}
