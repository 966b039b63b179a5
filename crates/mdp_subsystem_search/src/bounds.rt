ghost use Rattle.std.specs.Prelude.{◌≡◌, ◌↔◌, length, true, false, IfOk, IfSome, IfNone};
ghost use Rattle.mdp_math.specs.Rational.{◌≤ℚ◌, ◌<ℚ◌};
ghost use Rattle.mdp_spec.specs.Mdp.{states_of, value_at};
ghost use Rattle.mdp_bounds.specs.Reach.{IsReachBounds, IsTrivialReach};
ghost use Rattle.mdp_subsystem_search.specs.{Shown.{ones, named, LieBetween}, Steps.{HasSizes, AreHeld, IsLowerSide, IsReaching, IsShort}};

use crate::query::Query;
use crate::trivial::least_values;
use mdp_bounds::{ReachBoundsCert, holds_bounds_reach, value_stands};
use mdp_claims::Verdict;
use mdp_num::{Frac, Memory};
use mdp_proposals::{fractions, numbers, propose_reach};
use mdp_rows::{Dir, Model};
use std::alloc::{AllocError, Global};

/// The choices of a certificate: for the least probability none is named.
fn named(alloc: Global, dir: Dir, states: u32, choices: Vec<u32>) -> Result<Vec<u32>, AllocError>
    requires { length choices.items ≡ states }
    ensures { IfOk result (λ list. list.items ≡ named dir states choices.items) }
{
    match dir {
        Dir::Max => Ok(choices),
        Dir::Min => vec![in alloc; 0; states as usize],
    }
}

impl Query<'_, '_> {
    ghost use Rattle.mdp_subsystem_search.specs.Asked.{for_model, LiesBetween, IsTrivial, AreLowerBounds};

    /// The bounds that the search proposes for a model of as many states.
    pub(crate) fn proposed(
        &self,
        alloc: Global,
        sub: &Model,
        digits: u32,
    ) -> Result<ReachBoundsCert, Memory>
        requires { states_of sub.now ≡ states_of self.now.model.now }
        ensures { IfOk result (HasSizes (states_of self.now.model.now)) }
    {
        let near = propose_reach(alloc, sub, self.goals, self.dir, digits)?;
        let states = sub.states();
        Ok(ReachBoundsCert {
            lower: fractions(alloc, states, &near.lower, near.one)?,
            upper: fractions(alloc, states, &near.upper, near.one)?,
            choices: numbers(alloc, states, &near.choices)?,
            ranks: numbers(alloc, states, &near.ranks)?,
        })
    }

    /// Whether the rules say yes to a certificate on a model of as many states.
    pub(crate) fn holds(&self, sub: &Model, cert: &ReachBoundsCert) -> bool
        requires states { states_of sub.now ≡ states_of self.now.model.now }
        requires sizes { HasSizes (states_of self.now.model.now) cert.now }
        ensures rules { (result ≡ true) ↔ AreHeld self.now.dir sub.now self.now.goals.now cert.now }
        ensures between { result ≡ true → LiesBetween self.now sub.now cert.now }
        ensures trivial { IsTrivial self.now sub.now cert.now → result ≡ true }
    {
        matches!(
            holds_bounds_reach(sub, self.goals, self.dir, cert),
            Verdict::Yes
        )
    }

    /// Whether a value is at least the threshold.
    fn is_enough(&self, value: &Frac) -> bool
        ensures enough { result ≡ true → self.now.threshold ≤ℚ value.now }
        ensures less { result ≡ false → value.now <ℚ self.now.threshold }
    {
        value_stands(Dir::Max, value, &self.threshold)
    }

    /// Whether the lower value of the start is at least the threshold.
    pub(crate) fn is_reached(&self, cert: &ReachBoundsCert) -> bool
        requires { HasSizes (states_of self.now.model.now) cert.now }
        ensures enough { result ≡ true → self.now.threshold ≤ℚ value_at cert.now.lower.items self.now.start }
        ensures less { result ≡ false → value_at cert.now.lower.items self.now.start <ℚ self.now.threshold }
    {
        self.is_enough(&cert.lower[self.start as usize])
    }

    /// Whether its upper value is less than the threshold.
    pub(crate) fn is_missed(&self, cert: &ReachBoundsCert) -> bool
        requires { HasSizes (states_of self.now.model.now) cert.now }
        ensures less { result ≡ true → value_at cert.now.upper.items self.now.start <ℚ self.now.threshold }
        ensures enough { result ≡ false → self.now.threshold ≤ℚ value_at cert.now.upper.items self.now.start }
    {
        !self.is_enough(&cert.upper[self.start as usize])
    }

    /// The same lower values with 1 for each upper value.
    fn one_sided(&self, alloc: Global, cert: ReachBoundsCert) -> Result<ReachBoundsCert, AllocError>
        requires { HasSizes (states_of self.now.model.now) cert }
        ensures sizes { IfOk result (HasSizes (states_of self.now.model.now)) }
        ensures side { IfOk result (IsLowerSide self.now.dir (states_of self.now.model.now) cert) }
    {
        let states = self.model.states();
        Ok(ReachBoundsCert {
            lower: cert.lower,
            upper: vec![in alloc; Frac::whole(1); states as usize]?,
            choices: named(alloc, self.dir, states, cert.choices)?,
            ranks: cert.ranks,
        })
    }

    /// The lower side of bounds, where the rules say yes to it on a model of as many states and it comes to the threshold.
    pub(crate) fn reaching(
        &self,
        alloc: Global,
        sub: &Model,
        cert: ReachBoundsCert,
    ) -> Result<Option<ReachBoundsCert>, Memory>
        requires states { states_of sub.now ≡ states_of self.now.model.now }
        requires sizes { HasSizes (states_of self.now.model.now) cert }
        ensures some { IfOk result (λ found. IfSome found (for_model self.now sub.now IsReaching)) }
        ensures none { IfOk result (λ found. IfNone found
            (self.now.threshold ≤ℚ value_at cert.lower.items self.now.start → AreLowerBounds self.now sub.now cert.lower.items cert.choices.items cert.ranks.items → ⊥)) }
    {
        let sided = self.one_sided(alloc, cert)?;
        if self.is_reached(&sided) && self.holds(sub, &sided) {
            return Ok(Some(sided));
        }
        Ok(None)
    }

    /// The same upper values with lower values that say nothing.
    fn upper_sided(
        &self,
        alloc: Global,
        cert: ReachBoundsCert,
    ) -> Result<ReachBoundsCert, AllocError>
        requires { HasSizes (states_of self.now.model.now) cert }
        ensures { IfOk result (HasSizes (states_of self.now.model.now)) }
    {
        let states = self.model.states();
        Ok(ReachBoundsCert {
            lower: least_values(alloc, states, self.goals)?,
            upper: cert.upper,
            choices: cert.choices,
            ranks: vec![in alloc; 0; states as usize]?,
        })
    }

    /// Whether the rules say yes to the upper side of bounds on a model of as many states, and it is below the threshold.
    pub(crate) fn missing(
        &self,
        alloc: Global,
        sub: &Model,
        cert: ReachBoundsCert,
    ) -> Result<bool, AllocError>
        requires states { states_of sub.now ≡ states_of self.now.model.now }
        requires sizes { HasSizes (states_of self.now.model.now) cert }
        ensures { IfOk result (λ is_short. is_short ≡ true → for_model self.now sub.now IsShort) }
    {
        let sided = self.upper_sided(alloc, cert)?;
        Ok(self.is_missed(&sided) && self.holds(sub, &sided))
    }
}
