ghost use Rattle.std.specs.Prelude.{◌≡◌, ◌<◌, ◌⊎◌, length, IfOk};
ghost use Rattle.mdp_spec.specs.Mdp.{states_of};
ghost use Rattle.mdp_farkas.specs.Mean.{IsMean};
ghost use Rattle.mdp_bounds.specs.Mean.{IsMeanBounds};
ghost use Rattle.mdp_search_bounds.specs.{Held.{HasMeanSizes, IsHeldMean}, Near.{AreNear}, Wide.{IsMeanWide}};

use crate::gap::Gap;
use crate::ladder::{Search, bounds_by};
use crate::mean_trivial::trivial_mean;
use crate::simplest::simplest_mean;
use mdp_bounds::{MeanBoundsCert, holds_bounds_mean, mean_bounds_at_state};
use mdp_claims::{MeanCert, Verdict};
use mdp_mean::solve_mean;
use mdp_num::Memory;
use mdp_proposals::{ProposedMean, fractions, numbers, propose_mean};
use mdp_rows::{Dir, Model};
use mdp_wide::SolveError;
use std::alloc::{AllocError, Global};

/// Of more states a mean payoff is first searched with few digits: how near its bounds come is measured as they are found, and hardly grows with the
/// model.
const MANY_STATES: u32 = 1_000;

/// How many digits more than were asked for are tried then.
const FIRST_SPARE: u32 = 1;

/// The search for bounds of the mean payoff of a name.
#[derive(Clone, Copy)]
struct Averaging<'m> {
    model: &'m Model,
    name: u32,
    dir: Dir,
    ghost named: { name < length model.now.names },
}

impl Averaging<'_> {
    /// An exact answer as bounds: its gains are lower and upper ones.
    fn bounds_of(self, alloc: Global, answer: MeanCert) -> Result<MeanBoundsCert, AllocError>
        requires gains { length answer.gains.items ≡ states_of self.model.now }
        requires rules { IsMean self.dir self.model.now self.name answer.gains.items answer.bound.items answer.bias.items answer.spread
            answer.choices.items }
        ensures held { IfOk result (IsHeldMean self.entry.dir self.entry.model.now self.entry.name) }
        ensures same { IfOk result (λ cert. cert.upper.items ≡ cert.lower.items) }
    {
        let lower = answer.gains.to_vec(alloc)?;
        Ok(MeanBoundsCert {
            lower,
            upper: answer.gains,
            bound: answer.bound,
            bias: answer.bias,
            choices: answer.choices,
            spread: answer.spread,
        })
    }
}

impl Search for Averaging<'_> {
    type Proposal = ProposedMean;

    type Cert = MeanBoundsCert;

    ghost is_sized = { λ p cert. HasMeanSizes p.model.now cert };

    ghost is_held = { λ p cert. IsHeldMean p.dir p.model.now p.name cert };

    ghost is_near = { λ p digits cert. AreNear digits p.model.now cert.lower.items cert.upper.items };

    ghost is_wide = { λ p. IsMeanWide p.dir p.model.now p.name };

    ghost is_made = { λ p digits near. Unit {0} };

    ghost is_proposed = { λ p digits cert. Unit {0} };

    ghost is_found = { λ p cert. Unit {0} };

    fn model(&self) -> &Model {
        self.model
    }

    fn first_digits(&self, digits: u32) -> Option<u32> {
        if self.model.states() > MANY_STATES {
            return Some(digits.saturating_add(FIRST_SPARE));
        }
        None
    }

    fn propose(&self, alloc: Global, digits: u32) -> Result<ProposedMean, Memory> {
        propose_mean(alloc, self.model, self.name, self.dir, digits)
    }

    fn proposed(&self, alloc: Global, near: &ProposedMean) -> Result<MeanBoundsCert, Memory> {
        let states = self.model.states();
        Ok(MeanBoundsCert {
            lower: fractions(alloc, states, &near.lower, near.one)?,
            upper: fractions(alloc, states, &near.upper, near.one)?,
            bound: fractions(alloc, states, &near.bound, near.one)?,
            bias: fractions(alloc, states, &near.bias, near.one)?,
            choices: numbers(alloc, states, &near.choices)?,
            spread: near.spread,
        })
    }

    fn simplest(
        &self,
        alloc: Global,
        near: &ProposedMean,
        is_sought: &[bool],
    ) -> Result<MeanBoundsCert, Memory> {
        simplest_mean(alloc, self.model, near, is_sought)
    }

    fn holds_at(&self, cert: &MeanBoundsCert, s: u32) -> bool {
        s >= self.model.states()
            || mean_bounds_at_state(self.model, self.name, self.dir, cert, s).is_ok()
    }

    fn holds(&self, cert: &MeanBoundsCert) -> bool {
        matches!(
            holds_bounds_mean(self.model, self.name, self.dir, cert),
            Verdict::Yes
        )
    }

    fn exact(&self, alloc: Global) -> Result<Option<MeanBoundsCert>, Memory> {
        match solve_mean(alloc, self.model, self.name, self.dir) {
            Ok(answer) => Ok(Some(self.bounds_of(alloc, answer)?)),
            Err(SolveError::TooWide(_)) => Ok(None),
            Err(SolveError::Memory) => Err(Memory),
        }
    }

    fn gap(&self, cert: &MeanBoundsCert) -> Gap {
        Gap::between(&cert.lower, &cert.upper)
    }

    fn trivial(&self, alloc: Global) -> Result<MeanBoundsCert, Memory> {
        trivial_mean(alloc, self.model, self.name)
    }
}

/// Bounds of the greatest or the least mean payoff of the name of place `name`, in units of that reward, with a policy, two relative values for each
/// state and their spread: exact gains, where the simplest fractions between the bounds that the search proposes are such; else these bounds, in as
/// few digits as come as near as `digits` say: at most 10^-`digits` apart, or that times an upper value above 1; where none do, the exact answer, if
/// it isn't too wide; else what was found, at last the least and the greatest reward. They always meet the rules. An `Err` is want of memory.
pub fn bounds_mean(
    alloc: Global,
    model: &Model,
    name: u32,
    dir: Dir,
    digits: u32,
) -> Result<MeanBoundsCert, Memory>
    requires { name < length model.now.names }
    ensures rules { IfOk result (λ cert. IsMeanBounds dir model.now name cert.lower.items cert.upper.items cert.bound.items cert.bias.items
        cert.spread cert.choices.items) }
    ensures near { IfOk result (λ cert. AreNear digits model.now cert.lower.items cert.upper.items ⊎ IsMeanWide dir model.now name) }
    ensures lower { IfOk result (λ cert. length cert.lower.items ≡ states_of model.now) }
    ensures upper { IfOk result (λ cert. length cert.upper.items ≡ states_of model.now) }
    ensures bound { IfOk result (λ cert. length cert.bound.items ≡ states_of model.now) }
    ensures bias { IfOk result (λ cert. length cert.bias.items ≡ states_of model.now) }
    ensures choices { IfOk result (λ cert. length cert.choices.items ≡ states_of model.now) }
{
    let search = Averaging { model, name, dir };
    bounds_by(alloc, &search, digits)
}
