ghost use Rattle.std.specs.Prelude.{◌≡◌, length, map, not, IfOk, IfSome};
ghost use Rattle.mdp_math.specs.Rational.{◌<ℚ◌};
ghost use Rattle.mdp_spec.specs.Mdp.{states_of, value_at};
ghost use Rattle.mdp_subsystem_search.specs.{Shown.{LieBetween}, Kept.{IsFound}, Steps.{HasSizes, IsReaching, StandsSo}};

use crate::found::Found;
use crate::query::Query;
use crate::standing::{Standing, is_decided};
use crate::trivial::trivial_reach;
use mdp_bounds::ReachBoundsCert;
use mdp_num::Memory;
use mdp_proposals::MOST_DIGITS;
use mdp_rows::Marks;
use mdp_subsystem_rules::fewer_law;
use std::alloc::{AllocError, Global};

/// The states that are no goals.
fn others(alloc: Global, states: u32, goals: &Marks) -> Result<Marks, AllocError>
    requires { length goals.now ≡ states }
    ensures { IfOk result (λ others. others ≡ map not goals.now) }
{
    let mut items = Vec::with_capacity(alloc, states as usize)?;
    for s in 0..states {
        items.push(!goals.at(s))?;
    }
    Ok(Marks::from_values(items))
}

impl Query<'_, '_> {
    ghost use Rattle.mdp_subsystem_search.specs.Asked.{for_query, LiesBetween};

    /// How the model stands to the threshold by bounds that the rules say yes to.
    fn standing_by(&self, cert: &ReachBoundsCert) -> Standing
        requires sizes { HasSizes (states_of self.now.model.now) cert.now }
        requires between { LiesBetween self.now self.now.model.now cert.now }
        requires under { value_at cert.now.lower.items self.now.start <ℚ self.now.threshold }
        ensures { for_query self.now StandsSo result }
    {
        let upper = cert.upper[self.start as usize];
        if self.is_missed(cert) {
            return Standing::Below(upper);
        }
        let lower = cert.lower[self.start as usize];
        Standing::Between { lower, upper }
    }

    /// How the model stands to the threshold by what the search proposes with so many digits, where the rules say yes to it.
    fn standing_with(&self, alloc: Global, digits: u32) -> Result<Option<Standing>, Memory>
        ensures { IfOk result (λ found. IfSome found (for_query self.now StandsSo)) }
    {
        let cert = self.proposed(alloc, self.model, digits)?;
        if self.is_reached(&cert) {
            let found = self.reaching(alloc, self.model, cert)?;
            return Ok(found.map(Standing::Reaches));
        }
        if self.holds(self.model, &cert) {
            return Ok(Some(self.standing_by(&cert)));
        }
        Ok(None)
    }

    /// How the model stands to the threshold by the bounds that say nothing.
    fn standing_by_nothing(&self, alloc: Global) -> Result<Standing, Memory>
        ensures { IfOk result (for_query self.now StandsSo) }
    {
        self.model.known();
        let cert = trivial_reach(alloc, self.model, self.goals)?;
        if !self.holds(self.model, &cert) {
            unreachable!();
        }
        if self.is_reached(&cert) {
            return Ok(Standing::Reaches(cert));
        }
        Ok(self.standing_by(&cert))
    }

    /// How the model stands to the threshold by the most digits, else by the bounds that say nothing.
    fn standing_with_most(&self, alloc: Global) -> Result<Standing, Memory>
        ensures { IfOk result (for_query self.now StandsSo) }
    {
        match self.standing_with(alloc, MOST_DIGITS)? {
            Some(standing) => Ok(standing),
            None => self.standing_by_nothing(alloc),
        }
    }

    /// How the model stands to the threshold: by few digits, where they tell on which side of it; else by more.
    pub(crate) fn standing(&self, alloc: Global) -> Result<Standing, Memory>
        ensures { IfOk result (for_query self.now StandsSo) }
    {
        let few = self.standing_with(alloc, self.attempt_digits())?;
        if !is_decided(&few) {
            return self.standing_with_most(alloc);
        }
        match few {
            Some(standing) => Ok(standing),
            None => self.standing_with_most(alloc),
        }
    }

    /// Each state that is no goal is kept.
    pub(crate) fn whole(&self, alloc: Global, cert: ReachBoundsCert) -> Result<Found, Memory>
        requires { for_query self.now IsReaching cert }
        ensures { IfOk result (for_query self.now IsFound) }
    {
        fewer_law();
        let kept = others(alloc, self.model.states(), self.goals)?;
        Ok(Found { kept, cert })
    }
}
