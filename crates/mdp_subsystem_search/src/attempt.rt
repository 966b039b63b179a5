ghost use Rattle.std.specs.Prelude.{◌≡◌, length, true, IfOk, IfSome};
ghost use Rattle.mdp_spec.specs.{Mdp.{states_of}, Sub.{sub_of}};
ghost use Rattle.mdp_subsystem_search.specs.Steps.{IsReaching, IsShort};

use crate::floats::float_of;
use crate::query::Query;
use crate::room::Room;
use mdp_bounds::ReachBoundsCert;
use mdp_num::Memory;
use mdp_rows::Marks;
use std::alloc::Global;

/// How many digits more than the threshold takes to differ from 0 attempts have.
const ATTEMPT_DIGITS: u32 = 12;

/// How many digits a threshold takes at most to differ from 0, as far as that is looked at.
const MOST_ZEROS: u32 = 18;

impl Query<'_, '_> {
    ghost use Rattle.mdp_subsystem_search.specs.Asked.{for_kept};

    /// So many digits more than the zeros that the threshold begins with.
    pub(crate) fn digits_more(&self, digits: u32) -> u32 {
        let mut shifted = float_of(&self.threshold);
        let mut all = digits;
        for _ in 0..MOST_ZEROS {
            if shifted < 0.1 {
                all = all.saturating_add(1);
                shifted *= 10.0;
            }
        }
        all
    }

    /// How many digits attempts have.
    pub(crate) fn attempt_digits(&self) -> u32 {
        self.digits_more(ATTEMPT_DIGITS)
    }

    /// Bounds by which the best probability on the kept states comes to the threshold, where the search proposes such with so many digits.
    pub(crate) fn attempt(
        &self,
        alloc: Global,
        kept: &Marks,
        digits: u32,
        room: &mut Room,
    ) -> Result<Option<ReachBoundsCert>, Memory>
        requires { length kept.now ≡ states_of self.now.model.now }
        ensures { IfOk result (λ found. IfSome found (for_kept self.now kept.now IsReaching)) }
    {
        let sub = self.model.cut(alloc, kept, self.goals)?;
        room.take(&sub);
        let cert = self.proposed(alloc, &sub, digits)?;
        self.reaching(alloc, &sub, cert)
    }

    /// Whether bounds that the search proposes with so many digits show that on the kept states the best probability is below the threshold.
    pub(crate) fn falls_short(
        &self,
        alloc: Global,
        kept: &Marks,
        digits: u32,
        room: &mut Room,
    ) -> Result<bool, Memory>
        requires { length kept.now ≡ states_of self.now.model.now }
        ensures { IfOk result (λ is_short. is_short ≡ true → for_kept self.now kept.now IsShort) }
    {
        let sub = self.model.cut(alloc, kept, self.goals)?;
        room.take(&sub);
        let cert = self.proposed(alloc, &sub, digits)?;
        let is_short = self.missing(alloc, &sub, cert)?;
        Ok(is_short)
    }
}
