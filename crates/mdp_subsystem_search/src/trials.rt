ghost use Rattle.std.specs.Prelude.{◌≡◌, ◌<◌, length, true, IfOk};
ghost use Rattle.mdp_spec.specs.Mdp.{states_of};
ghost use Rattle.mdp_subsystem_search.specs.Shown.{IsNeeded, AreNeeded};

use crate::query::Query;
use crate::removal::copied;
use crate::room::Room;
use mdp_num::Memory;
use mdp_rows::Marks;
use std::alloc::Global;

/// How many entries trials look at in all: so many, and each of the model's so often.
const TRIAL_ENTRIES: u64 = 1_048_576;

const TRIAL_PASSES: u64 = 5;

impl Query<'_, '_> {
    ghost use Rattle.mdp_subsystem_search.specs.Asked.{for_query};

    /// Whether it is shown that without a kept state the best probability is below the threshold.
    fn is_needed(
        &self,
        alloc: Global,
        kept: &Marks,
        s: u32,
        room: &mut Room,
    ) -> Result<bool, Memory>
        requires each { length kept.now ≡ states_of self.now.model.now }
        requires state { s < states_of self.now.model.now }
        ensures { IfOk result (λ needed. needed ≡ true → for_query self.now IsNeeded kept.now s) }
    {
        let mut others = copied(alloc, self.model.states(), kept)?;
        others.set(s, false);
        self.falls_short(alloc, &others, self.attempt_digits(), room)
    }

    /// Which of the kept states were shown to be needed, as far as there is room for trials.
    pub(crate) fn needed(&self, alloc: Global, kept: &Marks) -> Result<Marks, Memory>
        requires { length kept.now ≡ states_of self.now.model.now }
        ensures each { IfOk result (λ needed. length needed ≡ states_of self.now.model.now) }
        ensures needed { IfOk result (for_query self.now AreNeeded kept.now) }
    {
        let mut room = Room::of(self.model, TRIAL_ENTRIES, TRIAL_PASSES);
        let mut needed = Marks::empty(alloc, self.model.states())?;
        for s in 0..self.model.states() {
            if kept.at(s) && !room.is_spent() {
                needed.set(s, self.is_needed(alloc, kept, s, &mut room)?);
            }
        }
        Ok(needed)
    }
}
