ghost use Rattle.std.specs.{Prelude.{◌≡◌, ◌<◌, length, pos, IfOk, IfErr}, List.{All}};
ghost use Rattle.mdp_math.specs.Rational.{◌≤ℚ◌, of_int};
ghost use Rattle.mdp_spec.specs.{Mdp.{states_of, value_at}, Sub.{sub_of}};
ghost use Rattle.mdp_rows.specs.declared.dir.Dir.TheVariants.{Min};
ghost use Rattle.mdp_bounds.specs.Reach.{IsReachBounds};
ghost use Rattle.mdp_subsystem_search.specs.{Shown.{ones, AreNeeded, IsBelow, IsUndecided}, Kept.{IsFound}, Code.{IfBelow, IfUndecided}};

use crate::found::Found;
use crate::query::Query;
use crate::standing::Standing;
use crate::subsystem::{Subsystem, Unshown};
use mdp_num::Frac;
use mdp_rows::{Dir, Marks, Model};
use std::alloc::Global;

impl Query<'_, '_> {
    ghost use Rattle.mdp_subsystem_search.specs.Asked.{for_query};

    /// Kept states on which the best probability comes to the threshold: those that are left when states are taken out, or those of the exact query.
    fn found(&self, alloc: Global) -> Result<Found, Unshown>
        requires { of_int (pos 0) ≤ℚ self.now.threshold }
        ensures found { IfOk result (for_query self.now IsFound) }
        ensures below { IfErr result (λ error. IfBelow error (for_query self.now IsBelow)) }
        ensures undecided { IfErr result (λ error. IfUndecided error (for_query self.now IsUndecided)) }
    {
        match self.standing(alloc)? {
            Standing::Reaches(cert) => {
                let whole = self.whole(alloc, cert)?;
                Ok(self.removed(alloc, whole)?)
            }
            Standing::Below(value) => Err(Unshown::Below(value)),
            Standing::Between { lower, upper } => self.exact(alloc, lower, upper),
        }
    }
}

/// Kept states on which the greatest, or the least, probability of reaching a goal from `start` is still at least `threshold`, with bounds that show
/// it, and which of them were shown to be needed.
pub fn search_subsystem(
    alloc: Global,
    model: &Model,
    goals: &Marks,
    start: u32,
    dir: Dir,
    threshold: Frac,
) -> Result<Subsystem, Unshown>
    requires goals { length goals.now ≡ states_of model.now }
    requires start { start < states_of model.now }
    requires threshold { of_int (pos 0) ≤ℚ threshold }

    // What is found: bounds that the rules say yes to on the kept states, and which reach the threshold.
    ensures rules { IfOk result (λ x. IsReachBounds dir (sub_of model.now goals.now x.kept) goals.now x.bounds.lower.items
        (ones model.now) x.bounds.choices.items x.bounds.ranks.items) }
    ensures ones { IfOk result (λ x. x.bounds.upper.items ≡ ones model.now) }
    ensures reached { IfOk result (λ x. threshold ≤ℚ value_at x.bounds.lower.items start) }
    ensures choices_of_least { dir ≡ Min → IfOk result (λ x. All (λ c. c ≡ 0) x.bounds.choices.items) }
    ensures needed { IfOk result (λ x. AreNeeded dir model.now goals.now start threshold x.kept x.needed) }

    // One of each for each state.
    ensures lower { IfOk result (λ x. length x.bounds.lower.items ≡ states_of model.now) }
    ensures choices { IfOk result (λ x. length x.bounds.choices.items ≡ states_of model.now) }
    ensures ranks { IfOk result (λ x. length x.bounds.ranks.items ≡ states_of model.now) }
    ensures kept { IfOk result (λ x. length x.kept ≡ states_of model.now) }
    ensures need_each { IfOk result (λ x. length x.needed ≡ states_of model.now) }

    // What is said where there is none.
    ensures below { IfErr result (λ error. IfBelow error (IsBelow dir model.now goals.now start threshold)) }
    ensures undecided { IfErr result (λ error. IfUndecided error (IsUndecided dir model.now goals.now start threshold)) }
{
    let query = Query {
        model,
        goals,
        start,
        dir,
        threshold,
    };
    let found = query.found(alloc)?;
    let needed = query.needed(alloc, &found.kept)?;
    Ok(Subsystem {
        bounds: found.cert,
        kept: found.kept,
        needed,
    })
}
