ghost use Rattle.std.specs.Prelude.{◌≡◌, ◌++◌, IfOk, OnOk, length};
ghost use Rattle.mdp_text.specs.Answer.{Keeps};
ghost use Rattle.mdp_cert.specs.{declared.version.Version.TheVariants.{Two}, Spelling.{closed_lines}, BoundsCert.{probabilities, rewards}};
ghost use Rattle.mdp_cert.specs.{Entries.{ranked_columns, ranked_of}, BoundsReading.{reach_body, reward_body}};

use crate::column::column_of;
use crate::pair::Pair;
use crate::pairs::{Behind, First, Lent, LentPair, Others};
use crate::values::Value;
use crate::version::Version;
use crate::write::push_to_end;
use mdp_claims::{ReachBoundsCert, RewardBoundsCert};
use mdp_num::{Frac, Memory};
use std::alloc::{AllocError, Global};

/// The line of a state for the claims `DIR reach` and `DIR reward`: two values, a choice and a rank.
pub(crate) type Ranked<V> = Pair<V, Pair<V, Pair<u32, u32>>>;

/// Appends the lines of the states, with the line `end`.
pub(crate) fn push_ranked<V: Value>(
    out: &mut Vec<u8>,
    states: u32,
    lower: &[V],
    upper: &[V],
    choices: &[u32],
    ranks: &[u32],
) -> Result<(), Memory>
    requires { length (ranked_of lower.now upper.now choices.now ranks.now) ≡ states }
    ensures text { OnOk result (out.new.items ≡ out.old.items ++ closed_lines Two (ranked_columns V.value)
        (ranked_of lower.now upper.now choices.now ranks.now)) }
    ensures front { Keeps out.old.items out.new.items }
{
    let choices = LentPair {
        first: choices,
        others: Lent { entries: ranks },
    };
    let others = LentPair {
        first: upper,
        others: choices,
    };
    let lists = LentPair {
        first: lower,
        others,
    };
    push_to_end(out, Version::Two, states, &lists)
}

/// The lower and the upper values, the choices and the ranks of these entries.
pub(crate) fn reach_cert(
    alloc: Global,
    entries: &[Ranked<Frac>],
) -> Result<ReachBoundsCert, AllocError>
    ensures { IfOk result (λ c. probabilities c.lower.items c.upper.items c.choices.items c.ranks.items ≡ reach_body entries.now) }
{
    Ok(ReachBoundsCert {
        lower: column_of::<First, _>(alloc, entries)?,
        upper: column_of::<Behind<First>, _>(alloc, entries)?,
        choices: column_of::<Behind<Behind<First>>, _>(alloc, entries)?,
        ranks: column_of::<Behind<Behind<Others>>, _>(alloc, entries)?,
    })
}

/// The lower and the upper values, the choices and the ranks of these entries.
pub(crate) fn reward_cert(
    alloc: Global,
    entries: &[Ranked<Option<Frac>>],
) -> Result<RewardBoundsCert, AllocError>
    ensures { IfOk result (λ c. rewards c.lower.items c.upper.items c.choices.items c.ranks.items ≡ reward_body entries.now) }
{
    Ok(RewardBoundsCert {
        lower: column_of::<First, _>(alloc, entries)?,
        upper: column_of::<Behind<First>, _>(alloc, entries)?,
        choices: column_of::<Behind<Behind<First>>, _>(alloc, entries)?,
        ranks: column_of::<Behind<Behind<Others>>, _>(alloc, entries)?,
    })
}
