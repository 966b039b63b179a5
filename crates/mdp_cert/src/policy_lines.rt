ghost use Rattle.std.specs.Prelude.{◌≡◌, ◌++◌, IfOk, OnOk, length};
ghost use Rattle.mdp_text.specs.Answer.{Keeps};
ghost use Rattle.mdp_cert.specs.{Cert.{plain_body}, Entries.{policy_columns, policies}, Spelling.{closed_lines}, Reading.{policy_body, reward_body}};

use crate::body::Body;
use crate::column::column_of;
use crate::pair::Pair;
use crate::pairs::{Behind, First, Lent, LentPair, Others};
use crate::values::Value;
use crate::version::Version;
use crate::write::push_to_end;
use mdp_claims::{ReachCert, RewardCert};
use mdp_num::{Frac, Memory};
use std::alloc::{AllocError, Global};

/// The line of a state for the claims `DIR reach` and `DIR reward`: a value, a choice and a rank.
pub(crate) type Policy<V> = Pair<V, Pair<u32, u32>>;

/// Appends the lines of the states, with the line `end`.
pub(crate) fn push_policy<V: Value>(
    out: &mut Vec<u8>,
    version: Version,
    states: u32,
    values: &[V],
    choices: &[u32],
    ranks: &[u32],
) -> Result<(), Memory>
    requires { length (policies values.now choices.now ranks.now) ≡ states }
    ensures text { OnOk result (out.new.items ≡ out.old.items ++ closed_lines version (policy_columns V.value)
        (policies values.now choices.now ranks.now)) }
    ensures front { Keeps out.old.items out.new.items }
{
    let choices = LentPair {
        first: choices,
        others: Lent { entries: ranks },
    };
    let lists = LentPair {
        first: values,
        others: choices,
    };
    push_to_end(out, version, states, &lists)
}

/// The values, the choices and the ranks of these entries.
pub(crate) fn reach_body(alloc: Global, entries: &[Policy<Frac>]) -> Result<Body, AllocError>
    ensures { IfOk result (λ b. plain_body b ≡ policy_body entries.now) }
{
    Ok(Body::Reach(ReachCert {
        values: column_of::<First, _>(alloc, entries)?,
        choices: column_of::<Behind<First>, _>(alloc, entries)?,
        ranks: column_of::<Behind<Others>, _>(alloc, entries)?,
    }))
}

/// The values, the choices and the ranks of these entries.
pub(crate) fn reward_body(
    alloc: Global,
    entries: &[Policy<Option<Frac>>],
) -> Result<Body, AllocError>
    ensures { IfOk result (λ b. plain_body b ≡ reward_body entries.now) }
{
    Ok(Body::Reward(RewardCert {
        values: column_of::<First, _>(alloc, entries)?,
        choices: column_of::<Behind<First>, _>(alloc, entries)?,
        ranks: column_of::<Behind<Others>, _>(alloc, entries)?,
    }))
}
