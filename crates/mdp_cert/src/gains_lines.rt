ghost use Rattle.std.specs.Prelude.{◌≡◌, ◌++◌, IfOk, OnOk, length};
ghost use Rattle.mdp_text.specs.Answer.{Keeps};
ghost use Rattle.mdp_cert.specs.{declared.version.Version.TheVariants.{Two}, Spelling.{closed_lines}};
ghost use Rattle.mdp_cert.specs.{BoundsCert.{gains}, Entries.{gains_columns, gains_of}, BoundsReading.{mean_body}};

use crate::column::column_of;
use crate::pair::Pair;
use crate::pairs::{Behind, First, Lent, LentPair, Others};
use crate::version::Version;
use crate::write::push_to_end;
use mdp_claims::MeanBoundsCert;
use mdp_num::{Frac, Memory};
use std::alloc::{AllocError, Global};

/// The line of a state for the claim `DIR mean`: two gains, a bound, a bias and a choice.
pub(crate) type Gains = Pair<Frac, Pair<Frac, Pair<Frac, Pair<Frac, u32>>>>;

/// Appends the lines of the states, with the line `end`.
pub(crate) fn push_gains(
    out: &mut Vec<u8>,
    states: u32,
    cert: &MeanBoundsCert,
) -> Result<(), Memory>
    requires { length (gains_of cert.now.lower.items cert.now.upper.items cert.now.bound.items cert.now.bias.items cert.now.choices.items) ≡ states }
    ensures text { OnOk result (out.new.items ≡ out.old.items ++ closed_lines Two gains_columns
        (gains_of cert.now.lower.items cert.now.upper.items cert.now.bound.items cert.now.bias.items cert.now.choices.items)) }
    ensures front { Keeps out.old.items out.new.items }
{
    let bias = LentPair {
        first: &cert.bias,
        others: Lent {
            entries: &cert.choices,
        },
    };
    let bound = LentPair {
        first: &cert.bound,
        others: bias,
    };
    let upper = LentPair {
        first: &cert.upper,
        others: bound,
    };
    let lists = LentPair {
        first: &cert.lower,
        others: upper,
    };
    push_to_end(out, Version::Two, states, &lists)
}

/// The gains, the bounds, the biases and the choices of these entries, and the spread.
pub(crate) fn mean_cert(
    alloc: Global,
    spread: Frac,
    entries: &[Gains],
) -> Result<MeanBoundsCert, AllocError>
    ensures { IfOk result (λ c. gains c.lower.items c.upper.items c.bound.items c.bias.items c.choices.items c.spread
        ≡ mean_body spread entries.now) }
{
    Ok(MeanBoundsCert {
        lower: column_of::<First, _>(alloc, entries)?,
        upper: column_of::<Behind<First>, _>(alloc, entries)?,
        bound: column_of::<Behind<Behind<First>>, _>(alloc, entries)?,
        bias: column_of::<Behind<Behind<Behind<First>>>, _>(alloc, entries)?,
        choices: column_of::<Behind<Behind<Behind<Others>>>, _>(alloc, entries)?,
        spread,
    })
}
