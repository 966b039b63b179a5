ghost use Rattle.std.specs.Prelude.{◌≡◌, ◌++◌, IfOk, OnOk, length};
ghost use Rattle.mdp_text.specs.Answer.{Keeps};
ghost use Rattle.mdp_cert.specs.{Cert.{plain_body}, Entries.{mean_columns, means}, Spelling.{closed_lines}, Reading.{mean_body, spread_at}};

use crate::body::Body;
use crate::column::column_of;
use crate::pair::Pair;
use crate::pairs::{Behind, First, Lent, LentPair, Others};
use crate::version::Version;
use crate::write::push_to_end;
use mdp_claims::MeanCert;
use mdp_num::{Frac, Memory};
use mdp_text::{Refusal, frac_at, only_word, words_behind};
use std::alloc::{AllocError, Global};

/// The line of a state for the claim `DIR mean`: a gain, a bound, a bias and a choice.
pub(crate) type Mean = Pair<Frac, Pair<Frac, Pair<Frac, u32>>>;

/// Appends the lines of the states, with the line `end`.
pub(crate) fn push_means(
    out: &mut Vec<u8>,
    version: Version,
    states: u32,
    cert: &MeanCert,
) -> Result<(), Memory>
    requires { length (means cert.now.gains.items cert.now.bound.items cert.now.bias.items cert.now.choices.items) ≡ states }
    ensures text { OnOk result (out.new.items ≡ out.old.items ++ closed_lines version mean_columns
        (means cert.now.gains.items cert.now.bound.items cert.now.bias.items cert.now.choices.items)) }
    ensures front { Keeps out.old.items out.new.items }
{
    let bias = LentPair {
        first: &cert.bias,
        others: Lent {
            entries: &cert.choices,
        },
    };
    let bound = LentPair {
        first: &cert.bound,
        others: bias,
    };
    let lists = LentPair {
        first: &cert.gains,
        others: bound,
    };
    push_to_end(out, version, states, &lists)
}

/// The gains, the bounds, the biases and the choices of these entries, and the spread.
pub(crate) fn mean_body(alloc: Global, spread: Frac, entries: &[Mean]) -> Result<Body, AllocError>
    ensures { IfOk result (λ b. plain_body b ≡ mean_body spread entries.now) }
{
    Ok(Body::Mean(MeanCert {
        gains: column_of::<First, _>(alloc, entries)?,
        bound: column_of::<Behind<First>, _>(alloc, entries)?,
        bias: column_of::<Behind<Behind<First>>, _>(alloc, entries)?,
        choices: column_of::<Behind<Behind<Others>>, _>(alloc, entries)?,
        spread,
    }))
}

/// The spread of the line `spread K`.
#[tactic(auto, unfolding(crate::specs::Reading::spread_at))]
pub fn spread_at(line: u64, text: &[u8]) -> Result<Frac, Refusal>
    ensures { result ≡ spread_at line text.now }
{
    let word = words_behind(line, text, b"spread", 1)?;
    frac_at(line, only_word(word))
}
