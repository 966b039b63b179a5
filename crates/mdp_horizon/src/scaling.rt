ghost use Rattle.std.specs.Prelude.{◌≡◌, ◌<◌, ◌≤◌, ◌^◌, length, pos, ◌<ℤ◌, ◌≤ℤ◌, unsigned_abs, IfOk, IfSome, All};
ghost use Rattle.mdp_spec.specs.Row.{entries};
ghost use Rattle.mdp_horizon.specs.{Probability.{IsProbability}, Scaled.{beyond, common_with, common_in, scaled_start, scale_in, scale_of}};
ghost use Rattle.mdp_horizon.specs.{Scaled.{terms_of, term_of, rounded_start, scaled}, Short.{wide_term, wide_terms, weights_of}};
ghost use Rattle.mdp_horizon.specs.BoundsCode.{plain_choice, plain_terms};

use crate::choice::{Arenas, RoundedStart, Scale, ScaledChoice, ShortTerm, Term, Terms};
use crate::short_terms::ShortTerms;
use crate::whole::{rounded, times};
use bumpalo::Bump;
use bumpalo::collections::into_bump_slice;
use mdp_num::Frac;
use mdp_rows::{Dir, Row};
use std::alloc::AllocError;

/// What a fraction's denominator has beyond the divisors that it shares with `common`: the denominator of their quotient.
fn beyond(common: i128, fraction: &Frac) -> i128
    requires { unsigned_abs common < 2 ^ 127 }
    ensures { result ≡ pos (beyond common fraction.now.den) }
{
    let den = fraction.den();
    match Frac::try_new(common, den) {
        Ok(quotient) => quotient.den(),
        Err(_) => den,
    }
}

/// The least common multiple of `common` and the fraction's denominator.
fn common_with(common: i128, fraction: &Frac) -> Option<i128>
    requires { unsigned_abs common < 2 ^ 127 }
    ensures value { result ≡ common_with common fraction.now }
    ensures narrow { IfSome result (λ common. unsigned_abs common < 2 ^ 127) }
{
    let factor = beyond(common, fraction);
    times(common, factor)
}

/// The least common multiple of `first` and the row's denominators.
pub(crate) fn common_in(first: i128, row: Row<'_>) -> Option<i128>
    requires { unsigned_abs first < 2 ^ 127 }
    ensures value { result ≡ common_in first (entries row.entry.targets.now row.entry.probs.now) }
    ensures narrow { IfSome result (λ common. unsigned_abs common < 2 ^ 127) }
{
    let mut common = first;
    for i in 0..row.targets.len() {
        common = common_with(common, &row.probs[i])?;
    }
    Some(common)
}

/// What is earned at once in units, times a multiple of its denominator.
fn scaled_start(start: &Frac, common: i128, one: i128) -> Option<i128>
    ensures value { result ≡ scaled_start one start.now common }
    ensures narrow { IfSome result (λ whole. unsigned_abs whole < 2 ^ 127) }
{
    let part = times(start.num(), common / start.den())?;
    times(part, one)
}

/// The scale of a row and of what is earned at once, `one` being so many units.
fn scale_in(start: &Frac, row: Row<'_>, one: i128) -> Option<Scale>
    ensures value { result ≡ scale_in one start.now (entries row.entry.targets.now row.entry.probs.now) }
    ensures narrow { IfSome result (λ scale. (unsigned_abs scale.common < 2 ^ 127) × (unsigned_abs scale.start < 2 ^ 127)) }
{
    let common = common_in(start.den(), row)?;
    let start = scaled_start(start, common, one)?;
    Some(Scale { common, start })
}

/// The same, or 0 for what is too wide.
fn scale_of(start: &Frac, row: Row<'_>, one: i128) -> Scale
    ensures value { result ≡ scale_of one start.now (entries row.entry.targets.now row.entry.probs.now) }
    ensures narrow { unsigned_abs result.common < 2 ^ 127 }
{
    match scale_in(start, row, one) {
        Some(scale) => scale,
        None => Scale {
            common: 0,
            start: 0,
        },
    }
}

/// An entry, with its probability times `common`.
fn term_of(target: u32, prob: &Frac, common: i128) -> Term
    requires probability { IsProbability prob.now }
    requires narrow { unsigned_abs common < 2 ^ 127 }
    ensures { result ≡ term_of common (record { target = target; prob = prob.now }) }
{
    let part = common / prob.den();
    let weight = prob.num() * part;
    Term { target, weight }
}

/// An entry with a weight of 64 bits; none where it is wider.
fn short_term(term: Term) -> Option<ShortTerm>
    ensures { IfSome result (λ short. wide_term short ≡ term) }
{
    let weight = i64::try_from(term.weight).ok()?;
    Some(ShortTerm {
        target: term.target,
        weight,
    })
}

/// The magnitudes of all weights together; none where they pass 64 bits.
fn weights_of(terms: &[ShortTerm]) -> Option<u64>
    ensures { IfSome result (λ sum. sum ≡ weights_of terms.now) }
{
    let mut sum = 0u64;
    for term in terms {
        sum = sum.checked_add(term.weight.unsigned_abs())?;
    }
    Some(sum)
}

/// The entries of a row, with their probabilities times `common`; none where one of them isn't short.
fn short_list<'b>(
    arena: &'b Bump,
    row: Row<'_>,
    common: i128,
) -> Result<Option<&'b [ShortTerm]>, AllocError>
    requires { unsigned_abs common < 2 ^ 127 }
    ensures { let list = entries row.entry.targets.now row.entry.probs.now in
        IfOk result (λ found. IfSome found (λ terms. wide_terms terms.now ≡ terms_of common list)) }
{
    let mut terms = Vec::with_capacity(arena, row.targets.len())?;
    for i in 0..row.targets.len() {
        let Some(term) = short_term(term_of(row.targets[i], &row.probs[i], common)) else {
            return Ok(None);
        };
        terms.push(term)?;
    }
    Ok(Some(into_bump_slice(terms)))
}

/// The same, where they are short together.
fn short_terms<'b>(
    arena: &'b Bump,
    row: Row<'_>,
    common: i128,
) -> Result<Option<ShortTerms<'b>>, AllocError>
    requires { unsigned_abs common < 2 ^ 127 }
    ensures { let list = entries row.entry.targets.now row.entry.probs.now in
        IfOk result (λ found. IfSome found (λ short. wide_terms short.terms.now ≡ terms_of common list)) }
{
    let Some(terms) = short_list(arena, row, common)? else {
        return Ok(None);
    };
    match weights_of(terms) {
        Some(sum) if sum < 1 << 63 => Ok(Some(ShortTerms { terms })),
        _ => Ok(None),
    }
}

/// The entries of a row, with their probabilities times `common`, as wide ones.
fn wide_list<'b>(arena: &'b Bump, row: Row<'_>, common: i128) -> Result<&'b [Term], AllocError>
    requires { unsigned_abs common < 2 ^ 127 }
    ensures { IfOk result (λ terms. terms.now ≡ terms_of common (entries row.entry.targets.now row.entry.probs.now)) }
{
    let mut terms = Vec::with_capacity(arena, row.targets.len())?;
    for i in 0..row.targets.len() {
        terms.push(term_of(row.targets[i], &row.probs[i], common))?;
    }
    Ok(into_bump_slice(terms))
}

/// The entries of a row, with their probabilities times `common`.
fn terms_of<'b>(arena: &'b Bump, row: Row<'_>, common: i128) -> Result<Terms<'b>, AllocError>
    requires { unsigned_abs common < 2 ^ 127 }
    ensures { IfOk result (λ terms. plain_terms terms ≡ terms_of common (entries row.entry.targets.now row.entry.probs.now)) }
{
    match short_terms(arena, row, common)? {
        Some(short) => Ok(Terms::Short(short)),
        None => Ok(Terms::Wide(wide_list(arena, row, common)?)),
    }
}

/// What is earned at once in units, rounded up for `Max` and down for `Min`.
fn rounded_start(side: Dir, start: &Frac, one: i128) -> Option<i128>
    ensures { result ≡ rounded_start side one start.now }
{
    let whole = times(start.num(), one)?;
    Some(rounded(side, whole, start.den()))
}

/// A choice in whole numbers, from its row and what it earns at once, `one` being so many units.
pub fn scaled<'b>(
    arenas: Arenas<'b>,
    start: &Frac,
    row: Row<'_>,
    one: i128,
) -> Result<ScaledChoice<'b>, AllocError>
    ensures { IfOk result (λ x. plain_choice x ≡ scaled one start.now (entries row.entry.targets.now row.entry.probs.now)) }
{
    let scale = scale_of(start, row, one);
    let terms = terms_of(arenas.terms, row, scale.common)?;
    let rounded = arenas.starts.try_alloc(RoundedStart {
        low: rounded_start(Dir::Min, start, one),
        high: rounded_start(Dir::Max, start, one),
    })?;
    Ok(ScaledChoice {
        scale,
        terms,
        rounded,
    })
}
