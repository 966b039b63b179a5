ghost use Rattle.std.specs.Prelude.{◌≡◌, ◌<◌, ℕ, [], length, slice_index_or, take, IfOk};
ghost use Rattle.mdp_policy_iteration.specs.{Ends.{capped}, Queries.{Solves, term_of}};
ghost use Rattle.mdp_wide.specs.{declared.too_wide.Part.TheVariants.{Whole}, Term.{shown}};
ghost use Rattle.mdp_discount_rules.specs.{Rules.{IsFactor}, Bounds.{DiscountBound}, Checks.{IsDiscount}, Plain.{plain}};
ghost use Rattle.mdp_discount.specs.{Query.{EndsSo, AfterFound}, Code.{PathEnds, IsFound, found_of, cut_term, wide_after}};

use crate::problem::Discounted;
use crate::scaled::scaled_states;
use bumpalo::Bump;
use mdp_discount_rules::{DiscountCert, greatest_magnitude, holds_discount};
use mdp_farkas::Verdict;
use mdp_num::Frac;
use mdp_policy_iteration::{PathError, Solution, WideAt, improve};
use mdp_rows::{Dir, Model};
use mdp_text::init_with;
use mdp_wide::{Kind, Part, SolveError, TooWide};
use std::alloc::Global;

/// A policy and its values, of so many states.
fn cut(mut found: Solution, states: u32) -> Solution
    ensures round { result.round ≡ found.round }
    ensures policy { result.policy.items ≡ take states found.policy.items }
    ensures values { result.values.items ≡ take states found.values.items }
{
    found.policy.truncate(states as usize);
    found.values.truncate(states as usize);
    found
}

/// A term past width of a path, with its policy of so many states.
fn cut_wide(mut wide: WideAt, states: u32) -> TooWide
    ensures term { (n : ℕ) → shown result n ≡ term_of Whole (cut_term states wide n) }
    ensures round { result.round ≡ wide.round }
{
    wide.policy.truncate(states as usize);
    wide.in_part(Part::Whole)
}

/// A best policy and its values, of the states alone: the node behind them is left out.
fn path_end(
    alloc: Global,
    model: &Model,
    m: u32,
    dir: Dir,
    factor: &Frac,
) -> Result<Solution, SolveError>
    requires name { m < length model.now.names }
    requires factor { IsFactor factor.now }
    ensures path { PathEnds dir model.now m factor.now result }
    ensures best { IfOk result (λ found. IsFound dir model.now m factor.now found.policy.items found.values.items) }
{
    model.known();
    let states = model.states();
    let arena = Bump::new(alloc);
    let rows = scaled_states(alloc, &arena, model, factor)?;
    let problem = Discounted {
        dir,
        model,
        name: m,
        factor: *factor,
        states: &rows,
    };
    let start = vec![in alloc; 0; states as usize + 1]?;
    match improve(alloc, &problem, start) {
        Ok(found) => Ok(cut(found, states)),
        Err(PathError::TooWide(wide)) => Err(SolveError::TooWide(cut_wide(wide, states))),
        Err(PathError::Memory) => Err(SolveError::Memory),
    }
}

/// A term past width after the last round, in what was found.
fn wide_after(
    round: u64,
    policy: Vec<u32>,
    kind: Kind,
    state: Option<u32>,
    choice: Option<u32>,
) -> SolveError
    ensures { result ≡ wide_after round policy kind state choice }
{
    SolveError::TooWide(TooWide {
        part: Part::Whole,
        round,
        policy,
        kind,
        state,
        choice,
    })
}

/// The certificate of what was found, held against the rules.
fn certified(
    alloc: Global,
    model: &Model,
    m: u32,
    name: &[u8],
    dir: Dir,
    factor: Frac,
    found: Solution,
) -> Result<DiscountCert, SolveError>
    requires place { m < length model.now.names }
    requires name { slice_index_or model.now.names m [] ≡ name.now }
    requires factor { IsFactor factor }
    requires best { IsFound dir model.now m factor found.policy.items found.values.items }
    ensures path { (n : ℕ) → found.round ≡ capped n → Solves plain (AfterFound dir model.now m name.now factor (found_of n found)) result }
    ensures rules { IfOk result (λ cert. IsDiscount dir model.now m factor cert.values.items cert.remainder cert.choices.items) }
    ensures bound { IfOk result (λ cert. DiscountBound dir model.now m factor cert.values.items cert.remainder cert.choices.items) }
{
    model.known();
    let Ok(remainder) = greatest_magnitude(&found.values) else {
        return Err(wide_after(found.round, found.policy, Kind::Compare, None, None));
    };
    let cert = DiscountCert {
        dir,
        name: Vec::from_slice(alloc, name)?,
        factor,
        init: init_with(model, &found.values),
        remainder,
        values: found.values,
        choices: found.policy,
    };
    match holds_discount(model, m, &cert) {
        Verdict::Yes => Ok(cert),
        Verdict::No(_) => unreachable!(),
        Verdict::Wide { state, choice } => Err(wide_after(
            found.round,
            cert.choices,
            Kind::Check,
            state,
            choice,
        )),
    }
}

/// The greatest or the least discounted rewards of the reward name of place `m`, whose name is `name`, by policy iteration (Howard 1960): values, a
/// policy and the remainder, held against the rules of certificates. `factor` is at least 0 and below 1. `TooWide` is the first written term past
/// width, of the path, of the remainder or of that check.
pub fn solve_discount(
    alloc: Global,
    model: &Model,
    m: u32,
    name: &[u8],
    dir: Dir,
    factor: Frac,
) -> Result<DiscountCert, SolveError>
    requires place { m < length model.now.names }
    requires name { slice_index_or model.now.names m [] ≡ name.now }
    requires factor { IsFactor factor }
    ensures path { Solves plain (EndsSo dir model.now m name.now factor) result }
    ensures rules { IfOk result (λ cert. IsDiscount dir model.now m factor cert.values.items cert.remainder cert.choices.items) }
    ensures bound { IfOk result (λ cert. DiscountBound dir model.now m factor cert.values.items cert.remainder cert.choices.items) }
{
    let found = path_end(alloc, model, m, dir, &factor)?;
    certified(alloc, model, m, name, dir, factor, found)
}
