//! Certificates with the simplest fractions between their bounds as exact values. Nothing rests on them: the rules judge them.

ghost use Rattle.std.specs.Prelude.{IfOk};
ghost use Rattle.mdp_search_bounds.specs.Held.{HasReachSizes, HasRewardSizes, HasMeanSizes};

use mdp_bounds::{MeanBoundsCert, ReachBoundsCert, RewardBoundsCert};
use mdp_num::{Frac, Memory};
use mdp_proposals::{
    ProposedMean, ProposedReach, ProposedReward, all_capped, numbers, simplest_near_values,
    simplest_rewards, simplest_values,
};
use mdp_rows::Model;
use std::alloc::Global;
use std::cmp::Ordering;

/// The certificate with the simplest fractions between proposed bounds as lower and as upper values, at the states where they are sought: where they
/// are the exact values, the rules say yes to it.
pub(crate) fn simplest_reach(
    alloc: Global,
    model: &Model,
    near: &ProposedReach,
    is_sought: &[bool],
) -> Result<ReachBoundsCert, Memory>
    ensures { IfOk result (HasReachSizes model.now) }
{
    let states = model.states();
    let lower = simplest_values(alloc, states, &near.lower, &near.upper, near.one, is_sought)?;
    let upper = lower.clone()?;
    let choices = numbers(alloc, states, &near.choices)?;
    let ranks = numbers(alloc, states, &near.ranks)?;
    Ok(ReachBoundsCert {
        lower,
        upper,
        choices,
        ranks,
    })
}

/// The certificate with the simplest fractions between proposed finite bounds as lower and as upper values, at the states where they are sought;
/// infinite ones stay.
pub(crate) fn simplest_rewards_of(
    alloc: Global,
    model: &Model,
    near: &ProposedReward,
    is_sought: &[bool],
) -> Result<RewardBoundsCert, Memory>
    ensures { IfOk result (HasRewardSizes model.now) }
{
    let states = model.states();
    let lower = simplest_rewards(alloc, states, &near.lower, &near.upper, is_sought)?;
    let upper = all_capped(alloc, states, &lower, &near.upper)?;
    let choices = numbers(alloc, states, &near.choices)?;
    let ranks = numbers(alloc, states, &near.ranks)?;
    Ok(RewardBoundsCert {
        lower,
        upper,
        choices,
        ranks,
    })
}

/// The greatest of the numbers, or for `Less` the least, and 0 of none.
fn extreme(numbers: &[Frac], order: Ordering) -> Frac {
    let mut best = match numbers.first() {
        Some(first) => *first,
        None => Frac::whole(0),
    };
    for number in numbers {
        if number.order(&best) == order {
            best = *number;
        }
    }
    best
}

/// The greatest of the numbers less the least. None where that is past width.
fn width_of(numbers: &[Frac]) -> Option<Frac> {
    let greatest = extreme(numbers, Ordering::Greater);
    greatest.sub(&extreme(numbers, Ordering::Less)).ok()
}

/// The greater of the widths of two columns. None where one of them is past width.
fn spread_of(bound: &[Frac], bias: &[Frac]) -> Option<Frac> {
    Some(extreme(&[width_of(bound)?, width_of(bias)?], Ordering::Greater))
}

/// The certificate with the simplest fractions between proposed gains as lower and as upper gains, and with the simplest relative values near the
/// proposed ones, at the states where they are sought.
pub(crate) fn simplest_mean(
    alloc: Global,
    model: &Model,
    near: &ProposedMean,
    is_sought: &[bool],
) -> Result<MeanBoundsCert, Memory>
    ensures { IfOk result (HasMeanSizes model.now) }
{
    let states = model.states();
    let (one, digits) = (near.one, near.digits);
    let lower = simplest_values(alloc, states, &near.lower, &near.upper, one, is_sought)?;
    let upper = lower.clone()?;
    let bound = simplest_near_values(alloc, states, &near.bound, one, digits, is_sought)?;
    let bias = simplest_near_values(alloc, states, &near.bias, one, digits, is_sought)?;
    let choices = numbers(alloc, states, &near.choices)?;
    let spread = spread_of(&bound, &bias).unwrap_or(near.spread);
    Ok(MeanBoundsCert {
        lower,
        upper,
        bound,
        bias,
        choices,
        spread,
    })
}
