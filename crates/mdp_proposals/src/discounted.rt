//! The search for discounted rewards.

use crate::columns::Sought;
use crate::ends::single_nodes;
use crate::layout::{Earning, Layout};
use crate::proposed::MOST_DIGITS;
use mdp_num::{Frac, Memory};
use mdp_refinement::{Bound, Scale, digits_of, quotient};
use mdp_rows::{Dir, Model};
use std::alloc::Global;

/// How many digits a value has room for, before and behind the point.
const MOST_ROOM: u32 = 36;

/// Proposed bounds of discounted rewards: a lower value, an upper one and a choice for each state. Where there is no value nothing is claimed.
/// Nothing is promised of them, nor of how many there are.
#[derive(Drop)]
pub struct ProposedDiscount {
    pub lower: Vec<Option<Frac>>,
    pub upper: Vec<Option<Frac>>,
    pub choices: Vec<u32>,
}

/// A whole number that no sum of rewards passes in magnitude where a step later counts `factor` times as much: the greatest magnitude of what a
/// choice earns over 1 less the factor. None past 128 bits.
fn limit_of(earning: Earning<'_>, factor: &Frac) -> Option<i128> {
    let (least, greatest) = earning.range();
    let most = greatest.max(least.checked_neg()?);
    let rest = factor.den().saturating_sub(factor.num());
    quotient(most.checked_mul(factor.den())?, rest, Bound::Upper)
}

/// Proposes bounds of the greatest or the least sums of rewards of the name of place `name` where a step later counts `factor` times as much, as
/// multiples of 10 to the power of -`digits` where the rows allow it, with a policy.
///
/// Each state is a node, and behind them comes one where nothing more is earned: in each row what a step later counts less leads there. So each
/// policy leaves its component, and components are solved, successors first, as for the reward until a goal.
///
/// No value lies further from 0 than a limit. That number is an upper value of each state by the rules, and so are the lesser ones of it and of upper
/// values; its opposite and lower values alike.
pub fn propose_discount(
    alloc: Global,
    model: &Model,
    name: u32,
    dir: Dir,
    factor: &Frac,
    digits: u32,
) -> Result<ProposedDiscount, Memory> {
    let states = model.states();
    let nodes = single_nodes(alloc, states.saturating_add(1))?;
    let earning = Earning {
        model,
        name: Some(name),
        is_negated: false,
    };
    let limit = limit_of(earning, factor).unwrap_or(i128::MAX);
    let room = digits_of(limit);
    let sought = Sought {
        layout: Layout {
            factor: Some(factor),
            ..Layout::new(earning, &nodes)
        },
        dir,
        least: Some(limit.saturating_neg()),
        greatest: Some(limit),
        scale: Scale {
            digits: digits.min(MOST_DIGITS).min(MOST_ROOM.saturating_sub(room)),
            room,
        },
    };
    let first = vec![in alloc; 0; states as usize]?;
    let bounds = sought.bounds(alloc, &first)?;
    Ok(ProposedDiscount {
        lower: bounds.lower,
        upper: bounds.upper,
        choices: bounds.choices,
    })
}
