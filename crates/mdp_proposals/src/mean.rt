//! The search for mean payoffs: how many digits it is made with, and what it proposes.

ghost use Rattle.std.specs.Prelude.{◌<◌};
ghost use Rattle.mdp_spec.specs.Mdp.{states_of};
ghost use Rattle.mdp_parts.specs.FoundEnds.{AreEndsOf};

use crate::ends::{joined_nodes, single_nodes};
use crate::layout::{Earning, Layout};
use crate::mean_search::{Found, Gains, Places, Search, coarse_scale};
use crate::proposed::{MOST_DIGITS, fraction};
use mdp_num::{Frac, Memory};
use mdp_parts::{Ends, end_components};
use mdp_refinement::{
    Components, Graph, Scale, digits_of, end_gains, power_of_ten, put, strong_components,
};
use mdp_rows::{Dir, Model};
use std::alloc::{AllocError, Global};
use std::mem;

/// How many digits values have at most, before and behind the point.
const MOST_ROOM: u32 = 37;

/// How many digits more than rewards relative values may have before the point. Few are tried first, as more of them leave fewer behind the point.
const MORE_DIGITS: [u32; 5] = [4, 8, 12, 16, 22];

/// Proposed bounds of mean payoffs: for each state a lower and an upper gain, two relative values (the bound and the bias), all in units of 1 over
/// `one`, which is 10 to the power of `digits`, and a choice; and the spread of the relative values. Nothing is promised of them, nor of how many
/// there are.
#[derive(Drop)]
pub struct ProposedMean {
    pub digits: u32,
    pub one: i128,
    pub lower: Vec<i128>,
    pub upper: Vec<i128>,
    pub bound: Vec<i128>,
    pub bias: Vec<i128>,
    pub choices: Vec<u32>,
    pub spread: Frac,
}

/// Appends a state with the edges that its choices inside its end component have.
fn push_state(graph: &mut Graph, model: &Model, ends: &Ends, s: u32) -> Result<(), AllocError>
    requires state { s < states_of model.now }
    requires ends { AreEndsOf model.now ends.now }
{
    graph.push_node()?;
    for c in 0..model.choices(s) {
        if ends.inside(s, c) {
            for target in model.row(s, c).targets {
                graph.push_edge(*target)?;
            }
        }
    }
    Ok(())
}

/// The end components, each in the order in which it is best solved.
fn components_of(alloc: Global, model: &Model, ends: &Ends) -> Result<Components, AllocError>
    requires { AreEndsOf model.now ends.now }
{
    let mut graph = Graph::empty(alloc);
    let mut is_inside = vec![in alloc; false; model.states() as usize]?;
    for s in 0..model.states() {
        put(&mut is_inside, s, ends.of(s).is_some());
        push_state(&mut graph, model, ends, s)?;
    }
    strong_components(alloc, &graph, &is_inside)
}

/// The nodes and the end components.
fn places_of(alloc: Global, model: &Model, ends: &Ends) -> Result<Places, AllocError>
    requires { AreEndsOf model.now ends.now }
{
    Ok(Places {
        nodes: joined_nodes(alloc, model, ends, &[])?,
        states: single_nodes(alloc, model.states())?,
        components: components_of(alloc, model, ends)?,
    })
}

/// What a search comes to with relative values of this scale, and gains that need so many digits before the point.
fn searched(
    alloc: Global,
    earning: Earning<'_>,
    ends: &Ends,
    places: &Places,
    scale: Scale,
    room: u32,
) -> Result<Found, Memory>
    requires { AreEndsOf earning.model.now ends.now }
{
    let layout = Layout {
        keeps_inner: true,
        ..Layout::new(earning, &places.states)
    };
    let rows = layout.rows(alloc, scale)?;
    let scale = rows.scale();
    if rows.has_any_wide() {
        return Ok(Found::none(alloc, scale.digits));
    }
    let gains = end_gains(alloc, &rows, &places.components)?;
    let coarse = coarse_scale(scale);
    let search = Search {
        earning,
        ends,
        places,
        rows: &rows,
        gains: &gains,
        coarse,
        units: power_of_ten(scale.digits.saturating_sub(coarse.digits)),
    };
    let digits = scale.digits;
    search.run(alloc, Scale { digits, room })
}

/// What the search comes to that finds the nearest bounds, the first one that finds them near enough. Gains need so many digits before the point.
fn nearest(alloc: Global, earning: Earning<'_>, room: u32, digits: u32) -> Result<Found, Memory> {
    let ends = end_components(alloc, earning.model)?;
    let places = places_of(alloc, earning.model, &ends)?;
    let mut best = Found::none(alloc, digits);
    for place in 0..MORE_DIGITS.len() {
        let wider = room.saturating_add(MORE_DIGITS[place]);
        let scale = Scale {
            digits: digits.min(MOST_ROOM.saturating_sub(wider)),
            room: wider,
        };
        let next = searched(alloc, earning, &ends, &places, scale, room)?;
        if next.is_better(&best) {
            best = next;
        }
        if best.is_enough() {
            break;
        }
    }
    Ok(best)
}

/// Turns the signs of values for the least mean payoff.
fn turn(values: &mut [i128], dir: Dir) {
    if dir == Dir::Min {
        for value in values {
            *value = value.checked_neg().unwrap_or(0);
        }
    }
}

/// Puts gains in place that hold anyway, with relative values 0, where none were found, and turns all for the least mean payoff.
fn settle(
    alloc: Global,
    found: &mut Gains,
    states: u32,
    dir: Dir,
    anyway: i128,
) -> Result<(), AllocError> {
    if !found.is_found {
        found.gains = vec![in alloc; anyway; states as usize]?;
        found.relative = vec![in alloc; 0i128; states as usize]?;
    }
    turn(&mut found.gains, dir);
    turn(&mut found.relative, dir);
    Ok(())
}

/// The greatest value less the least.
fn width(values: &[i128]) -> i128 {
    let mut least = i128::MAX;
    let mut greatest = i128::MIN;
    for value in values {
        least = least.min(*value);
        greatest = greatest.max(*value);
    }
    greatest.saturating_sub(least).max(0)
}

/// Proposes bounds of the greatest or the least mean payoff of the reward name of place `name`, as multiples of 10 to the power of -`digits` where
/// the rows allow it, with relative values and a policy.
///
/// In each maximal end component a bias is refined until the gains that it comes to are near to each other. Each end component is then one node,
/// where one stops with its gain or leaves it. For the least mean payoff all rewards are negated. Where upper or lower gains aren't found with their
/// relative values, they are whole numbers between which all rewards lie.
pub fn propose_mean(
    alloc: Global,
    model: &Model,
    name: u32,
    dir: Dir,
    digits: u32,
) -> Result<ProposedMean, Memory> {
    let earning = Earning {
        model,
        name: Some(name),
        is_negated: dir == Dir::Min,
    };
    let (least, greatest) = earning.range();
    let room = digits_of(greatest.max(least.saturating_neg()));
    let mut best = nearest(alloc, earning, room, digits.min(MOST_DIGITS))?;
    let (one, states) = (power_of_ten(best.digits), model.states());
    let most = greatest.saturating_mul(one);
    settle(alloc, &mut best.upper, states, dir, most)?;
    let fewest = least.saturating_mul(one);
    settle(alloc, &mut best.lower, states, dir, fewest)?;
    let (upper, lower) = (best.upper, best.lower);
    let spread = fraction(width(&upper.relative).max(width(&lower.relative)), one);
    let mut proposed = ProposedMean {
        digits: best.digits,
        one,
        lower: lower.gains,
        upper: upper.gains,
        bound: upper.relative,
        bias: lower.relative,
        choices: best.choices,
        spread,
    };
    if dir == Dir::Min {
        mem::swap(&mut proposed.lower, &mut proposed.upper);
    }
    Ok(proposed)
}
