//! One search, with values of one scale: gains of end components, gains of all states, and relative values of those where end components are left.

ghost use Rattle.mdp_parts.specs.FoundEnds.{AreEndsOf};

use crate::columns::{Column, column_of};
use crate::ends::{lead, put_picked};
use crate::layout::{Earning, Layout};
use mdp_num::{Frac, Memory};
use mdp_parts::Ends;
use mdp_refinement::{
    Bound, Components, EndGains, Nodes, Rows, Scale, Solution, Task, Value, WholeRow, item_at, put,
    quotient, solve, value_at,
};
use mdp_rows::Pred;
use std::alloc::{AllocError, Global};
use std::cmp::Ordering;

/// How many digits behind the point relative values have at least where end components are left, if gains have as many.
const FEW_DIGITS: u32 = 8;

/// Gains of one bound, and the relative values that go with them, of each state in units, and whether these are found.
#[derive(Drop)]
pub(crate) struct Gains {
    pub(crate) gains: Vec<i128>,
    pub(crate) relative: Vec<i128>,
    pub(crate) is_found: bool,
}

/// What a search comes to with so many digits behind the point: upper and lower gains with their relative values, each where they are found, and a
/// policy; how far the bounds of the gain of an end component lie apart at most, and whether all are near enough.
#[derive(Drop)]
pub(crate) struct Found {
    pub(crate) upper: Gains,
    pub(crate) lower: Gains,
    pub(crate) choices: Vec<u32>,
    pub(crate) digits: u32,
    width: Option<Frac>,
    is_near: bool,
}

impl Gains {
    /// Nothing.
    fn none(alloc: Global) -> Gains {
        Gains {
            gains: Vec::new(alloc),
            relative: Vec::new(alloc),
            is_found: false,
        }
    }
}

/// Whether a width is known and less than another one, or that isn't known.
fn is_less(width: &Option<Frac>, other: &Option<Frac>) -> bool {
    match (width, other) {
        (Some(width), Some(other)) => width.order(other) == Ordering::Less,
        (Some(_), None) => true,
        _ => false,
    }
}

impl Found {
    /// Nothing.
    pub(crate) fn none(alloc: Global, digits: u32) -> Found {
        Found {
            upper: Gains::none(alloc),
            lower: Gains::none(alloc),
            choices: Vec::new(alloc),
            digits,
            width: None,
            is_near: false,
        }
    }

    /// How many of the two columns were found.
    fn columns(&self) -> u32 {
        u32::from(self.upper.is_found).saturating_add(u32::from(self.lower.is_found))
    }

    /// Whether there is nothing nearer to be found.
    pub(crate) fn is_enough(&self) -> bool {
        self.is_near && self.columns() == 2
    }

    /// Whether it is more than what another search came to.
    pub(crate) fn is_better(&self, other: &Found) -> bool {
        let (own, others) = (self.columns(), other.columns());
        own > others || own == others && is_less(&self.width, &other.width)
    }
}

/// The nodes that end components and the other states are, and each state as a node of its own; and the end components, each in the order in which it
/// is best solved.
#[derive(Drop)]
pub(crate) struct Places {
    pub(crate) nodes: Nodes,
    pub(crate) states: Nodes,
    pub(crate) components: Components,
}

/// What all steps of a search need: what choices earn, the maximal end components, the rows of all choices, none of which was too wide, what is known
/// of the gains of end components, and the scale of relative values where these are left, which has so many units for one.
#[derive(Clone, Copy)]
pub(crate) struct Search<'a> {
    pub(crate) earning: Earning<'a>,
    pub(crate) ends: &'a Ends,
    pub(crate) places: &'a Places,
    pub(crate) rows: &'a Rows,
    pub(crate) gains: &'a EndGains,
    pub(crate) coarse: Scale,
    pub(crate) units: i128,
}

/// The scale of relative values where end components are left, beside gains of this one: how near they are costs the gains nothing, so what they have
/// fewer digits behind the point they have more before it.
pub(crate) fn coarse_scale(scale: Scale) -> Scale {
    let few = FEW_DIGITS.max((scale.digits / 3).saturating_mul(2));
    let digits = scale.digits.min(few);
    let fewer = scale.digits.saturating_sub(digits);
    Scale {
        digits,
        room: scale.room.saturating_add(fewer),
    }
}

/// Values of nodes, 0 for those that have no rows.
fn given_ends(alloc: Global, rows: &Rows, nodes: u32) -> Result<Vec<Value>, AllocError> {
    let mut given = vec![in alloc; Value::none(); nodes as usize]?;
    for node in 0..nodes {
        if rows.rows_of(node).is_empty() && !rows.has_wide(node) {
            put(&mut given, node, Value::known(0));
        }
    }
    Ok(given)
}

/// The least of the values that are known as a lower bound, the greatest as an upper one; 0 where none is.
fn extreme(values: &[Value], bound: Bound) -> i128 {
    let mut extreme = None;
    for value in values {
        if let Some(units) = value.units() {
            let other = extreme.unwrap_or(units);
            extreme = match bound {
                Bound::Lower => Some(units.min(other)),
                Bound::Upper => Some(units.max(other)),
            };
        }
    }
    extreme.unwrap_or(0)
}

impl<'a> Search<'a> {
    /// The gains of end components for this bound.
    fn end_gains(self, bound: Bound) -> &'a [Value] {
        match bound {
            Bound::Lower => &self.gains.lower,
            Bound::Upper => &self.gains.upper,
        }
    }

    /// The biases that meet a bound in end components.
    fn biases(self, bound: Bound) -> &'a [Value] {
        match bound {
            Bound::Lower => &self.gains.bias,
            Bound::Upper => &self.gains.bound,
        }
    }

    /// For each state the gain of its node, from the least to the greatest gain of an end component.
    fn spread(self, alloc: Global, values: &[Value]) -> Result<Vec<i128>, AllocError> {
        let least = extreme(&self.gains.lower, Bound::Lower);
        let greatest = extreme(&self.gains.upper, Bound::Upper);
        let mut spread = vec![in alloc; 0i128; self.gains.picks.len()]?;
        for s in 0..self.earning.model.states() {
            let gain = value_at(values, self.places.nodes.of(s)).unwrap_or(least);
            put(&mut spread, s, gain.max(least).min(greatest));
        }
        Ok(spread)
    }

    /// The greatest gains of the nodes: to stop in an end component with its gain, or to leave it. The search begins with what was found for the
    /// other bound.
    fn node_gains(
        self,
        alloc: Global,
        scale: Scale,
        bound: Bound,
        other: Option<&Solution>,
    ) -> Result<Column, AllocError> {
        let nothing = Earning {
            name: None,
            ..self.earning
        };
        let layout = Layout {
            stops: self.end_gains(bound),
            ..Layout::new(nothing, &self.places.nodes)
        };
        let rows = layout.rows(alloc, scale)?;
        let given = vec![in alloc; Value::none(); layout.nodes.count() as usize]?;
        let task = Task {
            is_max: true,
            bound,
            anyway: Some(extreme(layout.stops, bound)),
            to_end: true,
        };
        column_of(alloc, &rows, &given, task, other)
    }

    /// What the choice of a row earns over the bias and the gain of its state, in coarse units times the denominator of the row, rounded so that it
    /// is a bound. None past 128 bits.
    fn earned_over(self, row: &WholeRow, gains: &[i128], bound: Bound) -> Option<i128> {
        let fine = self.rows.rows_of(row.state).get(row.choice as usize)?;
        let gain = item_at(gains, row.state as usize, 0);
        let excess = self.rows.excess(fine, self.biases(bound))?;
        let over = excess.checked_sub(fine.denominator.checked_mul(gain)?)?;
        quotient(over, self.units, bound)
    }

    /// Gives all rows as rewards what their choices earn over the bias and the gains of their states. Whether that was possible.
    fn offset(self, rows: &mut Rows, gains: &[i128], bound: Bound) -> bool {
        for place in 0..usize::MAX {
            let Some(row) = rows.row(place).copied() else {
                break;
            };
            match self.earned_over(&row, gains, bound) {
                Some(reward) => rows.set_reward(place, reward),
                None => return false,
            }
        }
        true
    }

    /// The bias of a state with as many coarse units more as its node has. None past 128 bits, or where that isn't known.
    fn with_offset(self, s: u32, offset: Option<i128>, bound: Bound) -> Option<i128> {
        value_at(self.biases(bound), s)?.checked_add(offset?.checked_mul(self.units)?)
    }

    /// How many coarse units more than its bias each node has, so that all meet the bound on these rows too. It is full where that is found.
    fn offsets(
        self,
        alloc: Global,
        gains: &[i128],
        layout: Layout<'_>,
        bound: Bound,
    ) -> Result<Solution, AllocError> {
        let mut rows = layout.rows(alloc, self.coarse)?;
        let given = given_ends(alloc, &rows, layout.nodes.count())?;
        if !self.offset(&mut rows, gains, bound) {
            return Ok(Solution {
                values: given,
                picks: Vec::new(alloc),
                is_full: false,
            });
        }
        let task = Task {
            is_max: true,
            bound,
            anyway: None,
            to_end: false,
        };
        solve(alloc, &rows, &given, task, None)
    }

    /// The gains of nodes with the biases that meet the bound in end components, and so many more at each node that they meet it on these rows too.
    fn gains(
        self,
        alloc: Global,
        values: &[Value],
        layout: Layout<'_>,
        bound: Bound,
    ) -> Result<Gains, AllocError> {
        let gains = self.spread(alloc, values)?;
        let offsets = self.offsets(alloc, &gains, layout, bound)?;
        let mut relative = vec![in alloc; 0i128; gains.len()]?;
        let mut is_found = offsets.is_full;
        for s in 0..self.earning.model.states() {
            let offset = value_at(&offsets.values, layout.nodes.of(s));
            match self.with_offset(s, offset, bound) {
                Some(bias) => put(&mut relative, s, bias),
                None => is_found = false,
            }
        }
        Ok(Gains {
            gains,
            relative,
            is_found,
        })
    }

    /// A value for each state where a policy stays in its end component: that of a node that isn't left by one of these choices.
    fn staying(self, alloc: Global, picked: &[Pred]) -> Result<Vec<Value>, AllocError> {
        let nodes = &self.places.nodes;
        let mut of_nodes = vec![in alloc; Value::known(0); nodes.count() as usize]?;
        for pick in picked {
            put(&mut of_nodes, nodes.of(pick.state), Value::none());
        }
        let mut staying = vec![in alloc; Value::none(); self.gains.picks.len()]?;
        for s in 0..self.earning.model.states() {
            if item_at(&self.gains.picks, s as usize, None).is_some() {
                put(
                    &mut staying,
                    s,
                    item_at(&of_nodes, nodes.of(s) as usize, Value::none()),
                );
            }
        }
        Ok(staying)
    }

    /// The policy that takes the picked choices, and stays in end components that it doesn't leave.
    fn policy(self, alloc: Global, picked: &[Pred]) -> Result<Vec<u32>, Memory>
        requires { AreEndsOf self.earning.model.now self.ends.now }
    {
        let mut choices = self.rows.choices_of(alloc, &self.gains.picks)?;
        put_picked(&mut choices, picked);
        lead(alloc, self.earning.model, self.ends, picked, &mut choices)?;
        Ok(choices)
    }

    /// Puts to what was found the policy that comes to the lower gains, and these with their relative values on its rows.
    fn put_lower(self, alloc: Global, below: &Column, found: &mut Found) -> Result<(), Memory>
        requires { AreEndsOf self.earning.model.now self.ends.now }
    {
        found.choices = self.policy(alloc, &below.picked)?;
        let staying = self.staying(alloc, &below.picked)?;
        let layout = Layout {
            policy: Some(&found.choices),
            known: &staying,
            ..Layout::new(self.earning, &self.places.states)
        };
        found.lower = self.gains(alloc, &below.solution.values, layout, Bound::Lower)?;
        Ok(())
    }

    /// Upper and lower gains of all states, which have this scale.
    pub(crate) fn run(self, alloc: Global, scale: Scale) -> Result<Found, Memory>
        requires { AreEndsOf self.earning.model.now self.ends.now }
    {
        let above = self.node_gains(alloc, scale, Bound::Upper, None)?;
        let below = self.node_gains(alloc, scale, Bound::Lower, Some(&above.solution))?;
        let leaving = Layout::new(self.earning, &self.places.nodes);
        let upper = self.gains(alloc, &above.solution.values, leaving, Bound::Upper)?;
        let mut found = Found {
            upper,
            lower: Gains::none(alloc),
            choices: Vec::new(alloc),
            digits: scale.digits,
            width: Frac::try_new(self.gains.width, self.rows.one()).ok(),
            is_near: self.gains.is_near,
        };
        self.put_lower(alloc, &below, &mut found)?;
        Ok(found)
    }
}
