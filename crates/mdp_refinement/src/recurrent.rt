//! Gains and biases of end components, by value iteration over a random number of steps: a step ends with a small chance, and then counts by the bias
//! that was found before. What the best rows gain over a new bias differs from node to node by what the corrections differ, times that chance: so the
//! bounds of the gain come nearer as long as the chance is less than 1 over the time in which the component mixes. As each policy comes to an end, it
//! doesn't matter how many recurrent classes one has.

use crate::component::Component;
use crate::convert::{nearest, to_float};
use crate::correct::Corrector;
use crate::graph::Graph;
use crate::lists::{greatest_size, item_at, put, put_each, set_at};
use crate::rows::Rows;
use crate::strong::Components;
use crate::value::{Value, value_at};
use crate::whole::divided;
use std::alloc::{AllocError, Global};

/// With which chance a step ends first.
const FIRST_CHANCE: f64 = 1e-9;

/// How much less often steps end where the bounds of the gain come no nearer, and how many chances are tried.
const RARER: f64 = 1.0 / 300.0;

const MOST_CHANCES: u32 = 5;

/// How often a bias is corrected at most with a chance.
const MOST_ROUNDS: u32 = 30;

/// A correction comes forward that brings the bounds of the gain so many times nearer; and how many are made that don't.
const NEARER: i128 = 4;

const MOST_STALE: u32 = 3;

/// Gains that lie no further apart than so many units are near enough.
const NEAR: i128 = 3;

/// By how many times a correction, and a unit, one row may come nearer to another one.
const FAR: f64 = 6.0;

/// Of no more nodes the bias is corrected once more then, so that its simplest values may be found.
const FEW_NODES: usize = 1000;

/// For each node, in units: an upper gain and a lower one of its component, where they are known; for each of these a bias over which the rows show
/// it, the bound and the bias, which are 0 outside of end components; and the place of the row that a policy takes whose gain is no less than the
/// lower one. `width` is how far the bounds of a gain lie apart at most, and `is_near` whether those of each are near enough.
#[derive(Drop)]
pub struct EndGains {
    pub upper: Vec<Value>,
    pub lower: Vec<Value>,
    pub bound: Vec<Value>,
    pub bias: Vec<Value>,
    pub picks: Vec<Option<usize>>,
    pub width: i128,
    pub is_near: bool,
}

/// Bounds of a gain.
#[derive(Clone, Copy)]
struct Range {
    upper: i128,
    lower: i128,
}

impl Range {
    /// How far the bounds lie apart.
    fn width(self) -> i128 {
        self.upper.saturating_sub(self.lower)
    }
}

/// A search for the gain of an end component: about what each row earns over a gain and a bias; of each node the row that earns most; the nearest
/// bounds, and how many corrections since then brought them hardly nearer. A row that earned less than that of its node by more than `far` earns less
/// after the corrections since then too, and isn't measured.
#[derive(Drop)]
struct Refinement<'a> {
    rows: &'a Rows,
    earned: Vec<f64>,
    policy: Vec<usize>,
    gain: i128,
    best: Range,
    stale: u32,
    far: f64,
    has_far: bool,
}

/// Puts the values of a component's nodes less so much.
fn put_relative(values: &mut [Value], component: &Component, from: &[Value], less: i128) {
    for node in &component.nodes {
        let own = value_at(from, *node).unwrap_or(0);
        put(values, *node, Value::known(own.saturating_sub(less)));
    }
}

impl Refinement<'_> {
    /// Whether the bounds are near enough.
    fn is_near(&self) -> bool {
        self.best.width() <= NEAR
    }

    /// Measures the row at a place over a bias. What it gains: its reward, and what it makes of the bias over that of its node. None past 128 bits.
    fn measure_row(&mut self, component: &Component, at: usize, bias: &[Value]) -> Option<Range> {
        let row = self.rows.picked(component.pick_at(at))?;
        let due = row.denominator.checked_mul(self.gain)?;
        // The first bias is 0.
        let excess = if self.best.upper == i128::MAX {
            row.reward
        } else {
            self.rows.excess(row, bias)?
        };
        let over = excess.checked_sub(due)?;
        let (more, rest) = divided(over, row.denominator)?;
        let lower = self.gain.saturating_add(more);
        let earned = to_float(over) / to_float(row.denominator);
        set_at(&mut self.earned, at, earned);
        Some(Range {
            upper: lower.saturating_add(i128::from(rest > 0)),
            lower,
        })
    }

    /// Measures the rows of the node at a place. Between which bounds the best of them gains.
    fn measure_node(
        &mut self,
        component: &Component,
        place: usize,
        bias: &[Value],
    ) -> Option<Range> {
        let (from, to) = component.range_of(place);
        let chosen = item_at(&self.policy, place, 0);
        let least = item_at(&self.earned, chosen, 0.0) - self.far;
        let mut best = Range {
            upper: i128::MIN,
            lower: i128::MIN,
        };
        for at in from..to {
            if item_at(&self.earned, at, 0.0) < least {
                self.has_far = true;
                continue;
            }
            let own = self.measure_row(component, at, bias)?;
            if own.lower > best.lower {
                set_at(&mut self.policy, place, at);
            }
            best.upper = best.upper.max(own.upper);
            best.lower = best.lower.max(own.lower);
        }
        Some(best)
    }

    /// Measures all rows. The least and the greatest of what the best rows gain: whatever the bias is, the greatest gain of the component lies
    /// between.
    fn measure_all(&mut self, component: &Component, bias: &[Value]) -> Option<Range> {
        let mut range = Range {
            upper: i128::MIN,
            lower: i128::MAX,
        };
        for place in 0..component.nodes.len() {
            let own = self.measure_node(component, place, bias)?;
            range.upper = range.upper.max(own.upper);
            range.lower = range.lower.min(own.lower);
        }
        Some(range)
    }

    /// Measures the rows over a bias, and keeps that for each bound of the gain that is as near as ever. Whether all were measured.
    fn measure(&mut self, component: &Component, bias: &[Value], found: &mut EndGains) -> bool {
        self.has_far = false;
        let Some(range) = self.measure_all(component, bias) else {
            return false;
        };
        if !self.has_far {
            self.far = 0.0;
        }
        // Relative to the bias of the last node all are simple where the gain is.
        let nodes = component.nodes.as_slice();
        let last = item_at(nodes, nodes.len().saturating_sub(1), u32::MAX);
        let less = value_at(bias, last).unwrap_or(0);
        let before = self.best.width();
        if range.upper <= self.best.upper {
            self.best.upper = range.upper;
            put_each(&mut found.upper, nodes, Value::known(range.upper));
            put_relative(&mut found.bound, component, bias, less);
        }
        if range.lower >= self.best.lower {
            self.best.lower = range.lower;
            put_each(&mut found.lower, nodes, Value::known(range.lower));
            put_relative(&mut found.bias, component, bias, less);
            component.pick(&self.policy, &mut found.picks);
        }
        self.stale = if self.best.width() < before / NEARER {
            0
        } else {
            self.stale.saturating_add(1)
        };
        true
    }

    /// Corrects the bias once, and measures the rows over it. Whether that was possible.
    fn correct(
        &mut self,
        alloc: Global,
        component: &Component,
        corrector: &mut Corrector<'_>,
        bias: &mut [Value],
        found: &mut EndGains,
    ) -> Result<bool, AllocError> {
        if !corrector.correct(alloc, &self.earned)? {
            return Ok(false);
        }
        let Some(more) = nearest(corrector.gain) else {
            return Ok(false);
        };
        self.gain = self.gain.saturating_add(more);
        self.far += FAR * (greatest_size(&corrector.values) + corrector.gain.abs() + 1.0);
        Ok(component.add(&corrector.values, bias) && self.measure(component, bias, found))
    }

    /// Corrects the bias until the bounds of the gain are near enough, or come no nearer.
    fn rounds(
        &mut self,
        alloc: Global,
        component: &Component,
        corrector: &mut Corrector<'_>,
        bias: &mut [Value],
        found: &mut EndGains,
    ) -> Result<(), AllocError> {
        corrector.begin(&self.policy)?;
        self.stale = 0;
        for _ in 0..MOST_ROUNDS {
            let is_measured = self.correct(alloc, component, corrector, bias, found)?;
            if !is_measured || self.is_near() || self.stale > MOST_STALE {
                break;
            }
        }
        Ok(())
    }

    /// Corrects the bias with a new corrector, which begins with the policy at hand.
    fn correct_anew(
        &mut self,
        alloc: Global,
        component: &Component,
        bias: &mut [Value],
        found: &mut EndGains,
    ) -> Result<(), AllocError> {
        let leading = Graph::empty(alloc);
        let mut corrector = Corrector::new(alloc, component, &leading, 1.0, &[]);
        self.rounds(alloc, component, &mut corrector, bias, found)
    }

    /// Corrects the bias with less and less chances, as long as that brings the bounds of the gain nearer. They are there from the beginning on.
    fn run(
        &mut self,
        alloc: Global,
        component: &mut Component,
        bias: &mut [Value],
        found: &mut EndGains,
    ) -> Result<(), AllocError> {
        let mut chance = FIRST_CHANCE;
        for _ in 0..MOST_CHANCES {
            if !self.measure(component, bias, found) || self.is_near() {
                break;
            }
            component.end_with(chance - component.ending);
            self.correct_anew(alloc, component, bias, found)?;
            if self.is_near() {
                break;
            }
            put_relative(bias, component, &found.bias, 0);
            self.far = f64::INFINITY;
            chance *= RARER;
        }
        if !(component.ending > 0.0) || component.nodes.len() > FEW_NODES {
            return Ok(());
        }
        self.correct_anew(alloc, component, bias, found)
    }
}

impl EndGains {
    /// Nothing known, of so many nodes.
    fn none(alloc: Global, nodes: usize) -> Result<EndGains, AllocError> {
        Ok(EndGains {
            upper: vec![in alloc; Value::none(); nodes]?,
            lower: vec![in alloc; Value::none(); nodes]?,
            bound: vec![in alloc; Value::known(0); nodes]?,
            bias: vec![in alloc; Value::known(0); nodes]?,
            picks: vec![in alloc; None; nodes]?,
            width: 0,
            is_near: true,
        })
    }

    /// Finds the gain of a component, whose bias is 0 at first.
    fn solve(
        &mut self,
        alloc: Global,
        rows: &Rows,
        component: &mut Component,
        bias: &mut [Value],
    ) -> Result<(), AllocError> {
        let mut refinement = Refinement {
            rows,
            earned: vec![in alloc; 0.0; component.rows.len()]?,
            policy: vec![in alloc; 0; component.nodes.len()]?,
            gain: 0,
            best: Range {
                upper: i128::MAX,
                lower: i128::MIN,
            },
            stale: 0,
            far: f64::INFINITY,
            has_far: false,
        };
        refinement.run(alloc, component, bias, self)?;
        self.width = self.width.max(refinement.best.width());
        self.is_near = self.is_near && refinement.is_near();
        Ok(())
    }
}

/// The greatest gains of end components, and biases for them, by the rows of all choices of their nodes, none of which stops or was too wide.
pub fn end_gains(
    alloc: Global,
    rows: &Rows,
    components: &Components,
) -> Result<EndGains, AllocError> {
    let mut found = EndGains::none(alloc, rows.count())?;
    let mut bias = vec![in alloc; Value::known(0); rows.count()]?;
    for place in 0..components.count() {
        let mut component = Component::new(alloc, rows, components, place, &[])?;
        found.solve(alloc, rows, &mut component, &mut bias)?;
    }
    Ok(found)
}
