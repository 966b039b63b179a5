//! The rows of a model's choices, and what they earn.

ghost use Rattle.std.specs.Prelude.{◌<◌, length};
ghost use Rattle.mdp_spec.specs.Mdp.{states_of, choices_at};

use mdp_num::Frac;
use mdp_refinement::{
    Bound, ChoiceRow, Discount, Nodes, Rows, Scale, Value, flag_at, number_at, quotient, value_at,
};
use mdp_rows::Model;
use std::alloc::{AllocError, Global};

/// What the choices of a model earn: their rewards under the name of a place, or nothing where there is no such name. The rewards are negated where
/// the least values are sought as the opposites of the greatest ones.
#[derive(Clone, Copy)]
pub(crate) struct Earning<'a> {
    pub(crate) model: &'a Model,
    pub(crate) name: Option<u32>,
    pub(crate) is_negated: bool,
}

impl Earning<'_> {
    /// What a choice earns; 0 where there is no such choice.
    pub(crate) fn of(self, s: u32, c: u32) -> Frac {
        let model = self.model;
        match self.name {
            Some(name) if name < model.names() && s < model.states() && c < model.choices(s) => {
                let reward = model.reward(name, s, c);
                if self.is_negated {
                    reward.negate()
                } else {
                    reward
                }
            }
            _ => Frac::whole(0),
        }
    }

    /// Whole numbers between which a range lies and what the choices of a state earn.
    fn range_at(self, s: u32, range: (i128, i128)) -> (i128, i128)
        requires { s < states_of self.model.now }
    {
        let mut least = range.0;
        let mut greatest = range.1;
        for c in 0..self.model.choices(s) {
            let reward = self.of(s, c);
            let (num, den) = (reward.num(), reward.den());
            least = least.min(quotient(num, den, Bound::Lower).unwrap_or(i128::MIN));
            greatest = greatest.max(quotient(num, den, Bound::Upper).unwrap_or(i128::MAX));
        }
        (least, greatest)
    }

    /// Whole numbers between which all lies that choices earn.
    pub(crate) fn range(self) -> (i128, i128) {
        let mut range = (i128::MAX, i128::MIN);
        for s in 0..self.model.states() {
            range = self.range_at(s, range);
        }
        range
    }
}

/// Whether one of these places has a flag.
fn has_flag(flags: &[bool], places: &[u32]) -> bool {
    for place in places {
        if flag_at(flags, *place) {
            return true;
        }
    }
    false
}

/// How the choices of a model become rows of nodes. A state whose value is known has no row, and none leads to a barred state. Where there is a
/// policy it alone has rows; where there is a factor a step later counts so many times as much, and what it counts less goes to the last node. A row
/// that stays in its node is one only where such rows are kept. Before the rows of a node comes one that stops with the value of its first state, if
/// that has one.
#[derive(Clone, Copy)]
pub(crate) struct Layout<'a> {
    pub(crate) earning: Earning<'a>,
    pub(crate) nodes: &'a Nodes,
    pub(crate) known: &'a [Value],
    pub(crate) is_barred: &'a [bool],
    pub(crate) policy: Option<&'a [u32]>,
    pub(crate) factor: Option<&'a Frac>,
    pub(crate) keeps_inner: bool,
    pub(crate) stops: &'a [Value],
}

impl<'a> Layout<'a> {
    /// Every choice that leaves its node is a row.
    pub(crate) fn new(earning: Earning<'a>, nodes: &'a Nodes) -> Layout<'a> {
        Layout {
            earning,
            nodes,
            known: &[],
            is_barred: &[],
            policy: None,
            factor: None,
            keeps_inner: false,
            stops: &[],
        }
    }

    /// Whether a choice is a row.
    fn takes(self, row: ChoiceRow<'_>) -> bool {
        let is_chosen = match self.policy {
            Some(policy) => number_at(policy, row.state) == row.choice,
            None => true,
        };
        is_chosen && !has_flag(self.is_barred, row.targets)
    }

    /// Appends the row of a choice.
    fn push_row(self, rows: &mut Rows, row: ChoiceRow<'_>) -> Result<(), AllocError> {
        let reward = self.earning.of(row.state, row.choice);
        match self.factor {
            Some(factor) => {
                let end = self.nodes.count().saturating_sub(1);
                rows.push_discounted_row(self.nodes, row, &reward, Discount { factor, end })
            }
            None if self.keeps_inner => rows.push_any_row(self.nodes, row, &reward),
            None => rows.push_row(self.nodes, row, &reward),
        }
    }

    /// Appends the rows of a state.
    fn push_state(self, rows: &mut Rows, s: u32) -> Result<(), AllocError> {
        if rows.go_to(self.nodes.of(s))? {
            if let Some(value) = value_at(self.stops, s) {
                rows.push_stop(s, 0, value)?;
            }
        }
        let model = self.earning.model;
        if s >= model.states() || !self.is_open(s) {
            return Ok(());
        }
        for c in 0..model.choices(s) {
            let row = choice_row(model, s, c);
            if self.takes(row) {
                self.push_row(rows, row)?;
            }
        }
        Ok(())
    }

    /// Whether a state has rows.
    pub(crate) fn is_open(self, s: u32) -> bool {
        value_at(self.known, s).is_none() && !flag_at(self.is_barred, s)
    }

    /// The rows, node by node, for values of this scale.
    pub(crate) fn rows(self, alloc: Global, scale: Scale) -> Result<Rows, AllocError> {
        let model = self.earning.model;
        let choices = model.all_choices() as usize;
        let mut rows = Rows::with_capacity(alloc, self.nodes.count(), choices, choices, scale)?;
        for s in self.nodes.order() {
            self.push_state(&mut rows, *s)?;
        }
        rows.fit();
        Ok(rows)
    }
}

/// A choice of a state with its row.
fn choice_row(model: &Model, state: u32, choice: u32) -> ChoiceRow<'_>
    requires state { state < states_of model.now }
    requires choice { choice < length (choices_at model.now state) }
{
    let row = model.row(state, choice);
    ChoiceRow {
        state,
        choice,
        targets: row.targets,
        probs: row.probs,
    }
}
