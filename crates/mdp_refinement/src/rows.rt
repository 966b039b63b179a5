use crate::bound::Bound;
use crate::lists::{append, flag_at, group_of, item_at, number, part_of, put};
use crate::nodes::Nodes;
use crate::value::{Value, value_at};
use crate::whole::{common_denominator, digits_left, power_of_ten, quotient, times_multiple};
use mdp_num::Frac;
use std::alloc::{AllocError, Global};

/// An entry of a row in whole numbers: the probability of the node is `numerator` over the row's denominator.
#[derive(Clone, Copy)]
pub struct Entry {
    pub node: u32,
    pub numerator: i128,
}

/// A choice of a state as a model has it: the states that it leads to, and their probabilities, one each.
#[derive(Clone, Copy)]
pub struct ChoiceRow<'a> {
    pub state: u32,
    pub choice: u32,
    pub targets: &'a [u32],
    pub probs: &'a [Frac],
}

/// How much a step later counts: `factor` times as much, where that is at least 0 and at most 1. What is left of each probability goes to the node
/// `end`, where nothing more is earned, so that each row leaves its component.
#[derive(Clone, Copy)]
pub struct Discount<'a> {
    pub factor: &'a Frac,
    pub end: u32,
}

/// The row of a choice that leaves its node, in whole numbers: `denominator` times its value is `reward` and the sum of `numerator` times value over
/// its entries, where `reward` and the values are in units. A row without entries stops: its reward is all. No product is past width, where values
/// are no greater than the rows leave room for.
#[derive(Clone, Copy)]
pub struct WholeRow {
    pub state: u32,
    pub choice: u32,
    pub node: u32,
    pub denominator: i128,
    pub reward: i128,
    first: usize,
    end: usize,
}

impl WholeRow {
    /// Whether the row has no entry.
    pub fn is_stop(&self) -> bool {
        self.first >= self.end
    }
}

/// Where two numbers of 128 bits begin with so many zeros together, their product is below 2 ^ 126.
const ZEROS_OF_NARROW: u32 = 130;

/// How values are written: in units of 10 to the power of -`digits`, with room for so many digits before the point.
#[derive(Clone, Copy)]
pub struct Scale {
    pub digits: u32,
    pub room: u32,
}

/// The rows of nodes, node by node, in the order in which they were pushed. Values are whole numbers in units, of which `one` make 1: as many as the
/// scale says, or fewer, where the greatest of the denominators and of what rows earn leave fewer digits. Until they are fitted to that, rewards are
/// in units of 1.
#[derive(Drop)]
pub struct Rows {
    scale: Scale,
    one: i128,
    denominator: i128,
    earned: i128,
    starts: Vec<usize>,
    rows: Vec<WholeRow>,
    entries: Vec<Entry>,
    has_wide: Vec<bool>,
    pending: Vec<Entry>,
}

/// The least denominator of a row, and what it earns over that; none past width.
fn numbers_of(row: ChoiceRow<'_>, reward: &Frac, factor: &Frac) -> Option<(i128, i128)> {
    let steps = common_denominator(1, row.probs)?;
    let denominator = common_denominator(steps.checked_mul(factor.den())?, &[*reward])?;
    Some((denominator, times_multiple(reward, denominator)?))
}

/// The numerator of a probability over so many times its discount's denominator; none past 128 bits.
fn numerator_of(prob: &Frac, times: i128, factor: &Frac) -> Option<i128> {
    times_multiple(prob, times)?.checked_mul(factor.num())
}

/// The node of an entry, by which entries are ordered.
fn node_of(entry: &Entry) -> u32 {
    entry.node
}

/// The product of two numbers; none past 128 bits. Where both begin with so many zeros together that it is below 2 ^ 126, it needn't be checked.
fn times(a: i128, b: i128) -> Option<i128> {
    let zeros = a.unsigned_abs().leading_zeros();
    if b.unsigned_abs().leading_zeros().saturating_add(zeros) < ZEROS_OF_NARROW {
        return a.checked_mul(b);
    }
    Some(a.wrapping_mul(b))
}

impl Rows {
    /// No row yet, of so many nodes, with memory for so many rows and so many entries.
    pub fn with_capacity(
        alloc: Global,
        nodes: u32,
        rows: usize,
        entries: usize,
        scale: Scale,
    ) -> Result<Rows, AllocError> {
        Ok(Rows {
            scale,
            one: 1,
            denominator: 1,
            earned: 0,
            starts: Vec::with_capacity(alloc, nodes as usize)?,
            rows: Vec::with_capacity(alloc, rows)?,
            entries: Vec::with_capacity(alloc, entries)?,
            has_wide: vec![in alloc; false; nodes as usize]?,
            pending: Vec::new(alloc),
        })
    }

    /// Goes on to the next node, whose rows are pushed from now on. The first call goes to node 0.
    pub fn push_node(&mut self) -> Result<(), AllocError> {
        append(&mut self.starts, self.rows.len())
    }

    /// Goes on to a node, the next one, unless its rows are pushed already. Whether it went on.
    pub fn go_to(&mut self, node: u32) -> Result<bool, AllocError> {
        if (node as usize) < self.starts.len() {
            return Ok(false);
        }
        self.push_node()?;
        Ok(true)
    }

    /// The node whose rows are pushed.
    fn last_node(&self) -> u32 {
        number(self.starts.len().saturating_sub(1))
    }

    /// Takes the entries of a row over its denominator into `pending`, ordered by node. Whether none is past 128 bits.
    fn take_entries(
        &mut self,
        nodes: &Nodes,
        row: ChoiceRow<'_>,
        denominator: i128,
        discount: Discount<'_>,
    ) -> Result<bool, AllocError> {
        let factor = discount.factor;
        let times = denominator.checked_div(factor.den()).unwrap_or(0);
        let less = factor.den().saturating_sub(factor.num());
        self.pending.clear();
        for place in 0..row.targets.len().min(row.probs.len()) {
            let Some(numerator) = numerator_of(&row.probs[place], times, factor) else {
                return Ok(false);
            };
            let node = nodes.of(row.targets[place]);
            append(&mut self.pending, Entry { node, numerator })?;
        }
        self.pending.sort_unstable_by_key(node_of);
        if less > 0 {
            let rest = Entry {
                node: discount.end,
                numerator: less.saturating_mul(times),
            };
            append(&mut self.pending, rest)?;
        }
        Ok(true)
    }

    /// Appends the pending entries, those of each node as one.
    fn push_entries(&mut self) -> Result<(), AllocError> {
        let mut last: Option<Entry> = None;
        for entry in &self.pending {
            let mut own = *entry;
            match last {
                Some(before) if before.node == own.node => {
                    own.numerator = own.numerator.saturating_add(before.numerator);
                    self.entries.pop();
                }
                _ => {}
            }
            append(&mut self.entries, own)?;
            last = Some(own);
        }
        Ok(())
    }

    /// Appends the row of a choice, with its reward, to the last node, where a step later counts less. One that is too wide is only noted.
    pub fn push_discounted_row(
        &mut self,
        nodes: &Nodes,
        row: ChoiceRow<'_>,
        reward: &Frac,
        discount: Discount<'_>,
    ) -> Result<(), AllocError> {
        if let Some((denominator, earned)) = numbers_of(row, reward, discount.factor) {
            if self.take_entries(nodes, row, denominator, discount)? {
                self.denominator = self.denominator.max(denominator);
                self.earned = self.earned.max(earned.saturating_abs());
                let first = self.entries.len();
                self.push_entries()?;
                return self.push(row.state, row.choice, denominator, earned, first);
            }
        }
        let node = self.last_node();
        put(&mut self.has_wide, node, true);
        Ok(())
    }

    /// Appends the row of a choice, with its reward, to the last node. One that stays in the node is left out, and one that is too wide is only
    /// noted.
    pub fn push_row(
        &mut self,
        nodes: &Nodes,
        row: ChoiceRow<'_>,
        reward: &Frac,
    ) -> Result<(), AllocError> {
        if nodes.are_in(row.targets, self.last_node()) {
            return Ok(());
        }
        self.push_any_row(nodes, row, reward)
    }

    /// Appends the row of a choice, with its reward, to the last node, also one that stays in the node. One that is too wide is only noted.
    pub fn push_any_row(
        &mut self,
        nodes: &Nodes,
        row: ChoiceRow<'_>,
        reward: &Frac,
    ) -> Result<(), AllocError> {
        let all = Discount {
            factor: &Frac::whole(1),
            end: 0,
        };
        self.push_discounted_row(nodes, row, reward, all)
    }

    /// Appends a row to the last node, whose entries are those from a place on.
    fn push(
        &mut self,
        state: u32,
        choice: u32,
        denominator: i128,
        reward: i128,
        first: usize,
    ) -> Result<(), AllocError> {
        let row = WholeRow {
            state,
            choice,
            node: self.last_node(),
            denominator,
            reward,
            first,
            end: self.entries.len(),
        };
        append(&mut self.rows, row)
    }

    /// Appends a row that stops with a value, in units, to the last node.
    pub fn push_stop(&mut self, state: u32, choice: u32, value: i128) -> Result<(), AllocError> {
        let place = self.entries.len();
        self.push(state, choice, 1, value, place)
    }

    /// Gives the row at a place another reward, in the row's denominator times a unit.
    pub fn set_reward(&mut self, place: usize, reward: i128) {
        if place < self.rows.len() {
            self.rows[place].reward = reward;
        }
    }

    /// Chooses the unit, once all rows are pushed: with as many digits as the scale says and as all rows leave room for.
    pub fn fit(&mut self) {
        let scale = self.scale;
        self.scale.digits = digits_left(self.denominator, scale.digits.saturating_add(scale.room))
            .saturating_sub(scale.room)
            .min(digits_left(self.earned, scale.digits));
        self.one = power_of_ten(self.scale.digits);
        for row in self.rows.iter_mut() {
            if !row.is_stop() {
                row.reward = row.reward.checked_mul(self.one).unwrap_or(0);
            }
        }
    }

    /// How values are written.
    pub fn scale(&self) -> Scale {
        self.scale
    }

    /// The value 1 in units.
    pub fn one(&self) -> i128 {
        self.one
    }

    /// Whether a row of some node was too wide to be kept.
    pub fn has_any_wide(&self) -> bool {
        self.has_wide.contains(&true)
    }

    /// Whether a row of the node was too wide to be kept.
    pub fn has_wide(&self, node: u32) -> bool {
        flag_at(&self.has_wide, node)
    }

    /// How many nodes there are.
    pub(crate) fn count(&self) -> usize {
        self.has_wide.len()
    }

    /// Where the rows of a node begin and end.
    pub fn range_of(&self, node: u32) -> (usize, usize) {
        let (place, all) = (node as usize, self.rows.len());
        let from = item_at(&self.starts, place, all);
        (from, item_at(&self.starts, place.saturating_add(1), all))
    }

    /// A row by its place.
    pub fn row(&self, place: usize) -> Option<&WholeRow> {
        self.rows.get(place)
    }

    /// A row that was picked by its place, if one was.
    pub fn picked(&self, pick: Option<usize>) -> Option<&WholeRow> {
        self.rows.get(pick?)
    }

    /// The choices of the rows that were picked, the first where none was.
    pub fn choices_of(
        &self,
        alloc: Global,
        picks: &[Option<usize>],
    ) -> Result<Vec<u32>, AllocError> {
        let mut choices = vec![in alloc; 0; picks.len()]?;
        for place in 0..picks.len() {
            if let Some(row) = self.picked(picks[place]) {
                choices[place] = row.choice;
            }
        }
        Ok(choices)
    }

    /// The rows of a node.
    pub fn rows_of(&self, node: u32) -> &[WholeRow] {
        group_of(&self.rows, &self.starts, node as usize)
    }

    /// The entries of a row, ordered by node.
    pub fn entries_of(&self, row: &WholeRow) -> &[Entry] {
        part_of(&self.entries, row.first, row.end)
    }

    /// The entries of all rows of a node.
    pub fn edges_of(&self, node: u32) -> &[Entry] {
        match self.rows_of(node) {
            [first, .., last] => part_of(&self.entries, first.first, last.end),
            [only] => self.entries_of(only),
            [] => &[],
        }
    }

    /// The reward and the sum of numerators times values, but for the entry of the row's own node, whose numerator comes beside it. None past 128
    /// bits, or where a value isn't known.
    fn sum_of_others(&self, row: &WholeRow, values: &[Value]) -> Option<(i128, i128)> {
        let mut total = row.reward;
        let mut own = 0;
        for entry in self.entries_of(row) {
            if entry.node == row.node {
                own = entry.numerator;
            } else {
                let value = value_at(values, entry.node)?;
                total = total.checked_add(times(entry.numerator, value)?)?;
            }
        }
        Some((total, own))
    }

    /// What the row has over the value of its node, in the row's denominator times a unit. None past 128 bits, or where a value isn't known.
    pub fn excess(&self, row: &WholeRow, values: &[Value]) -> Option<i128> {
        let (total, own) = self.sum_of_others(row, values)?;
        let others = row.denominator.checked_sub(own)?;
        total.checked_sub(others.checked_mul(value_at(values, row.node)?)?)
    }

    /// The value that the row gives its node, its own entry solved for, rounded so that it is a bound. None past 128 bits, or where a value isn't
    /// known.
    pub(crate) fn rounded(&self, row: &WholeRow, values: &[Value], bound: Bound) -> Option<i128> {
        let (total, own) = self.sum_of_others(row, values)?;
        quotient(total, row.denominator.checked_sub(own)?, bound)
    }
}
