//! Both columns of bounds, the lower and the upper values, each with the most digits for which components can be refined.

use crate::ends::put_picked;
use crate::layout::Layout;
use crate::proposed::fraction;
use mdp_num::{Frac, Memory};
use mdp_refinement::{
    Bound, Rows, Scale, Solution, Task, Value, append, flag_at, put, solve, value_at,
};
use mdp_rows::{Dir, Pred};
use std::alloc::{AllocError, Global};

/// How often fewer digits are tried for a bound: first 1 fewer, then 3, 6, 9 and so on.
const MOST_TRIES: u32 = 11;

/// What is sought: the best values of nodes, which lie from the least to the greatest number, where there are such. Where values beyond these are put
/// to them, the rules hold as before.
#[derive(Clone, Copy)]
pub(crate) struct Sought<'a> {
    pub(crate) layout: Layout<'a>,
    pub(crate) dir: Dir,
    pub(crate) least: Option<i128>,
    pub(crate) greatest: Option<i128>,
    pub(crate) scale: Scale,
}

/// What the search came to for one bound: the values of nodes in units of 1 over `one`, and the choices that it picked.
#[derive(Drop)]
pub(crate) struct Column {
    pub(crate) one: i128,
    pub(crate) solution: Solution,
    pub(crate) picked: Vec<Pred>,
}

/// Both bounds.
#[derive(Drop)]
pub(crate) struct Columns {
    pub(crate) lower: Column,
    pub(crate) upper: Column,
}

/// Both bounds as values of the states, a policy, and the columns that these are taken from.
#[derive(Drop)]
pub(crate) struct Bounds {
    pub(crate) lower: Vec<Option<Frac>>,
    pub(crate) upper: Vec<Option<Frac>>,
    pub(crate) choices: Vec<u32>,
    pub(crate) columns: Columns,
}

/// The choices of the rows that were picked, but for those that stop.
fn picked_choices(
    alloc: Global,
    rows: &Rows,
    picks: &[Option<usize>],
) -> Result<Vec<Pred>, AllocError> {
    let mut picked = Vec::new(alloc);
    for pick in picks {
        match rows.picked(*pick) {
            Some(row) if !row.is_stop() => {
                let (state, choice) = (row.state, row.choice);
                append(&mut picked, Pred { state, choice })?;
            }
            _ => {}
        }
    }
    Ok(picked)
}

/// What the search comes to on rows, by what was found for the other bound on the same rows.
pub(crate) fn column_of(
    alloc: Global,
    rows: &Rows,
    given: &[Value],
    task: Task,
    other: Option<&Solution>,
) -> Result<Column, AllocError> {
    let solution = solve(alloc, rows, given, task, other)?;
    Ok(Column {
        one: rows.one(),
        picked: picked_choices(alloc, rows, &solution.picks)?,
        solution,
    })
}

impl Column {
    /// What the search for the other bound begins with.
    fn start(&self, to_end: bool) -> Option<&Solution> {
        if to_end || self.solution.is_full {
            Some(&self.solution)
        } else {
            None
        }
    }
}

impl Columns {
    /// The choices that a policy is to come to: those that were picked for the lower bound of greatest values, or for the upper one of least values.
    pub(crate) fn picked(&self, dir: Dir) -> &[Pred] {
        match dir {
            Dir::Max => &self.lower.picked,
            Dir::Min => &self.upper.picked,
        }
    }
}

impl Sought<'_> {
    /// The least or the greatest number in units of 1 over `one`.
    fn limit(self, bound: Bound, one: i128) -> Option<i128> {
        let number = match bound {
            Bound::Lower => self.least,
            Bound::Upper => self.greatest,
        };
        number?.checked_mul(one)
    }

    /// The values of the nodes whose states have a known value, and of the last one where steps count less, in units of 1 over `one`.
    fn given(self, alloc: Global, one: i128) -> Result<Vec<Value>, AllocError> {
        let nodes = self.layout.nodes;
        let mut given = vec![in alloc; Value::none(); nodes.count() as usize]?;
        for state in nodes.order() {
            if let Some(known) = value_at(self.layout.known, *state) {
                put(
                    &mut given,
                    nodes.of(*state),
                    Value::known(known.saturating_mul(one)),
                );
            }
        }
        if self.layout.factor.is_some() {
            put(&mut given, nodes.count().saturating_sub(1), Value::known(0));
        }
        Ok(given)
    }

    /// Solves for one bound, by what was found for the other on the same rows. It ends with the first component that can't be refined, unless it is
    /// to go to the end.
    fn column(
        self,
        alloc: Global,
        rows: &Rows,
        bound: Bound,
        to_end: bool,
        other: Option<&Solution>,
    ) -> Result<Column, AllocError> {
        let one = rows.one();
        let task = Task {
            is_max: self.dir == Dir::Max,
            bound,
            anyway: self.limit(bound, one),
            to_end,
        };
        column_of(alloc, rows, &self.given(alloc, one)?, task, other)
    }

    /// Solves for one bound with values of this scale.
    fn scaled_column(
        self,
        alloc: Global,
        scale: Scale,
        bound: Bound,
        to_end: bool,
    ) -> Result<Column, AllocError> {
        let rows = self.layout.rows(alloc, scale)?;
        self.column(alloc, &rows, bound, to_end, None)
    }

    /// Where components can't be refined, puts in place of a bound the same one with the most digits, fewer than those of the scale, for which all
    /// can be; else as far as the search goes with those of the scale. Where fewer digits are tried there is at least as much room before the point
    /// as digits are left out.
    fn refine(self, alloc: Global, bound: Bound, column: &mut Column) -> Result<(), AllocError> {
        if column.solution.is_full {
            return Ok(());
        }
        for tried in 0..MOST_TRIES {
            let fewer = tried.saturating_mul(3).max(1);
            let scale = Scale {
                digits: self.scale.digits.saturating_sub(fewer),
                room: self.scale.room.max(fewer),
            };
            *column = self.scaled_column(alloc, scale, bound, false)?;
            if column.solution.is_full {
                return Ok(());
            }
            if scale.digits == 0 {
                break;
            }
        }
        *column = self.scaled_column(alloc, self.scale, bound, true)?;
        Ok(())
    }

    /// Both bounds with the digits of the scale, as far as the search goes with them.
    pub(crate) fn columns(self, alloc: Global, to_end: bool) -> Result<Columns, AllocError> {
        let rows = self.layout.rows(alloc, self.scale)?;
        let lower = self.column(alloc, &rows, Bound::Lower, to_end, None)?;
        let other = lower.start(to_end);
        let upper = self.column(alloc, &rows, Bound::Upper, to_end, other)?;
        Ok(Columns { lower, upper })
    }

    /// Each bound with the digits of the scale, or with fewer where components can't be refined with these.
    fn refined_columns(self, alloc: Global) -> Result<Columns, AllocError> {
        let mut columns = self.columns(alloc, false)?;
        self.refine(alloc, Bound::Lower, &mut columns.lower)?;
        self.refine(alloc, Bound::Upper, &mut columns.upper)?;
        Ok(columns)
    }

    /// The value of a state in units of 1 over `one` of the column, put within the limits; none where none was found.
    fn units_at(self, column: &Column, state: u32) -> Option<i128> {
        let value = value_at(&column.solution.values, self.layout.nodes.of(state))?;
        let least = self.limit(Bound::Lower, column.one).unwrap_or(i128::MIN);
        let greatest = self.limit(Bound::Upper, column.one).unwrap_or(i128::MAX);
        Some(value.max(least).min(greatest))
    }

    /// The values of the states in units; 0 where none was found.
    pub(crate) fn units(self, alloc: Global, column: &Column) -> Result<Vec<i128>, AllocError> {
        let states = self.layout.earning.model.states();
        let mut units = vec![in alloc; 0i128; states as usize]?;
        for s in 0..states {
            put(&mut units, s, self.units_at(column, s).unwrap_or(0));
        }
        Ok(units)
    }

    /// The values of the states that aren't barred; none where none was found.
    fn values(self, alloc: Global, column: &Column) -> Result<Vec<Option<Frac>>, AllocError> {
        let states = self.layout.earning.model.states();
        let mut values = vec![in alloc; None; states as usize]?;
        for s in 0..states {
            if !flag_at(self.layout.is_barred, s) {
                if let Some(units) = self.units_at(column, s) {
                    put(&mut values, s, Some(fraction(units, column.one)));
                }
            }
        }
        Ok(values)
    }

    /// Both bounds of the states, each with the digits for which it can be refined, and the given choices, but for those that were picked.
    pub(crate) fn bounds(self, alloc: Global, given: &[u32]) -> Result<Bounds, Memory> {
        let mut choices = given.to_vec(alloc)?;
        let columns = self.refined_columns(alloc)?;
        let lower = self.values(alloc, &columns.lower)?;
        let upper = self.values(alloc, &columns.upper)?;
        put_picked(&mut choices, columns.picked(self.dir));
        Ok(Bounds {
            lower,
            upper,
            choices,
            columns,
        })
    }
}
