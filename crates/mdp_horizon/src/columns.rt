ghost use Rattle.std.specs.Prelude.{◌≡◌, ◌<◌, ◌≤◌, ◌^◌, length, map, pos, ◌<ℤ◌, unsigned_abs, IfOk};
ghost use Rattle.mdp_spec.specs.Mdp.{states_of, choices_at};
ghost use Rattle.mdp_horizon.specs.Objective.{earns};
ghost use Rattle.mdp_horizon.specs.Columns.{stopped, ended, cover_at, follow_at, end_column, cover_next, follow_next, choices_next};
ghost use Rattle.mdp_horizon.specs.{Code.{plain_objective, IsObjectiveOf, IsObjectiveOf-prop}, BoundsCode.{plain_choices, values_of, AreOf}};

use crate::best::{covered, followed};
use crate::choice::{Arenas, Choices};
use crate::column::Column;
use crate::leader::Leader;
use crate::objective::Objective;
use crate::scaling::scaled;
use mdp_num::Frac;
use mdp_rows::{Dir, Model};
use std::alloc::{AllocError, Global};

/// What is asked of a model, in units of which `one` make 1.
#[derive(Clone, Copy)]
pub(crate) struct Query<'a> {
    pub dir: Dir,
    pub model: &'a Model,
    pub objective: Objective<'a>,
    pub one: i128,
    ghost positive: { pos 0 <ℤ one },
    ghost fits: { IsObjectiveOf model.now (plain_objective objective) } by { IsObjectiveOf-prop model.now (plain_objective objective) },
}

/// Two columns of values, and the choices of a step.
#[derive(Drop)]
pub(crate) struct Columns {
    pub cover: Column,
    pub follow: Column,
    pub choices: Vec<u32>,
}

impl Query<'_> {
    ghost use Rattle.mdp_horizon.specs.Queries.{for_query, choices_of};

    /// The value of state `s`, where nothing more happens at it.
    fn stopped(self, s: u32) -> Option<i128>
        requires state { s < states_of self.model.now }
        ensures { result ≡ stopped self.entry.one (plain_objective self.entry.objective) s }
    {
        match self.objective {
            Objective::Until(stay, goals) => {
                if goals.at(s) {
                    Some(self.one)
                } else if stay.at(s) {
                    None
                } else {
                    Some(0)
                }
            }
            Objective::Total(_) => None,
        }
    }

    /// The value of state `s` with no step left.
    fn ended(self, s: u32) -> i128
        requires state { s < states_of self.model.now }
        ensures { result ≡ ended self.entry.one (plain_objective self.entry.objective) s }
    {
        match self.objective {
            Objective::Until(_, goals) if goals.at(s) => self.one,
            _ => 0,
        }
    }

    /// What choice `c` of state `s` earns at once.
    pub(crate) fn earns(self, s: u32, c: u32) -> Frac
        requires state { s < states_of self.model.now }
        requires choice { c < length (choices_at self.model.now s) }
        ensures { result ≡ earns self.entry.model.now (plain_objective self.entry.objective) s c }
    {
        match self.objective {
            Objective::Until(_, _) => Frac::whole(0),
            Objective::Total(name) => self.model.reward(name, s, c),
        }
    }

    /// The choices of state `s` in whole numbers.
    fn scaled_state<'b>(
        self,
        alloc: Global,
        arenas: Arenas<'b>,
        s: u32,
    ) -> Result<Choices<'b>, AllocError>
        requires state { s < states_of self.model.now }
        ensures { IfOk result (λ made. plain_choices made ≡ choices_of self.entry s) }
    {
        let mut choices = Vec::with_capacity(alloc, self.model.choices(s) as usize)?;
        for c in 0..self.model.choices(s) {
            let start = self.earns(s, c);
            choices.push(scaled(arenas, &start, self.model.row(s, c), self.one)?)?;
        }
        Choices::from_scaled(alloc, choices)
    }

    /// The choices of all states in whole numbers.
    pub(crate) fn scaled_states<'b>(
        self,
        alloc: Global,
        arenas: Arenas<'b>,
    ) -> Result<Vec<Choices<'b>>, AllocError>
        ensures { IfOk result (λ rows. AreOf self.entry.one self.entry.model.now (plain_objective self.entry.objective) rows.items) }
    {
        let mut rows = Vec::with_capacity(alloc, self.model.states() as usize)?;
        for s in 0..self.model.states() {
            rows.push(self.scaled_state(alloc, arenas, s)?)?;
        }
        Ok(rows)
    }

    /// The values of all states with no step left.
    pub(crate) fn end_column(self, alloc: Global) -> Result<Column, AllocError>
        ensures { IfOk result (λ column. values_of column ≡ for_query self.entry end_column) }
    {
        let mut column = Column::with_capacity(alloc, self.model.states() as usize)?;
        for s in 0..self.model.states() {
            column.push(alloc, Some(self.ended(s)))?;
        }
        Ok(column)
    }

    /// The covering value of state `s`, from the column with a step less.
    fn cover_at(self, choices: &Choices<'_>, column: &Column, s: u32) -> Option<i128>
        requires state { s < states_of self.model.now }
        requires choices { plain_choices choices.now ≡ choices_of self s }
        requires column { length (values_of column.now) ≡ states_of self.model.now }
        ensures { result ≡ for_query self.entry cover_at (values_of column.now) s }
    {
        self.model.known();
        match self.stopped(s) {
            Some(value) => Some(value),
            None => covered(self.dir, column, choices),
        }
    }

    /// The following value of state `s`, from the column with a step less, and its choice.
    fn follow_at(self, choices: &Choices<'_>, column: &Column, s: u32) -> Leader
        requires state { s < states_of self.model.now }
        requires choices { plain_choices choices.now ≡ choices_of self s }
        requires column { length (values_of column.now) ≡ states_of self.model.now }
        ensures { result ≡ for_query self.entry follow_at (values_of column.now) s }
    {
        self.model.known();
        let count = self.model.choices(s);
        match self.stopped(s) {
            Some(value) => Leader {
                value: Some(value),
                choice: 0,
            },
            None => followed(self.dir, column, choices, count),
        }
    }

    /// The columns with one step more.
    pub(crate) fn next(
        self,
        alloc: Global,
        rows: &[Choices<'_>],
        cover: &Column,
        follow: &Column,
    ) -> Result<Columns, AllocError>
        requires rows { AreOf self.one self.model.now (plain_objective self.objective) rows.now }
        requires cover { length (values_of cover.now) ≡ states_of self.model.now }
        requires follow { length (values_of follow.now) ≡ states_of self.model.now }
        ensures cover { IfOk result (λ made. values_of made.cover ≡ for_query self.entry cover_next (values_of cover.now)) }
        ensures follow { IfOk result (λ made. values_of made.follow ≡ for_query self.entry follow_next (values_of follow.now)) }
        ensures choices { IfOk result (λ made. made.choices.items ≡ for_query self.entry choices_next (values_of follow.now)) }
    {
        let states = self.model.states() as usize;
        let mut made = Columns {
            cover: Column::with_capacity(alloc, states)?,
            follow: Column::with_capacity(alloc, states)?,
            choices: Vec::with_capacity(alloc, states)?,
        };
        for s in 0..self.model.states() {
            let choices = &rows[s as usize];
            let leader = self.follow_at(choices, follow, s);
            made.cover.push(alloc, self.cover_at(choices, cover, s))?;
            made.follow.push(alloc, leader.value)?;
            made.choices.push(leader.choice)?;
        }
        Ok(made)
    }
}
