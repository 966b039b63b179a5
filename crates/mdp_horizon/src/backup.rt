ghost use Rattle.std.specs.Prelude.{◌≡◌, ◌<◌, length, Some, None, IfOk, IfErr};
ghost use Rattle.mdp_spec.specs.Mdp.{states_of, choices_at};
ghost use Rattle.mdp_horizon.specs.{Objective.{stops, ending, earns}, Choices.{judged, sum_of_choice, compared}};
ghost use Rattle.mdp_horizon.specs.{Written.{best_choice, backup, backups, endings}, Code.{plain_objective, IsObjectiveOf, IsObjectiveOf-prop}};
ghost use Rattle.mdp_horizon.specs.Answer.{Answers, placed, shown, row_of};

use crate::error::{HorizonError, HorizonPlace};
use crate::objective::Objective;
use mdp_num::{Frac, Wide};
use mdp_rows::{Dir, Model};
use std::alloc::{AllocError, Global};

/// An objective on a model, and whether its greatest or its least values are wanted.
#[derive(Clone, Copy)]
pub(crate) struct Query<'a> {
    pub dir: Dir,
    pub model: &'a Model,
    pub objective: Objective<'a>,
    ghost fits: { IsObjectiveOf model.now (plain_objective objective) } by { IsObjectiveOf-prop model.now (plain_objective objective) },
}

/// The value of a state, and the choice that has it.
#[derive(Clone, Copy)]
pub(crate) struct Leader {
    pub value: Frac,
    pub choice: u32,
}

/// The values of all states, and their choices.
#[derive(Drop)]
pub(crate) struct Backups {
    pub values: Vec<Frac>,
    pub choices: Vec<u32>,
}

/// The leader after the sum of choice `c` has been compared with it.
fn judged(dir: Dir, c: u32, leader: Leader, sum: Frac) -> Result<Leader, Wide>
    ensures value { IfOk result (λ next. judged dir c (shown leader) sum ≡ Some (shown next)) }
    ensures wide { IfErr result (λ _. judged dir c (shown leader) sum ≡ None) }
{
    let order = sum.compare(&leader.value)?;
    if dir.is_better(order) {
        return Ok(Leader {
            value: sum,
            choice: c,
        });
    }
    Ok(leader)
}

/// What is computed for choice `c` of state `s`, with `depth` steps left.
fn placed<T>(step: Result<T, Wide>, depth: u32, s: u32, c: u32) -> Result<T, HorizonError>
    ensures { result ≡ placed depth s c step }
{
    match step {
        Ok(value) => Ok(value),
        Err(Wide) => Err(HorizonError::TooWide(HorizonPlace {
            depth,
            state: s,
            choice: c,
        })),
    }
}

impl Query<'_> {
    ghost use Rattle.mdp_horizon.specs.Queries.{for_exact};

    /// What choice `c` of state `s` earns at once.
    fn earns(self, s: u32, c: u32) -> Frac
        requires state { s < states_of self.model.now }
        requires choice { c < length (choices_at self.model.now s) }
        ensures { result ≡ earns self.entry.model.now (plain_objective self.entry.objective) s c }
    {
        match self.objective {
            Objective::Until(_, _) => Frac::whole(0),
            Objective::Total(name) => self.model.reward(name, s, c),
        }
    }

    /// The value of state `s`, where nothing more happens there.
    fn stops(self, s: u32) -> Option<Frac>
        requires { s < states_of self.model.now }
        ensures { result ≡ stops self.entry.model.now (plain_objective self.entry.objective) s }
    {
        match self.objective {
            Objective::Until(stay, goals) => {
                if goals.at(s) {
                    Some(Frac::whole(1))
                } else if stay.at(s) {
                    None
                } else {
                    Some(Frac::whole(0))
                }
            }
            Objective::Total(_) => None,
        }
    }

    /// The value of state `s` with no step left.
    fn ending(self, s: u32) -> Frac
        requires { s < states_of self.model.now }
        ensures { result ≡ ending self.entry.model.now (plain_objective self.entry.objective) s }
    {
        match self.objective {
            Objective::Until(_, goals) => {
                if goals.at(s) {
                    Frac::whole(1)
                } else {
                    Frac::whole(0)
                }
            }
            Objective::Total(_) => Frac::whole(0),
        }
    }

    /// The sum of choice `c` of state `s`: what it earns, and then by the values of the states behind it.
    fn sum(self, values: &[Frac], s: u32, c: u32) -> Result<Frac, Wide>
        requires state { s < states_of self.model.now }
        requires choice { c < length (choices_at self.model.now s) }
        requires values { length values.now ≡ states_of self.model.now }
        ensures value { IfOk result (λ sum. sum_of_choice self.entry.model.now (plain_objective self.entry.objective) values.now s c ≡ Some sum) }
        ensures wide { IfErr result (λ _. sum_of_choice self.entry.model.now (plain_objective self.entry.objective) values.now s c ≡ None) }
    {
        self.model.row(s, c).sum(&self.earns(s, c), values)
    }

    /// The leader after choice `c` of state `s` has been summed up and compared with it.
    fn compared(self, values: &[Frac], s: u32, c: u32, leader: Leader) -> Result<Leader, Wide>
        requires state { s < states_of self.model.now }
        requires choice { c < length (choices_at self.model.now s) }
        requires values { length values.now ≡ states_of self.model.now }
        ensures value { IfOk result (λ next. for_exact self.entry compared values.now s c (shown leader) ≡ Some (shown next)) }
        ensures wide { IfErr result (λ _. for_exact self.entry compared values.now s c (shown leader) ≡ None) }
    {
        let sum = self.sum(values, s, c)?;
        judged(self.dir, c, leader, sum)
    }

    /// The best choice of state `s` with `depth` steps left: the first one, or a later one that is strictly better than those before it.
    fn best_choice(self, values: &[Frac], depth: u32, s: u32) -> Result<Leader, HorizonError>
        requires state { s < states_of self.model.now }
        requires values { length values.now ≡ states_of self.model.now }
        ensures { Answers shown result (best_choice self.entry.dir self.entry.model.now (plain_objective self.entry.objective) depth values.now s) }
    {
        self.model.known();
        let mut leader = Leader {
            value: placed(self.sum(values, s, 0), depth, s, 0)?,
            choice: 0,
        };
        for c in 1..self.model.choices(s) {
            leader = placed(self.compared(values, s, c, leader), depth, s, c)?;
        }
        Ok(leader)
    }

    /// The value of state `s` with `depth` steps left, from the values with a step less, and its choice; choice 0 where none is taken.
    fn backup(self, values: &[Frac], depth: u32, s: u32) -> Result<Leader, HorizonError>
        requires state { s < states_of self.model.now }
        requires values { length values.now ≡ states_of self.model.now }
        ensures { Answers shown result (backup self.entry.dir self.entry.model.now (plain_objective self.entry.objective) depth values.now s) }
    {
        match self.stops(s) {
            Some(value) => Ok(Leader { value, choice: 0 }),
            None => self.best_choice(values, depth, s),
        }
    }

    /// The values of all states with `depth` steps left, from those with a step less, and their choices.
    pub(crate) fn backups(
        self,
        alloc: Global,
        values: &[Frac],
        depth: u32,
    ) -> Result<Backups, HorizonError>
        requires { length values.now ≡ states_of self.model.now }
        ensures { Answers row_of result (backups self.entry.dir self.entry.model.now (plain_objective self.entry.objective) depth values.now) }
    {
        let mut made = Backups {
            values: Vec::new(alloc),
            choices: Vec::new(alloc),
        };
        for s in 0..self.model.states() {
            let leader = self.backup(values, depth, s)?;
            made.values.push(leader.value)?;
            made.choices.push(leader.choice)?;
        }
        Ok(made)
    }

    /// The values of all states with no step left.
    pub(crate) fn endings(self, alloc: Global) -> Result<Vec<Frac>, AllocError>
        ensures { IfOk result (λ values. values.items ≡ endings self.entry.model.now (plain_objective self.entry.objective)) }
    {
        let mut values = Vec::new(alloc);
        for s in 0..self.model.states() {
            values.push(self.ending(s))?;
        }
        Ok(values)
    }
}
