ghost use Rattle.std.specs.{Prelude.{ℕ, ◌≡◌, ◌≢◌, ◌<◌, ◌+◌, ◌++◌, ◌∷◌, [], length, Some, None, OnOk, OnErr, IfOk, pos}, List.{All}};
ghost use Rattle.mdp_math.specs.Rational.{of_int};
ghost use Rattle.mdp_spec.specs.Written.{written_sum};
ghost use Rattle.mdp_elim.specs.{Entries.{Between, entry_to}, Equation.{no_equation}};
ghost use Rattle.mdp_elim.specs.Elimination.{divided, divided_rest, plus_equation, substituted, evaluated};

use crate::entries::{Term, add_row, divide_row, row_sum, take_entry};
use crate::errors::StepError;
use crate::sums::{plus_times, quotient};
use bumpalo::Bump;
use mdp_num::{Frac, Wide};
use mdp_wide::Unfinished;
use std::alloc::{AllocError, AllocFailed, Global};
use std::marker::Model;

/// The value of a state is a constant, and the sum of the entries' factors times the values of their targets. There are two constants, for two
/// systems with the same entries.
#[derive(Drop)]
pub(crate) struct Equation {
    entries: Vec<Term>,
    first: Frac,
    second: Frac,
}

impl Model for Equation {
    ghost use Rattle.mdp_elim.specs.Equation as spec;
    ghost use Rattle.mdp_elim.specs.Code.{equation_code};

    ghost Value = { spec.Equation };

    ghost coded = { equation_code };

    ghost view = { λ e. record { entries = e.entries.items; first = e.first; second = e.second } };
}

/// The equation of an eliminated state, with its final entries in an arena.
#[derive(Drop)]
pub(crate) struct Solved<'a> {
    entries: &'a [Term],
    first: Frac,
    second: Frac,
}

impl<'a> Model for Solved<'a> {
    ghost use Rattle.mdp_elim.specs.Equation as spec;
    ghost use Rattle.mdp_elim.specs.Code.{equation_code};

    ghost Value = { spec.Equation };

    ghost coded = { equation_code };

    ghost view = { λ e. record { entries = e.entries.now; first = e.first; second = e.second } };
}

/// The equation of an eliminated state that is kept, and may be solved again, with room for its entries in an arena.
#[derive(Drop)]
pub(crate) struct KeptEquation<'a> {
    entries: Vec<Term, &'a Bump>,
    first: Frac,
    second: Frac,
}

impl<'a> Model for KeptEquation<'a> {
    ghost use Rattle.mdp_elim.specs.Equation as spec;
    ghost use Rattle.mdp_elim.specs.Code.{equation_code};

    ghost Value = { spec.Equation };

    ghost coded = { equation_code };

    ghost view = { λ e. record { entries = e.entries.items; first = e.first; second = e.second } };
}

impl<'a> KeptEquation<'a> {
    /// The equation of a value that is 0, without room in the arena yet.
    pub(crate) fn none(arena: &'a Bump) -> KeptEquation<'a>
        ensures { result ≡ no_equation }
    {
        KeptEquation {
            entries: Vec::new(arena),
            first: Frac::whole(0),
            second: Frac::whole(0),
        }
    }

    /// Keeps this equation in place of the one before, in the room of that one where it is long enough.
    pub(crate) fn put(&mut self, equation: &Equation) -> Result<(), AllocError>
        ensures { OnOk result (self.new ≡ equation.now) }
    {
        self.entries.clear();
        self.entries.extend_from_slice(&equation.entries)?;
        self.first = equation.first;
        self.second = equation.second;
        Ok(())
    }

    /// The same equation, with its entries as a slice of this one.
    pub(crate) fn lent(&self) -> Solved<'_>
        ensures { result ≡ self.now }
    {
        Solved {
            entries: &self.entries,
            first: self.first,
            second: self.second,
        }
    }
}

impl Solved<'_> {
    /// The entries, which lead to smaller states.
    pub(crate) fn entries(&self) -> &[Term]
        ensures { result.now ≡ self.now.entries }
    {
        self.entries
    }

    /// The value of the state in both systems, by the values of smaller states.
    pub(crate) fn sums(&self, first: &[Frac], second: &[Frac]) -> Result<(Frac, Frac), StepError>
        requires { All (λ x. (x.target < length first.now) × (x.target < length second.now)) self.now.entries }
        ensures first { IfOk result (λ v. written_sum first.now self.now.first self.now.entries ≡ Some v.0) }
        ensures second { IfOk result (λ v. written_sum second.now self.now.second self.now.entries ≡ Some v.1) }
        ensures wide { result ≡ Err (Unfinished.TooWide tt) → evaluated self.now (record { first = first.now; second = second.now }) ≡ None }
    {
        let x = row_sum(self.entries, &self.first, first)?;
        let y = row_sum(self.entries, &self.second, second)?;
        Ok((x, y))
    }
}

impl Equation {
    /// An equation of these entries and constants.
    pub(crate) fn new(entries: Vec<Term>, first: Frac, second: Frac) -> Equation
        ensures { result ≡ record { entries = entries.items; first = first; second = second } }
    {
        Equation {
            entries,
            first,
            second,
        }
    }

    /// The equation of a value that is 0.
    pub(crate) fn none(alloc: Global) -> Equation
        ensures { result ≡ no_equation }
    {
        Equation::new(Vec::new(alloc), Frac::whole(0), Frac::whole(0))
    }

    /// The entries.
    pub(crate) fn entries(&self) -> &[Term]
        ensures { result.now ≡ self.now.entries }
    {
        &self.entries
    }

    /// One more entry, behind the others.
    pub(crate) fn push(&mut self, term: Term) -> Result<(), AllocFailed<Term>>
        ensures { OnOk result (self.new ≡ record { entries = self.old.entries ++ term ∷ []; first = self.old.first; second = self.old.second }) }
    {
        self.entries.push(term)
    }

    /// Divides by 1 less the entry `own`, which was taken out.
    fn divide_by(&mut self, own: &Frac) -> Result<(), Wide>
        requires { own.now ≢ of_int (pos 1) }
        ensures ok { OnOk result (divided_rest own.now self.old ≡ Some self.new) }
        ensures wide { OnErr result (divided_rest own.now self.old ≡ None) }
    {
        let divisor = Frac::whole(1).sub(own)?;
        divide_row(&mut self.entries, &divisor)?;
        let first = quotient(&self.first, &divisor)?;
        let second = quotient(&self.second, &divisor)?;
        self.first = first;
        self.second = second;
        Ok(())
    }

    /// Solves the equation of state `s` for its value.
    pub(crate) fn divide(&mut self, s: u32) -> Result<(), Wide>
        requires below { Between 0 (s + 1) self.old.entries }
        requires other { entry_to s self.old.entries ≢ Some (of_int (pos 1)) }
        ensures ok { OnOk result (divided s self.old ≡ Some self.new) }
        ensures wide { OnErr result (divided s self.old ≡ None) }
    {
        match take_entry(&mut self.entries, s) {
            Some(own) => self.divide_by(&own),
            None => Ok(()),
        }
    }

    /// The same equation, with its entries as a slice of the arena.
    pub(crate) fn settle<'a>(&self, arena: &'a Bump) -> Result<Solved<'a>, AllocError>
        ensures { IfOk result (λ e. e ≡ self.now) }
    {
        let entries = arena.try_alloc_slice_copy(&self.entries)?;
        Ok(Solved {
            entries,
            first: self.first,
            second: self.second,
        })
    }

    /// Adds so many times another equation.
    fn plus(&mut self, alloc: Global, times: &Frac, other: &Solved<'_>) -> Result<(), StepError>
        requires ascend { (high : ℕ) × Between 0 high self.old.entries }
        requires other { (high : ℕ) × Between 0 high other.now.entries }
        ensures ok { OnOk result (plus_equation times.now other.now self.old ≡ Some self.new) }
        ensures wide { result ≡ Err (Unfinished.TooWide tt) → plus_equation times.now other.now self.old ≡ None }
    {
        add_row(alloc, &mut self.entries, times, other.entries)?;
        let first = plus_times(&self.first, times, &other.first)?;
        let second = plus_times(&self.second, times, &other.second)?;
        self.first = first;
        self.second = second;
        Ok(())
    }

    /// Puts the equation of state `s` in the place of the entry to `s`.
    pub(crate) fn substitute(
        &mut self,
        alloc: Global,
        pivot: &Solved<'_>,
        s: u32,
    ) -> Result<(), StepError>
        requires below { Between 0 (s + 1) self.old.entries }
        requires pivot { Between 0 s pivot.now.entries }
        ensures ok { OnOk result (substituted s pivot.now self.old ≡ Some self.new) }
        ensures wide { result ≡ Err (Unfinished.TooWide tt) → substituted s pivot.now self.old ≡ None }
    {
        match take_entry(&mut self.entries, s) {
            Some(times) => self.plus(alloc, &times, pivot),
            None => Ok(()),
        }
    }
}

/// Appends the value of the next state to the values of the states before it, in both systems.
pub(crate) fn evaluate(
    equation: &Solved<'_>,
    first: &mut Vec<Frac>,
    second: &mut Vec<Frac>,
) -> Result<(), StepError>
    requires { All (λ x. (x.target < length first.old.items) × (x.target < length second.old.items)) equation.now.entries }
    ensures more { OnOk result ((length first.new.items ≡ length first.old.items + 1) × (length second.new.items ≡ length second.old.items + 1)) }
    ensures ok { OnOk result (evaluated equation.now (record { first = first.old.items; second = second.old.items })
        ≡ Some (record { first = first.new.items; second = second.new.items })) }
    ensures wide { result ≡ Err (Unfinished.TooWide tt) → evaluated equation.now (record { first = first.old.items; second = second.old.items })
        ≡ None }
{
    let (x, y) = equation.sums(first, second)?;
    first.push(x)?;
    second.push(y)?;
    Ok(())
}
