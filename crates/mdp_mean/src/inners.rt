ghost use Rattle.std.specs.Prelude.{ℕ, ◌≡◌, ◌<◌, length, slice_index, IfOk, OnOk};
ghost use Rattle.mdp_spec.specs.Mdp.{value_at};
ghost use Rattle.mdp_parts.specs.FoundEnds.{AreEndsOf};
ghost use Rattle.mdp_policy_iteration.specs.Queries.{Solves};
ghost use Rattle.mdp_gain.specs.{Best.{entry_of}, Query.{plain}};
ghost use Rattle.mdp_mean.specs.{Inners.{InnersEndSo}, Best.{AreBest}, PartsCode.{inners_in, IsEmpty, IsAdded}};

use mdp_gain::{Inner, members_of, solve_alone};
use mdp_num::Frac;
use mdp_parts::Ends;
use mdp_rows::{Dir, Model};
use mdp_wide::SolveError;
use std::alloc::{AllocError, Global};

/// The best gain of each end component, and for each state in one its bias and its choice, 0 for a state in none.
#[derive(Drop)]
pub(crate) struct Inners {
    pub(crate) gains: Vec<Frac>,
    pub(crate) bias: Vec<Frac>,
    pub(crate) choices: Vec<u32>,
}

/// Writes a bias for each of these states.
fn put_biases(values: &mut Vec<Frac>, states: &[u32], entries: &[Frac])
    requires entries { length entries.now ≡ length states.now }
    requires states { (k : ℕ) → k < length states.now → slice_index states.now k < length values.old.items }
    ensures count { length values.new.items ≡ length values.old.items }
    ensures put { (s : ℕ) → value_at values.new.items s ≡ entry_of (value_at values.old.items s) states.now entries.now s }
{
    for k in (0..states.len()).rev() {
        values[states[k] as usize] = entries[k];
    }
}

/// Writes a choice for each of these states.
fn put_choices(values: &mut Vec<u32>, states: &[u32], entries: &[u32])
    requires entries { length entries.now ≡ length states.now }
    requires states { (k : ℕ) → k < length states.now → slice_index states.now k < length values.old.items }
    ensures count { length values.new.items ≡ length values.old.items }
    ensures put { (s : ℕ) → slice_index values.new.items s ≡ entry_of (slice_index values.old.items s) states.now entries.now s }
{
    for k in (0..states.len()).rev() {
        values[states[k] as usize] = entries[k];
    }
}

impl Inners {
    /// No end component yet.
    fn none(alloc: Global, states: u32) -> Result<Inners, AllocError>
        ensures { IfOk result (λ x. IsEmpty states (inners_in x)) }
    {
        Ok(Inners {
            gains: Vec::new(alloc),
            bias: vec![in alloc; Frac::whole(0); states as usize]?,
            choices: vec![in alloc; 0; states as usize]?,
        })
    }

    /// One more end component.
    fn add(&mut self, found: &Inner) -> Result<(), AllocError>
        requires bias_each { length found.now.bias.items ≡ length found.now.states.items }
        requires choice_each { length found.now.choices.items ≡ length found.now.states.items }
        requires biases { (k : ℕ) → k < length found.now.states.items → slice_index found.now.states.items k < length self.old.bias.items }
        requires choices { (k : ℕ) → k < length found.now.states.items → slice_index found.now.states.items k < length self.old.choices.items }
        ensures { OnOk result (IsAdded (plain found.now) (inners_in self.old) (inners_in self.new)) }
    {
        put_biases(&mut self.bias, &found.states, &found.bias);
        put_choices(&mut self.choices, &found.states, &found.choices);
        self.gains.push(found.gain)?;
        Ok(())
    }
}

/// The best gains of all end components, or the first written term past width. One pass over all states sorts them into their end components.
pub(crate) fn all_inners(
    alloc: Global,
    model: &Model,
    ends: &Ends,
    m: u32,
    dir: Dir,
) -> Result<Inners, SolveError>
    requires ends { AreEndsOf model.now ends.now }
    requires name { m < length model.now.names }
    ensures path { Solves inners_in (InnersEndSo dir model.now ends.now.parts m) result }
    ensures best { IfOk result (λ x. AreBest dir model.now ends.now.parts m (inners_in x)) }
{
    model.known();
    let members = members_of(alloc, model, ends)?;
    let mut inners = Inners::none(alloc, model.states())?;
    for i in 0..ends.count() {
        let found = solve_alone(alloc, model, ends, &members, i, m, dir)?;
        inners.add(&found)?;
    }
    Ok(inners)
}
