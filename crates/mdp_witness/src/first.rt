ghost use Rattle.std.specs.Prelude.{◌≡◌, ◌<◌, [], ◌∷◌, ◌++◌, false, length, fold, replicate, IfOk, OnOk, IfSome, IfNone};
ghost use Rattle.std.specs.List.{All, range_with_len};
ghost use Rattle.mdp_spec.specs.{Mdp.{states_of, choices_at}, Tree.{IsPolicy}};
ghost use Rattle.mdp_witness.specs.{First.{is_open, IsFirst}, FrontCode.{with_state, with_states, with_choice, with_next}};

use mdp_num::{Frac, Memory};
use mdp_rows::{Dir, Marks, Model};
use std::alloc::{AllocError, Global};

/// Where the first set is looked for: an answered query of reachability. The open states are those that aren't goals and have a value above 0.
#[derive(Clone, Copy)]
pub struct Query<'m, 'g, 'v, 'p> {
    /// Whether the greatest or the least probability is asked for.
    pub dir: Dir,
    /// The model.
    pub model: &'m Model,
    /// Whether each state is a goal, one mark per state.
    pub goals: &'g Marks,
    /// The best probability from each state, one per state.
    pub values: &'v [Frac],
    /// The choice of each state, one per state.
    pub policy: &'p [u32],
    ghost goals_each: { length goals.now ≡ states_of model.now },
    ghost values_each: { length values.now ≡ states_of model.now },
    ghost chosen: { IsPolicy model.now policy.now },
}

/// The states that are found, and those of them whose successors haven't been looked at.
#[derive(Drop)]
struct Front {
    found: Marks,
    waiting: Vec<u32>,
}

impl std::marker::Model for Front {
    ghost use Rattle.mdp_witness.specs.FrontCode.{Front};

    ghost Value = { Front };

    ghost view = { λ f. record { found = f.found; waiting = f.waiting.items } };
}

impl Front {
    /// No state is found.
    fn empty(alloc: Global, states: u32) -> Result<Front, Memory>
        ensures found { IfOk result (λ front. front.found ≡ replicate states false) }
        ensures waiting { IfOk result (λ front. front.waiting ≡ []) }
    {
        Ok(Front {
            found: Marks::empty(alloc, states)?,
            waiting: Vec::new(alloc),
        })
    }

    /// The next state to be looked at, which waits no longer.
    fn next(&mut self) -> Option<u32>
        ensures found { self.new.found ≡ self.old.found }
        ensures last { IfSome result (λ s. self.old.waiting ≡ self.new.waiting ++ s ∷ []) }
        ensures none { IfNone result (self.old.waiting ≡ []) }
    {
        self.waiting.pop()
    }

    /// The states that were found.
    fn into_found(self) -> Marks
        ensures { result ≡ self.found }
    {
        self.found
    }
}

impl Query<'_, '_, '_, '_> {
    /// Whether state `s` is no goal and has a value above 0.
    fn is_open(&self, s: u32) -> bool
        requires { s < states_of self.now.model.now }
        ensures { result ≡ is_open self.now.goals.now self.now.values.now s }
    {
        !self.goals.at(s) && self.values[s as usize].sign() > 0
    }

    /// Finds state `t`, where it is open.
    fn find(&self, front: &mut Front, t: u32) -> Result<(), AllocError>
        requires state { t < states_of self.now.model.now }
        requires found { length front.old.found ≡ states_of self.now.model.now }
        ensures found { OnOk result (front.new ≡ with_state self.now.goals.now self.now.values.now front.old t) }
        ensures count { OnOk result (length front.new.found ≡ states_of self.now.model.now) }
    {
        if self.is_open(t) && !front.found.at(t) {
            front.found.set(t, true);
            front.waiting.push(t)?;
        }
        Ok(())
    }

    /// Finds each of the open targets.
    fn find_each(&self, front: &mut Front, targets: &[u32]) -> Result<(), AllocError>
        requires targets { All (λ t. t < states_of self.now.model.now) targets.now }
        requires found { length front.old.found ≡ states_of self.now.model.now }
        ensures found { OnOk result (front.new ≡ with_states self.now.goals.now self.now.values.now front.old targets.now) }
        ensures count { OnOk result (length front.new.found ≡ states_of self.now.model.now) }
    {
        for t in targets {
            self.find(front, *t)?;
        }
        Ok(())
    }

    /// Finds the open targets of choice `c` of state `s`.
    fn find_by(&self, front: &mut Front, s: u32, c: u32) -> Result<(), AllocError>
        requires state { s < states_of self.now.model.now }
        requires choice { c < length (choices_at self.now.model.now s) }
        requires found { length front.old.found ≡ states_of self.now.model.now }
        ensures found { OnOk result (front.new ≡ with_choice self.now.model.now self.now.goals.now self.now.values.now s front.old c) }
        ensures count { OnOk result (length front.new.found ≡ states_of self.now.model.now) }
    {
        let row = self.model.row(s, c);
        self.find_each(front, row.targets)?;
        Ok(())
    }

    /// Finds the open targets of all choices of state `s`.
    fn find_by_all(&self, front: &mut Front, s: u32) -> Result<(), AllocError>
        requires state { s < states_of self.now.model.now }
        requires found { length front.old.found ≡ states_of self.now.model.now }
        ensures found { OnOk result (front.new ≡ fold (with_choice self.now.model.now self.now.goals.now self.now.values.now s) front.old
            (range_with_len 0 (length (choices_at self.now.model.now s)))) }
        ensures count { OnOk result (length front.new.found ≡ states_of self.now.model.now) }
    {
        for c in 0..self.model.choices(s) {
            self.find_by(front, s, c)?;
        }
        Ok(())
    }

    /// Finds the open successors of state `s`: for the greatest probability by the policy's choice, for the least one by each.
    fn find_next(&self, front: &mut Front, s: u32) -> Result<(), AllocError>
        requires state { s < states_of self.now.model.now }
        requires found { length front.old.found ≡ states_of self.now.model.now }
        ensures found { OnOk result (front.new ≡ with_next self.now.dir self.now.model.now self.now.goals.now self.now.values.now
            self.now.policy.now front.old s) }
        ensures count { OnOk result (length front.new.found ≡ states_of self.now.model.now) }
    {
        match self.dir {
            Dir::Max => self.find_by(front, s, self.policy[s as usize]),
            Dir::Min => self.find_by_all(front, s),
        }
    }

    /// The first set: the open states that are reached from `start` through open states, for the greatest probability by the policy's choices, for
    /// the least one by all; one mark per state. Each state is looked at once. Fails where memory is refused.
    pub fn first_set(&self, alloc: Global, start: u32) -> Result<Marks, Memory>
        requires start { start < states_of self.now.model.now }
        ensures first { IfOk result (λ first. IsFirst self.now.dir self.now.model.now self.now.goals.now self.now.values.now self.now.policy.now
            start first) }
    {
        self.model.known();
        let mut front = Front::empty(alloc, self.model.states())?;
        self.find(&mut front, start)?;
        while let Some(s) = front.next() {
            self.find_next(&mut front, s)?;
        }
        Ok(front.into_found())
    }
}
