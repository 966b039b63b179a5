ghost use Rattle.std.specs.{Prelude.{◌≡◌, ◌<◌, ℕ, true, [], length, slice_index, IfOk, OnOk}, List.{All}};
ghost use Rattle.mdp_spec.specs.Mdp.{states_of};
ghost use Rattle.mdp_parts.specs.{Allowed.{AreChoices}, Region.{is_in, IsRegion, IsGrown, IsClosedAt, IsClosed}};

use crate::allowed::Allowed;
use mdp_rows::Model;
use std::alloc::{AllocError, Global};

/// A set of states: a list of them, and for each state the place at which it stands there, if it does (Briggs and Torczon 1993). It takes no time
/// to empty it.
#[derive(Drop)]
pub(crate) struct Region {
    pub places: Vec<usize>,
    pub list: Vec<u32>,
    /// How many choices and entries were looked at since a search began.
    pub work: usize,
}

impl Region {
    /// No state.
    pub(crate) fn empty(alloc: Global, states: u32) -> Result<Region, AllocError>
        ensures { IfOk result (λ region. IsRegion states region.places.items region.list.items) }
    {
        Ok(Region {
            places: vec![in alloc; 0; states as usize]?,
            list: Vec::new(alloc),
            work: 0,
        })
    }

    /// Whether state `s` is in the set.
    pub(crate) fn has(&self, s: u32) -> bool
        requires { s < length self.now.places.items }
        ensures { result ≡ is_in self.now.places.items self.now.list.items s }
    {
        let place = self.places[s as usize];
        place < self.list.len() && self.list[place] == s
    }

    /// Adds state `s`.
    fn add(&mut self, s: u32) -> Result<(), AllocError>
        requires state { s < length self.old.places.items }
        requires region { IsRegion (length self.old.places.items) self.old.places.items self.old.list.items }
        ensures region { OnOk result (IsRegion (length self.old.places.items) self.new.places.items self.new.list.items) }
        ensures grown { OnOk result (IsGrown self.old.places.items self.old.list.items self.new.places.items self.new.list.items) }
        ensures added { OnOk result (is_in self.new.places.items self.new.list.items s ≡ true) }
    {
        if !self.has(s) {
            self.places[s as usize] = self.list.len();
            self.list.push(s)?;
        }
        Ok(())
    }

    /// Lets state `s` be the only one.
    pub(crate) fn set_to(&mut self, s: u32) -> Result<(), AllocError>
        requires state { s < length self.old.places.items }
        ensures region { OnOk result (IsRegion (length self.old.places.items) self.new.places.items self.new.list.items) }
        ensures has { OnOk result (is_in self.new.places.items self.new.list.items s ≡ true) }
        ensures only { OnOk result ((t : ℕ) → is_in self.new.places.items self.new.list.items t ≡ true → t ≡ s) }
    {
        self.list.clear();
        self.places[s as usize] = 0;
        self.list.push(s)?;
        Ok(())
    }

    /// Adds states.
    fn add_each(&mut self, states: &[u32]) -> Result<(), AllocError>
        requires states { All (λ t. t < length self.old.places.items) states.now }
        requires region { IsRegion (length self.old.places.items) self.old.places.items self.old.list.items }
        ensures region { OnOk result (IsRegion (length self.old.places.items) self.new.places.items self.new.list.items) }
        ensures grown { OnOk result (IsGrown self.old.places.items self.old.list.items self.new.places.items self.new.list.items) }
        ensures added { OnOk result ((k : ℕ) → k < length states.now → is_in self.new.places.items self.new.list.items (slice_index states.now k)
            ≡ true) }
    {
        for t in states {
            self.add(*t)?;
        }
        Ok(())
    }

    /// Adds the states to which the allowed choices of state `s` lead. Whether these are all: it ends where more than `limit` was looked at.
    fn add_targets(
        &mut self,
        model: &Model,
        allowed: &Allowed,
        s: u32,
        limit: usize,
    ) -> Result<bool, AllocError>
        requires state { s < states_of model.now }
        requires allowed { AreChoices model.now allowed.now }
        requires region { IsRegion (states_of model.now) self.old.places.items self.old.list.items }
        ensures region { OnOk result (IsRegion (states_of model.now) self.new.places.items self.new.list.items) }
        ensures grown { OnOk result (IsGrown self.old.places.items self.old.list.items self.new.places.items self.new.list.items) }
        ensures closed { IfOk result (λ all. all ≡ true → IsClosedAt model.now allowed.now (is_in self.new.places.items self.new.list.items) s) }
    {
        model.known();
        for c in 0..model.choices(s) {
            self.work = self.work.saturating_add(1);
            if allowed.at(s, c) {
                let targets = model.row(s, c).targets;
                self.add_each(targets)?;
                self.work = self.work.saturating_add(targets.len());
            }
            if self.work > limit {
                return Ok(false);
            }
        }
        Ok(true)
    }

    /// Gathers the states that allowed choices lead to from state `s`, and `s`. Whether these are all, and not all states of the model: it ends
    /// where more than `limit` was looked at.
    pub(crate) fn gather(
        &mut self,
        model: &Model,
        allowed: &Allowed,
        s: u32,
        limit: usize,
    ) -> Result<bool, AllocError>
        requires state { s < states_of model.now }
        requires allowed { AreChoices model.now allowed.now }
        requires count { length self.old.places.items ≡ states_of model.now }
        ensures region { OnOk result (IsRegion (states_of model.now) self.new.places.items self.new.list.items) }
        ensures closed { IfOk result (λ all. all ≡ true → IsClosed model.now allowed.now (is_in self.new.places.items self.new.list.items)) }
    {
        model.known();
        self.work = 0;
        self.set_to(s)?;
        for next in 0..model.states() as usize {
            if next >= self.list.len() {
                return Ok(true);
            }
            let t = self.list[next];
            if !self.add_targets(model, allowed, t, limit)? {
                return Ok(false);
            }
        }
        Ok(false)
    }
}
