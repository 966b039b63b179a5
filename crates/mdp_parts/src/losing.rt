ghost use Rattle.std.specs.{Prelude.{◌≡◌, ◌<◌, ◌≤◌, ◌+◌, ℕ, false, true, map, length, IfOk, OnOk}, List.{All, range_with_len}};
ghost use Rattle.mdp_spec.specs.Mdp.{states_of};
ghost use Rattle.mdp_rows.specs.Preds.{preds_to};
ghost use Rattle.mdp_ends.proofs.Existing.{total_below};
ghost use Rattle.mdp_parts.specs.{Allowed.{allowed_at, AreChoices}, Losing.{IsPruned, AreLosing}, Region.{is_in, IsRegion, IsClosed}};

use crate::allowed::Allowed;
use crate::region::Region;
use mdp_rows::{Model, Preds};
use std::alloc::{AllocError, Global};

/// The least choice of state `s` from `from` on that is allowed; the number of its choices where there is none.
fn first_allowed(model: &Model, allowed: &Allowed, s: u32, from: u32) -> u32
    requires state { s < states_of model.now }
    requires allowed { AreChoices model.now allowed.now }
    ensures { (c : ℕ) → c < result → from ≤ c → allowed_at allowed.now s c ≡ false }
{
    let count = model.choices(s);
    for c in from..count {
        if allowed.at(s, c) {
            return c;
        }
    }
    count
}

/// How much the first search from a state may look at, and how many times as much the next one.
const FIRST_LIMIT: usize = 16;

const GROWTH: usize = 4;

/// A state that lost a choice and has others, and how much a search from it may look at.
#[derive(Clone, Copy)]
pub(crate) struct Seed {
    pub state: u32,
    pub limit: usize,
}

/// The states that lost choices, as long as the choices that lead to them, or to what they lead to, weren't looked at.
#[derive(Drop)]
pub(crate) struct Losing {
    /// For each state a number below which none of its choices is allowed.
    pub first: Vec<u32>,
    /// The states without an allowed choice that are still to be looked at.
    pub lost: Vec<u32>,
    /// The others, also those that were searched from.
    pub seeds: Vec<Seed>,
}

impl Losing {
    /// Puts state `s` to those that are lost, where no choice of it is allowed, and else to the others.
    fn look_at(&mut self, model: &Model, allowed: &Allowed, s: u32) -> Result<(), AllocError>
        requires state { s < states_of model.now }
        requires allowed { AreChoices model.now allowed.now }
        requires losing { AreLosing model.now allowed.now self.old.first.items self.old.lost.items self.old.seeds.items }
        ensures losing { OnOk result (AreLosing model.now allowed.now self.new.first.items self.new.lost.items self.new.seeds.items) }
        ensures more { OnOk result (length self.new.lost.items ≤ length self.old.lost.items + 1) }
    {
        let first = first_allowed(model, allowed, s, self.first[s as usize]);
        self.first[s as usize] = first;
        if first == model.choices(s) {
            self.lost.push(s)?;
        } else {
            self.seeds.push(Seed {
                state: s,
                limit: FIRST_LIMIT,
            })?;
        }
        Ok(())
    }

    /// The states that lost a choice.
    fn of(
        alloc: Global,
        model: &Model,
        allowed: &Allowed,
        changed: &[u32],
    ) -> Result<Losing, AllocError>
        requires allowed { AreChoices model.now allowed.now }
        requires changed { All (λ s. s < states_of model.now) changed.now }
        ensures { IfOk result (λ losing. AreLosing model.now allowed.now losing.first.items losing.lost.items losing.seeds.items) }
    {
        let mut losing = Losing {
            first: vec![in alloc; 0; model.states() as usize]?,
            lost: Vec::new(alloc),
            seeds: Vec::new(alloc),
        };
        for s in changed {
            losing.look_at(model, allowed, *s)?;
        }
        Ok(losing)
    }

    /// Forbids the choices that lead from outside to state `t` of a set that no allowed choice leaves.
    fn forbid_into(
        &mut self,
        model: &Model,
        preds: &Preds,
        allowed: &mut Allowed,
        region: &Region,
        t: u32,
    ) -> Result<(), AllocError>
        requires state { t < states_of model.now }
        requires preds { preds.now ≡ map (preds_to model.now) (range_with_len 0 (states_of model.now)) }
        requires allowed { AreChoices model.now allowed.old }
        requires region { length region.now.places.items ≡ states_of model.now }
        requires inside { is_in region.now.places.items region.now.list.items t ≡ true }
        requires closed { IsClosed model.now allowed.old (is_in region.now.places.items region.now.list.items) }
        requires losing { AreLosing model.now allowed.old self.old.first.items self.old.lost.items self.old.seeds.items }
        ensures pruned { OnOk result (IsPruned model.now allowed.old allowed.new) }
        ensures losing { OnOk result (AreLosing model.now allowed.new self.new.first.items self.new.lost.items self.new.seeds.items) }
        ensures less { OnOk result (total_below model.now (allowed_at allowed.new) (states_of model.now) + length
            self.new.lost.items ≤ total_below model.now (allowed_at allowed.old) (states_of model.now) + length self.old.lost.items) }
    {
        model.known();
        for pred in preds.of(t) {
            if !region.has(pred.state) && allowed.at(pred.state, pred.choice) {
                allowed.set(pred.state, pred.choice, false);
                self.look_at(model, allowed, pred.state)?;
            }
        }
        Ok(())
    }

    /// Forbids the choices that lead into a set from outside, where no allowed choice leaves it.
    fn forbid_entering(
        &mut self,
        model: &Model,
        preds: &Preds,
        allowed: &mut Allowed,
        region: &Region,
    ) -> Result<(), AllocError>
        requires preds { preds.now ≡ map (preds_to model.now) (range_with_len 0 (states_of model.now)) }
        requires allowed { AreChoices model.now allowed.old }
        requires region { IsRegion (states_of model.now) region.now.places.items region.now.list.items }
        requires closed { IsClosed model.now allowed.old (is_in region.now.places.items region.now.list.items) }
        requires losing { AreLosing model.now allowed.old self.old.first.items self.old.lost.items self.old.seeds.items }
        ensures pruned { OnOk result (IsPruned model.now allowed.old allowed.new) }
        ensures losing { OnOk result (AreLosing model.now allowed.new self.new.first.items self.new.lost.items self.new.seeds.items) }
    {
        for t in &region.list {
            self.forbid_into(model, preds, allowed, region, *t)?;
        }
        Ok(())
    }

    /// Forbids the choices that lead to a state without an allowed choice, until there are none. Each state and each entry is looked at once.
    fn forbid_losing(
        &mut self,
        model: &Model,
        preds: &Preds,
        allowed: &mut Allowed,
        region: &mut Region,
    ) -> Result<(), AllocError>
        requires preds { preds.now ≡ map (preds_to model.now) (range_with_len 0 (states_of model.now)) }
        requires allowed { AreChoices model.now allowed.old }
        requires region { length region.old.places.items ≡ states_of model.now }
        requires losing { AreLosing model.now allowed.old self.old.first.items self.old.lost.items self.old.seeds.items }
        ensures pruned { OnOk result (IsPruned model.now allowed.old allowed.new) }
        ensures losing { OnOk result (AreLosing model.now allowed.new self.new.first.items self.new.lost.items self.new.seeds.items) }
        ensures region { OnOk result (length region.new.places.items ≡ states_of model.now) }
    {
        while let Some(t) = self.lost.pop() {
            region.set_to(t)?;
            self.forbid_into(model, preds, allowed, region, t)?;
        }
        Ok(())
    }

    /// Searches from a state. Where few states are found and no allowed choice leaves them, the choices that lead to them are forbidden; else there
    /// is to be a longer search.
    fn search_from(
        &mut self,
        model: &Model,
        preds: &Preds,
        allowed: &mut Allowed,
        region: &mut Region,
        seed: Seed,
    ) -> Result<(), AllocError>
        requires state { seed.state < states_of model.now }
        requires preds { preds.now ≡ map (preds_to model.now) (range_with_len 0 (states_of model.now)) }
        requires allowed { AreChoices model.now allowed.old }
        requires region { length region.old.places.items ≡ states_of model.now }
        requires losing { AreLosing model.now allowed.old self.old.first.items self.old.lost.items self.old.seeds.items }
        ensures pruned { OnOk result (IsPruned model.now allowed.old allowed.new) }
        ensures losing { OnOk result (AreLosing model.now allowed.new self.new.first.items self.new.lost.items self.new.seeds.items) }
        ensures region { OnOk result (length region.new.places.items ≡ states_of model.now) }
    {
        if region.gather(model, allowed, seed.state, seed.limit)? {
            self.forbid_entering(model, preds, allowed, region)?;
            return self.forbid_losing(model, preds, allowed, region);
        }
        self.seeds.push(Seed {
            state: seed.state,
            limit: seed.limit.saturating_mul(GROWTH),
        })?;
        Ok(())
    }

    /// Searches from each state that lost a choice, until so much was looked at.
    fn search_each(
        &mut self,
        model: &Model,
        preds: &Preds,
        allowed: &mut Allowed,
        region: &mut Region,
        budget: usize,
    ) -> Result<(), AllocError>
        requires preds { preds.now ≡ map (preds_to model.now) (range_with_len 0 (states_of model.now)) }
        requires allowed { AreChoices model.now allowed.old }
        requires region { length region.old.places.items ≡ states_of model.now }
        requires losing { AreLosing model.now allowed.old self.old.first.items self.old.lost.items self.old.seeds.items }
        ensures pruned { OnOk result (IsPruned model.now allowed.old allowed.new) }
        ensures losing { OnOk result (AreLosing model.now allowed.new self.new.first.items self.new.lost.items self.new.seeds.items) }
    {
        let mut spent: usize = 0;
        for next in 0..budget {
            if next >= self.seeds.len() || spent >= budget {
                break;
            }
            let seed = self.seeds[next];
            self.search_from(model, preds, allowed, region, seed)?;
            spent = spent.saturating_add(region.work);
        }
        Ok(())
    }
}

/// Forbids choices that lead into sets of states which no allowed choice leaves, as nothing leads back from there: into the states without an allowed
/// choice, and into small sets that searches forward from the states that lost a choice find.
///
/// A search that finds too much is put off, and may look at four times as much the next time, so that small sets are found first (Chatterjee and
/// Henzinger 2014 search from all these states in lockstep). All searches together look at about as much as the model has choices and states.
pub(crate) fn forbid_closed(
    alloc: Global,
    model: &Model,
    preds: &Preds,
    allowed: &mut Allowed,
    changed: &[u32],
) -> Result<(), AllocError>
    requires preds { preds.now ≡ map (preds_to model.now) (range_with_len 0 (states_of model.now)) }
    requires allowed { AreChoices model.now allowed.old }
    requires changed { All (λ s. s < states_of model.now) changed.now }
    ensures { OnOk result (IsPruned model.now allowed.old allowed.new) }
{
    let mut region = Region::empty(alloc, model.states())?;
    let mut losing = Losing::of(alloc, model, allowed, changed)?;
    losing.forbid_losing(model, preds, allowed, &mut region)?;
    let budget = (model.all_choices() as usize).saturating_add(model.states() as usize);
    losing.search_each(model, preds, allowed, &mut region, budget)?;
    Ok(())
}
