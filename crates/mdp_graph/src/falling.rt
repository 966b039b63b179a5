ghost use Rattle.std.specs.{Prelude.{◌≡◌, ◌<◌, ◌+◌, ◌==◌, ℕ, false, [], length, map, replicate, slice_index_or, IfOk}, List.{All, range_with_len}};
ghost use Rattle.mdp_spec.specs.Mdp.{states_of};
ghost use Rattle.mdp_graph.specs.{Sets.{marked}, Layers.{AreLeastRanks}, Choices.{plain_rank, AreLeast}};
ghost use Rattle.mdp_graph.specs.Sure.{inside_step, IsGreatestSure, stays_and_falls};
ghost use Rattle.mdp_graph.specs.{Rounds.{AreRounds}, Ranking.{unranked}, Waiting.{leading_to}};
ghost use Rattle.mdp_graph.specs.{Forest.{AreFrom, AreKnown, IsUncut, IsForest, AreWide, all_preds, IsAttaching}, Falling.{IsRound}};
ghost use Rattle.mdp_graph.specs.NextLayer.{AreLayers};

use crate::forest::{Way, attach_all, cut_below, cut_choices, found_ways, take_found, unattached};
use crate::layers::Layers;
use crate::pass::Pass;
use crate::rounds::rounds_outside;
use crate::sure::ranks_inside;
use mdp_num::Memory;
use mdp_rows::{Marks, Model, Preds};
use std::alloc::{AllocError, Global};

/// The states of a model, ascending.
fn all_states(alloc: Global, states: u32) -> Result<Vec<u32>, AllocError>
    ensures { IfOk result (λ all. all.items ≡ range_with_len 0 states) }
{
    let mut all = Vec::with_capacity(alloc, states as usize)?;
    for s in 0..states {
        all.push(s)?;
    }
    Ok(all)
}

/// Takes the ways away that use a choice with an entry to a state that fell, and those that lead over a state whose way is gone. Answers the
/// states whose way is gone.
fn cut_ways(
    alloc: Global,
    ways: &mut Vec<Option<Way>>,
    preds: &Preds,
    fell: &[u32],
) -> Result<Vec<u32>, AllocError>
    requires count { length preds.now ≡ length ways.old.items }
    requires from { (t : ℕ) → t < length preds.now → AreFrom (length ways.old.items) (slice_index_or preds.now t []) }
    requires below { All (λ t. t < length preds.now) fell.now }
    requires known { AreKnown preds.now ways.old.items }
    ensures { IfOk result (λ broken. IsUncut ways.old.items ways.new.items (leading_to preds.now fell.now) broken.items) }
{
    let first = cut_choices(alloc, ways, preds, fell)?;
    cut_below(alloc, ways, preds, first)
}

/// The states that fell so far, with their rounds as ranks, and a way to a goal for each that is left after the last round.
#[derive(Drop)]
struct Falling {
    pub layers: Layers,
    pub ways: Vec<Option<Way>>,
}

impl Falling {
    /// No state fell, and none has a way.
    fn new(alloc: Global, model: &Model) -> Result<Falling, Memory>
        ensures layers { IfOk result (λ falling. AreLayers model.now falling.layers.preds falling.layers.waiting falling.layers.ranks.items) }
        ensures none { IfOk result (λ falling. falling.layers.ranks.items ≡ replicate (states_of model.now) None) }
        ensures ways { IfOk result (λ falling. falling.ways.items ≡ replicate (states_of model.now) None) }
    {
        model.known();
        Ok(Falling {
            layers: Layers::new(alloc, model)?,
            ways: vec![in alloc; None; model.states() as usize]?,
        })
    }

    /// Gives the broken states ways, where they have some by choices that wait. Answers those that have none.
    fn attach(
        &mut self,
        alloc: Global,
        model: &Model,
        goals: &Marks,
        broken: &[u32],
    ) -> Result<Vec<u32>, AllocError>
        requires preds { self.old.layers.preds ≡ all_preds model.now }
        requires below { All (λ t. t < states_of model.now) broken.now }
        requires goals { length goals.now ≡ states_of model.now }
        requires wide { AreWide model.now self.old.layers.waiting }
        requires forest { IsForest model.now goals.now self.old.layers.waiting self.old.ways.items (λ _. false) }
        ensures layers { self.new.layers ≡ self.old.layers }
        ensures attaching { IfOk result (λ fell. IsAttaching model.now goals.now self.old.layers.waiting self.old.ways.items self.new.ways.items
            broken.now fell.items) }
    {
        let allowed = &self.layers.waiting;
        let found = found_ways(alloc, model, goals, allowed, &self.ways, broken)?;
        let first = take_found(alloc, goals, &mut self.ways, broken, &found)?;
        let preds = &self.layers.preds;
        attach_all(alloc, model, goals, allowed, &mut self.ways, preds, first)?;
        let fell = unattached(alloc, goals, &self.ways, broken)?;
        Ok(fell)
    }

    /// Finds a way for each state that has one. Answers the others.
    fn first(&mut self, alloc: Global, model: &Model, goals: &Marks) -> Result<Vec<u32>, AllocError>
        requires goals { length goals.now ≡ states_of model.now }
        requires layers { AreLayers model.now self.old.layers.preds self.old.layers.waiting self.old.layers.ranks.items }
        requires none { self.old.layers.ranks.items ≡ replicate (states_of model.now) None }
        requires ways { self.old.ways.items ≡ replicate (states_of model.now) None }
        ensures layers { IfOk result (λ fell. AreLayers model.now self.new.layers.preds self.new.layers.waiting self.new.layers.ranks.items) }
        ensures round { IfOk result (λ fell. IsRound model.now goals.now self.new.layers.ranks.items 0 self.new.layers.waiting self.new.ways.items
            fell.items) }
    {
        model.known();
        let all = all_states(alloc, model.states())?;
        let fell = self.attach(alloc, model, goals, &all)?;
        Ok(fell)
    }

    /// One more round: these states fall. Answers those that fall next.
    fn next(
        &mut self,
        alloc: Global,
        model: &Model,
        goals: &Marks,
        fell: &[u32],
        round: u32,
    ) -> Result<Vec<u32>, AllocError>
        requires goals { length goals.now ≡ states_of model.now }
        requires preds { self.old.layers.preds ≡ all_preds model.now }
        requires some { 0 < length fell.now }
        requires before { IsRound model.now goals.now self.old.layers.ranks.items round self.old.layers.waiting self.old.ways.items fell.now }
        ensures preds { IfOk result (λ next. self.new.layers.preds ≡ all_preds model.now) }
        ensures after { IfOk result (λ next. IsRound model.now goals.now self.new.layers.ranks.items
            (round + 1) self.new.layers.waiting self.new.ways.items next.items) }
        ensures fewer { IfOk result (λ next. unranked self.new.layers.ranks.items < unranked self.old.layers.ranks.items) }
    {
        model.known();
        self.layers.next(alloc, model, fell, round + 1)?;
        let broken = cut_ways(alloc, &mut self.ways, &self.layers.preds, fell)?;
        let later = self.attach(alloc, model, goals, &broken)?;
        Ok(later)
    }
}

/// For each state outside the greatest sure set the round in which it is removed, from 1 on.
pub(crate) fn falling_rounds(
    alloc: Global,
    model: &Model,
    goals: &Marks,
) -> Result<Vec<Option<u32>>, Memory>
    requires { length goals.now ≡ states_of model.now }
    ensures { IfOk result (λ rounds. AreRounds model.now goals.now (map plain_rank rounds.items)) }
{
    model.known();
    let mut falling = Falling::new(alloc, model)?;
    let mut fell = falling.first(alloc, model, goals)?;
    let mut round = 0;
    while !fell.is_empty() {
        fell = falling.next(alloc, model, goals, &fell, round)?;
        round += 1;
    }
    Ok(falling.layers.ranks)
}

/// The greatest sure set, with ranks and choices, and the rounds of the states outside.
#[derive(Drop)]
pub struct SureRounds {
    pub pass: Pass,
    pub rounds: Vec<u32>,
}

/// The states of round 0.
fn zero_marks(alloc: Global, rounds: &[u32]) -> Result<Marks, AllocError>
    ensures { IfOk result (λ marks. marks ≡ map (λ r. r == 0) rounds.now) }
{
    let mut values = Vec::with_capacity(alloc, rounds.len())?;
    for round in rounds {
        values.push(*round == 0)?;
    }
    Ok(Marks::from_values(values))
}

/// What `sure_some` answers, by the rounds: the states of round 0 are the greatest sure set.
fn sure_pass(alloc: Global, model: &Model, goals: &Marks, rounds: &[u32]) -> Result<Pass, Memory>
    requires goals { length goals.now ≡ states_of model.now }
    requires rounds { AreRounds model.now goals.now rounds.now }
    ensures marks { IfOk result (λ pass. IsGreatestSure model.now goals.now pass.marks) }
    ensures ranks { IfOk result (λ pass. AreLeastRanks (inside_step model.now (marked pass.marks)) (marked goals.now)
        (states_of model.now) pass.marks pass.ranks.items) }
    ensures choices { IfOk result (λ pass. AreLeast model.now goals.now pass.marks
        (stays_and_falls model.now pass.marks pass.ranks.items) pass.choices.items) }
{
    model.known();
    let inside = zero_marks(alloc, rounds)?;
    let ranks = ranks_inside(alloc, model, &inside, goals)?;
    Ok(Pass::with_least_choices(alloc, model, &inside, &ranks)?)
}

/// What `sure_some` and `rounds_outside` answer, in one call. Each round begins at the states that fell in the one before.
pub fn sure_rounds(alloc: Global, model: &Model, goals: &Marks) -> Result<SureRounds, Memory>
    requires goals { length goals.now ≡ states_of model.now }
    ensures marks { IfOk result (λ sure. IsGreatestSure model.now goals.now sure.pass.marks) }
    ensures ranks { IfOk result (λ sure. AreLeastRanks (inside_step model.now (marked sure.pass.marks)) (marked goals.now)
        (states_of model.now) sure.pass.marks sure.pass.ranks.items) }
    ensures choices { IfOk result (λ sure. AreLeast model.now goals.now sure.pass.marks
        (stays_and_falls model.now sure.pass.marks sure.pass.ranks.items) sure.pass.choices.items) }
    ensures rounds { IfOk result (λ sure. AreRounds model.now goals.now sure.rounds.items) }
{
    let rounds = rounds_outside(alloc, model, goals)?;
    let pass = sure_pass(alloc, model, goals, &rounds)?;
    Ok(SureRounds { pass, rounds })
}
