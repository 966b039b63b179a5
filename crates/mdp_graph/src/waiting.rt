ghost use Rattle.std.specs.Prelude.{◌≡◌, ◌<◌, ◌&&◌, ◌==◌, false, true, not, [], ◌∷◌, length, map, slice_index_or, IfOk, OnOk};
ghost use Rattle.std.specs.List.{All, range_with_len};
ghost use Rattle.mdp_spec.specs.Mdp.{states_of, choices_at};
ghost use Rattle.mdp_rows.specs.Preds.{pair};
ghost use Rattle.mdp_graph.specs.Waiting.{waits, some_waits, AreWaiting, AreWithin, AreReleased, AreMet, leading_to};

use mdp_rows::{Model, Pred, Preds};
use std::alloc::{AllocError, Global};

/// The choices of each state that wait: those none of whose successors has a rank so far. One truth value for each choice, state by state in
/// one vector; where those of each state start, and at the end where the last ones end; and how many of each state's choices wait.
#[derive(Drop)]
pub(crate) struct Waiting {
    choices: Vec<bool>,
    starts: Vec<usize>,
    counts: Vec<u32>,
}

impl std::marker::Model for Waiting {
    ghost use Rattle.std.specs.Prelude.{Bool, List};
    ghost use Rattle.mdp_rows.specs.Pieces.{pieces};
    ghost use Rattle.mdp_graph.specs.FlatWaiting.{AreCounted};

    ghost Value = { List (List Bool) };

    ghost view = { λ w. pieces w.choices.items w.starts.items };

    ghost invariant = { λ w. AreCounted w.choices.items w.starts.items w.counts.items };
}

/// How many choices each state has.
fn choice_counts(alloc: Global, model: &Model) -> Result<Vec<u32>, AllocError>
    ensures { IfOk result (λ counts. counts.items ≡ map (λ s. length (choices_at model.now s)) (range_with_len 0 (states_of model.now))) }
{
    let mut counts = Vec::with_capacity(alloc, model.states() as usize)?;
    for s in 0..model.states() {
        counts.push(model.choices(s))?;
    }
    Ok(counts)
}

impl Waiting {
    /// Each choice waits.
    pub(crate) fn all(alloc: Global, model: &Model) -> Result<Waiting, AllocError>
        ensures { IfOk result (λ waiting. AreWaiting model.now (λ _. false) waiting) }
    {
        let counts = choice_counts(alloc, model)?;
        let mut choices = Vec::with_capacity(alloc, model.all_choices() as usize)?;
        let mut starts = Vec::with_capacity(alloc, counts.len() + 1)?;
        starts.push(0)?;
        for count in &counts {
            choices.resize(choices.len() + *count as usize, true)?;
            starts.push(choices.len())?;
        }
        Ok(Waiting {
            choices,
            starts,
            counts,
        })
    }

    /// Whether choice `c` of state `s` waits.
    pub(crate) fn at(&self, s: u32, c: u32) -> bool
        requires state { s < length self.now }
        requires choice { c < length (slice_index_or self.now s []) }
        ensures { result ≡ waits self.now s c }
    {
        self.choices[self.starts[s as usize] + c as usize]
    }

    /// Choice `c` of state `s` waits no longer. Whether it was the last of the state's choices that waited.
    fn release(&mut self, s: u32, c: u32) -> bool
        requires state { s < length self.old }
        requires choice { c < length (slice_index_or self.old s []) }
        ensures released { AreReleased self.old self.new (pair s c ∷ []) }
        ensures last { result ≡ (some_waits self.old s && not (some_waits self.new s)) }
    {
        let place = self.starts[s as usize] + c as usize;
        if !self.choices[place] {
            return false;
        }
        self.choices[place] = false;
        self.counts[s as usize] -= 1;
        self.counts[s as usize] == 0
    }

    /// These choices wait no longer. Appends to `met` the states without a rank whose last waiting choice is one of them.
    fn release_all(
        &mut self,
        preds: &[Pred],
        ranks: &[Option<u32>],
        met: &mut Vec<u32>,
    ) -> Result<(), AllocError>
        requires ranks { length ranks.now ≡ length self.old }
        requires within { AreWithin self.old preds.now }
        ensures { OnOk result (AreMet self.old self.new preds.now ranks.now met.old.items met.new.items) }
    {
        for pred in preds {
            if self.release(pred.state, pred.choice) && ranks[pred.state as usize].is_none() {
                met.push(pred.state)?;
            }
        }
        Ok(())
    }

    /// The choices with an entry to a state of `layer` wait no longer. Answers the states without a rank whose last waiting choice is one of them.
    pub(crate) fn met_by(
        &mut self,
        alloc: Global,
        preds: &Preds,
        ranks: &[Option<u32>],
        layer: &[u32],
    ) -> Result<Vec<u32>, AllocError>
        requires ranks { length ranks.now ≡ length self.old }
        requires layer { All (λ t. t < length preds.now) layer.now }
        requires within { AreWithin self.old (leading_to preds.now layer.now) }
        ensures { IfOk result (λ met. AreMet self.old self.new (leading_to preds.now layer.now) ranks.now [] met.items) }
    {
        let mut met = Vec::new(alloc);
        for t in layer {
            self.release_all(preds.of(*t), ranks, &mut met)?;
        }
        Ok(met)
    }
}
