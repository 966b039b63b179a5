ghost use Rattle.std.specs.{Prelude.{◌≡◌, ◌<◌, ℕ, Bool, length, map, is_some, replicate, IfOk}, List.{All, list_any}};
ghost use Rattle.mdp_spec.specs.Mdp.{states_of, choices_at};
ghost use Rattle.mdp_graph.specs.{Sets.{marked}, Layers.{rank_at, AreRanks, AreReached, AreLeastRanks}};
ghost use Rattle.mdp_graph.specs.Choices.{plain_rank, is_before, may_fall, first_below, first_passing};

use crate::predecessors::all_marked;
use mdp_rows::{Marks, Model};
use std::alloc::{AllocError, Global};

/// What a pass finds: which states are marked, and for each state a rank and a choice. Both are 0 where the state isn't marked.
#[derive(Drop)]
pub struct Pass {
    pub marks: Marks,
    pub ranks: Vec<u32>,
    pub choices: Vec<u32>,
}

/// The states that have a rank.
pub(crate) fn marks_by(alloc: Global, ranks: &[Option<u32>]) -> Result<Marks, AllocError>
    ensures { IfOk result (λ marks. marks ≡ map is_some ranks.now) }
{
    let mut values = Vec::with_capacity(alloc, ranks.len())?;
    for rank in ranks {
        values.push(rank.is_some())?;
    }
    Ok(Marks::from_values(values))
}

/// The ranks; 0 where there is none.
pub fn plain_ranks(alloc: Global, ranks: &[Option<u32>]) -> Result<Vec<u32>, AllocError>
    ensures { IfOk result (λ plain. plain.items ≡ map plain_rank ranks.now) }
{
    let mut plain = Vec::with_capacity(alloc, ranks.len())?;
    for rank in ranks {
        plain.push(rank.unwrap_or(0))?;
    }
    Ok(plain)
}

impl Pass {
    /// The states that have a rank, with these choices.
    pub fn by_ranks(
        alloc: Global,
        ranks: &[Option<u32>],
        choices: Vec<u32>,
    ) -> Result<Pass, AllocError>
        ensures marks { IfOk result (λ pass. pass.marks ≡ map is_some ranks.now) }
        ensures ranks { IfOk result (λ pass. pass.ranks.items ≡ map plain_rank ranks.now) }
        ensures choices { IfOk result (λ pass. pass.choices.items ≡ choices.items) }
        ensures reached { IfOk result (λ pass. (step : (ℕ → Bool) → ℕ → Bool) (first : ℕ → Bool) (n : ℕ) → AreRanks step first n ranks.now →
            AreReached step first n pass.marks) }
        ensures least { IfOk result (λ pass. (step : (ℕ → Bool) → ℕ → Bool) (first : ℕ → Bool) (n : ℕ) → AreRanks step first n ranks.now →
            AreLeastRanks step first n pass.marks pass.ranks.items) }
    {
        Ok(Pass {
            marks: marks_by(alloc, ranks)?,
            ranks: plain_ranks(alloc, ranks)?,
            choices,
        })
    }

    /// The states that have a rank, each with the least of its choices that stay inside and have a successor of smaller rank.
    pub(crate) fn with_least_choices(
        alloc: Global,
        model: &Model,
        inside: &Marks,
        ranks: &[Option<u32>],
    ) -> Result<Pass, AllocError>
        requires inside { length inside.now ≡ states_of model.now }
        requires ranks { length ranks.now ≡ states_of model.now }
        ensures marks { IfOk result (λ pass. pass.marks ≡ map is_some ranks.now) }
        ensures ranks { IfOk result (λ pass. pass.ranks.items ≡ map plain_rank ranks.now) }
        ensures choices { IfOk result (λ pass. pass.choices.items ≡ first_passing model.now (may_fall model.now inside.now ranks.now)) }
        ensures reached { IfOk result (λ pass. (step : (ℕ → Bool) → ℕ → Bool) (first : ℕ → Bool) (n : ℕ) → AreRanks step first n ranks.now →
            AreReached step first n pass.marks) }
        ensures least { IfOk result (λ pass. (step : (ℕ → Bool) → ℕ → Bool) (first : ℕ → Bool) (n : ℕ) → AreRanks step first n ranks.now →
            AreLeastRanks step first n pass.marks pass.ranks.items) }
    {
        let choices = least_choices(alloc, model, inside, ranks)?;
        Pass::by_ranks(alloc, ranks, choices)
    }

    /// The states that have a rank. Choices are 0.
    pub(crate) fn without_choices(alloc: Global, ranks: &[Option<u32>]) -> Result<Pass, AllocError>
        ensures marks { IfOk result (λ pass. pass.marks ≡ map is_some ranks.now) }
        ensures ranks { IfOk result (λ pass. pass.ranks.items ≡ map plain_rank ranks.now) }
        ensures choices { IfOk result (λ pass. pass.choices.items ≡ replicate (length ranks.now) 0) }
        ensures reached { IfOk result (λ pass. (step : (ℕ → Bool) → ℕ → Bool) (first : ℕ → Bool) (n : ℕ) → AreRanks step first n ranks.now →
            AreReached step first n pass.marks) }
        ensures least { IfOk result (λ pass. (step : (ℕ → Bool) → ℕ → Bool) (first : ℕ → Bool) (n : ℕ) → AreRanks step first n ranks.now →
            AreLeastRanks step first n pass.marks pass.ranks.items) }
    {
        let choices = zeros(alloc, ranks.len())?;
        Pass::by_ranks(alloc, ranks, choices)
    }
}

/// So many zeros.
pub(crate) fn zeros(alloc: Global, count: usize) -> Result<Vec<u32>, AllocError>
    ensures { IfOk result (λ zeros. zeros.items ≡ replicate count 0) }
{
    Ok(vec![in alloc; 0; count]?)
}

/// Whether there is a rank, and it is below `limit`.
fn is_below(rank: Option<u32>, limit: u32) -> bool
    ensures { result ≡ is_before limit rank }
{
    match rank {
        None => false,
        Some(r) => r < limit,
    }
}

/// Whether a target has a rank below `rank`.
pub fn some_before(targets: &[u32], ranks: &[Option<u32>], rank: u32) -> bool
    requires { All (λ t. t < length ranks.now) targets.now }
    ensures { result ≡ list_any (λ t. is_before rank (rank_at ranks.now t)) targets.now }
{
    for t in targets {
        if is_below(ranks[*t as usize], rank) {
            return true;
        }
    }
    false
}

/// Whether choice `c` of state `s` stays inside and has a successor of a rank below that of `s`.
fn can_fall(model: &Model, inside: &Marks, ranks: &[Option<u32>], s: u32, c: u32) -> bool
    requires state { s < states_of model.now }
    requires choice { c < length (choices_at model.now s) }
    requires inside { length inside.now ≡ states_of model.now }
    requires ranks { length ranks.now ≡ states_of model.now }
    ensures { result ≡ may_fall model.now inside.now ranks.now s c }
{
    let targets = model.row(s, c).targets;
    let rank = ranks[s as usize].unwrap_or(0);
    all_marked(targets, inside) && some_before(targets, ranks, rank)
}

/// The least choice of state `s` that stays inside and has a successor of a rank below that of `s`; 0 if there is none.
fn least_choice(model: &Model, inside: &Marks, ranks: &[Option<u32>], s: u32) -> u32
    requires state { s < states_of model.now }
    requires inside { length inside.now ≡ states_of model.now }
    requires ranks { length ranks.now ≡ states_of model.now }
    ensures { result ≡ first_below (may_fall model.now inside.now ranks.now s) (length (choices_at model.now s)) }
{
    for c in 0..model.choices(s) {
        if can_fall(model, inside, ranks, s, c) {
            return c;
        }
    }
    0
}

/// The least such choice of each state; 0 where there is none.
fn least_choices(
    alloc: Global,
    model: &Model,
    inside: &Marks,
    ranks: &[Option<u32>],
) -> Result<Vec<u32>, AllocError>
    requires inside { length inside.now ≡ states_of model.now }
    requires ranks { length ranks.now ≡ states_of model.now }
    ensures { IfOk result (λ choices. choices.items ≡ first_passing model.now (may_fall model.now inside.now ranks.now)) }
{
    let mut choices = Vec::with_capacity(alloc, model.states() as usize)?;
    for s in 0..model.states() {
        choices.push(least_choice(model, inside, ranks, s))?;
    }
    Ok(choices)
}
