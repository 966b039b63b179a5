ghost use Rattle.std.specs.Prelude.{◌≡◌, ◌<◌, length, map, is_none, replicate, IfOk};
ghost use Rattle.mdp_spec.specs.Mdp.{states_of, choices_at};
ghost use Rattle.mdp_graph.specs.{Sets.{marked}, Layers.{AreRanks, AreReached, AreLeastRanks}, Choices.{first_below, first_passing, AreLeast}};
ghost use Rattle.mdp_graph.specs.{Meet.{must_step, AllFall}, Avoid.{IsGreatestAvoiding, keeps}};

use crate::meet::{meeting_pass, meeting_ranks};
use crate::pass::{Pass, zeros};
use crate::predecessors::all_marked;
use mdp_num::Memory;
use mdp_rows::{Marks, Model};
use std::alloc::{AllocError, Global};

/// The states that have no rank.
pub(crate) fn marks_without(alloc: Global, ranks: &[Option<u32>]) -> Result<Marks, AllocError>
    ensures { IfOk result (λ marks. marks ≡ map is_none ranks.now) }
{
    let mut values = Vec::with_capacity(alloc, ranks.len())?;
    for rank in ranks {
        values.push(rank.is_none())?;
    }
    Ok(Marks::from_values(values))
}

/// Whether state `s` is marked and its choice `c` keeps all successors marked.
fn keeps_marked(model: &Model, marks: &Marks, s: u32, c: u32) -> bool
    requires state { s < states_of model.now }
    requires choice { c < length (choices_at model.now s) }
    requires marks { length marks.now ≡ states_of model.now }
    ensures { result ≡ keeps model.now marks.now s c }
{
    marks.at(s) && all_marked(model.row(s, c).targets, marks)
}

/// The least choice of state `s` that keeps all successors marked; 0 if the state isn't marked or has none.
fn keeping_choice(model: &Model, marks: &Marks, s: u32) -> u32
    requires state { s < states_of model.now }
    requires marks { length marks.now ≡ states_of model.now }
    ensures { result ≡ first_below (keeps model.now marks.now s) (length (choices_at model.now s)) }
{
    for c in 0..model.choices(s) {
        if keeps_marked(model, marks, s, c) {
            return c;
        }
    }
    0
}

/// The least such choice of each state; 0 where there is none.
fn keeping_choices(alloc: Global, model: &Model, marks: &Marks) -> Result<Vec<u32>, AllocError>
    requires marks { length marks.now ≡ states_of model.now }
    ensures { IfOk result (λ choices. choices.items ≡ first_passing model.now (keeps model.now marks.now)) }
{
    let mut choices = Vec::with_capacity(alloc, model.states() as usize)?;
    for s in 0..model.states() {
        choices.push(keeping_choice(model, marks, s))?;
    }
    Ok(choices)
}

/// What `may_avoid` answers, by the ranks of `must_meet`.
fn avoiding_pass(
    alloc: Global,
    model: &Model,
    goals: &Marks,
    met: &[Option<u32>],
) -> Result<Pass, AllocError>
    requires met { AreRanks (must_step model.now) (marked goals.now) (states_of model.now) met.now }
    ensures marks { IfOk result (λ pass. IsGreatestAvoiding model.now goals.now pass.marks) }
    ensures ranks { IfOk result (λ pass. pass.ranks.items ≡ replicate (states_of model.now) 0) }
    ensures choices { IfOk result (λ pass. AreLeast model.now goals.now pass.marks (keeps model.now pass.marks) pass.choices.items) }
{
    model.known();
    let marks = marks_without(alloc, met)?;
    let choices = keeping_choices(alloc, model, &marks)?;
    Ok(Pass {
        marks,
        ranks: zeros(alloc, model.states() as usize)?,
        choices,
    })
}

/// The states from which some policy never meets a goal: the greatest set of states that aren't goals in which each has a choice whose
/// successors all are in the set. The choice is the least such one. Ranks are 0.
///
/// Model checkers call this set Prob0E: some policy comes to a goal with probability 0 (de Alfaro 1997; Baier and Katoen 2008, section 10.6.1).
pub fn may_avoid(alloc: Global, model: &Model, goals: &Marks) -> Result<Pass, Memory>
    requires goals { length goals.now ≡ states_of model.now }
    ensures marks { IfOk result (λ pass. IsGreatestAvoiding model.now goals.now pass.marks) }
    ensures ranks { IfOk result (λ pass. pass.ranks.items ≡ replicate (states_of model.now) 0) }
    ensures choices { IfOk result (λ pass. AreLeast model.now goals.now pass.marks (keeps model.now pass.marks) pass.choices.items) }
{
    let met = meeting_ranks(alloc, model, goals)?;
    Ok(avoiding_pass(alloc, model, goals, &met)?)
}

/// The states that some policy keeps from the goals, and those that each policy brings to one.
#[derive(Drop)]
pub struct AvoidingAndMeeting {
    pub avoiding: Pass,
    pub meeting: Pass,
}

/// What `may_avoid` and `must_meet` answer, in one call.
pub fn avoid_and_meet(
    alloc: Global,
    model: &Model,
    goals: &Marks,
) -> Result<AvoidingAndMeeting, Memory>
    requires goals { length goals.now ≡ states_of model.now }
    ensures avoiding { IfOk result (λ both. IsGreatestAvoiding model.now goals.now both.avoiding.marks) }
    ensures avoiding_ranks { IfOk result (λ both. both.avoiding.ranks.items ≡ replicate (states_of model.now) 0) }
    ensures avoiding_choices { IfOk result (λ both. AreLeast model.now goals.now both.avoiding.marks
        (keeps model.now both.avoiding.marks) both.avoiding.choices.items) }
    ensures meeting { IfOk result (λ both. AreReached (must_step model.now) (marked goals.now) (states_of model.now) both.meeting.marks) }
    ensures meeting_ranks { IfOk result (λ both. AreLeastRanks (must_step model.now) (marked goals.now)
        (states_of model.now) both.meeting.marks both.meeting.ranks.items) }
    ensures falls { IfOk result (λ both. AllFall model.now goals.now both.meeting.marks both.meeting.ranks.items) }
    ensures meeting_choices { IfOk result (λ both. both.meeting.choices.items ≡ replicate (states_of model.now) 0) }
{
    let met = meeting_ranks(alloc, model, goals)?;
    Ok(AvoidingAndMeeting {
        avoiding: avoiding_pass(alloc, model, goals, &met)?,
        meeting: meeting_pass(alloc, model, goals, &met)?,
    })
}
