ghost use Rattle.std.specs.Prelude.{◌≡◌, ◌<◌, ◌↔◌, length, slice_index, [], ◌∷◌};
ghost use Rattle.mdp_spec.specs.{Mdp.{states_of, choices_at}, Bounds.{ReachMax, ReachMin}};
ghost use Rattle.mdp_farkas.specs.Reach.{choice_exists, other, reach_at, reach_checks, IsReach};
ghost use Rattle.mdp_farkas.specs.Verdict.{objection_to, verdict_of, IsYes, IfYes};
ghost use Rattle.mdp_rows.specs.declared.dir.Dir.TheVariants.{Max, Min};

use crate::bellman::Held;
use crate::ranks::rank_at_state;
use crate::upper::{goal_at, probability_at};
use crate::verdict::{judged, verdict_after};
use crate::walk::{Checks, each_below, each_choice};
use mdp_claims::{Objection, ReachCert, Rule, Verdict};
use mdp_num::Frac;
use mdp_rows::{Dir, Marks, Model};

/// The other direction.
pub fn reversed(dir: Dir) -> Dir
    ensures { result ≡ other dir }
{
    match dir {
        Dir::Max => Dir::Min,
        Dir::Min => Dir::Max,
    }
}

/// State `s` has the choice.
pub fn choice_at(model: &Model, s: u32, choice: u32) -> Result<(), Objection>
    requires { s < states_of model.now }
    ensures { result ≡ objection_to (choice_exists model.now s choice ∷ []) }
{
    judged(
        Ok(choice < model.choices(s)),
        Rule::ChoiceExists,
        s,
        Some(choice),
    )
}

/// Values, a policy and ranks that are held against a model.
#[derive(Clone, Copy)]
struct ReachClaim<'a> {
    dir: Dir,
    model: &'a Model,
    goals: &'a Marks,
    values: &'a [Frac],
    choices: &'a [u32],
    ranks: &'a [u32],
    ghost goals_each: { length goals.now ≡ states_of model.now },
    ghost values_each: { length values.now ≡ states_of model.now },
    ghost choices_each: { length choices.now ≡ states_of model.now },
    ghost ranks_each: { length ranks.now ≡ states_of model.now },
}

impl Checks for ReachClaim<'_> {
    ghost count = { λ x. states_of x.model.now };

    ghost checks = { λ x s. reach_at x.dir x.model.now x.goals.now x.values.now x.ranks.now s (slice_index x.choices.now s) };

    /// The rules at state `s`.
    fn check(self, s: u32) -> Result<(), Objection> {
        let choice = self.choices[s as usize];
        choice_at(self.model, s, choice)?;
        probability_at(self.values, s)?;
        self.place_at(s, choice)
    }
}

impl ReachClaim<'_> {
    ghost use Rattle.mdp_farkas.specs.ReachClaim.{values_at, places_at};

    /// The value of state `s` is 1 at a goal. Elsewhere Bellman's inequality holds at each choice, and the other way round for the policy's.
    #[tactic(auto, using(crate::proofs::Objections::walked))]
    fn value_at(self, s: u32, choice: u32) -> Result<(), Objection>
        requires state { s < states_of self.model.now }
        requires choice { choice < length (choices_at self.model.now s) }
        ensures { result ≡ objection_to (values_at self.entry s choice) }
    {
        if self.goals.at(s) {
            goal_at(self.values, s)
        } else {
            let held = Held {
                dir: self.dir,
                model: self.model,
                values: self.values,
                rule: Rule::ValueOnEachChoice,
                state: s,
            };
            each_choice(self.model, s, held)?;
            held.meets_on_policy(choice)
        }
    }

    /// The rules for the value and the rank of state `s`.
    #[tactic(auto, using(crate::proofs::Objections::walked))]
    fn place_at(self, s: u32, choice: u32) -> Result<(), Objection>
        requires state { s < states_of self.model.now }
        requires choice { choice < length (choices_at self.model.now s) }
        ensures { result ≡ objection_to (places_at self.entry s choice) }
    {
        self.value_at(s, choice)?;
        rank_at_state(
            self.model,
            self.goals,
            self.dir,
            self.values,
            self.ranks,
            s,
            choice,
        )
    }
}

/// Whether the values are a Farkas certificate of the greatest, or the least, probabilities, and the policy one that comes close to them:
/// what rules 2 to 8 say of the values, the policy and the ranks. Yes, the first rule that is false with its place, or the place of the
/// first written term past width where that comes before. It takes no memory.
pub fn holds_reach(model: &Model, goals: &Marks, dir: Dir, cert: &ReachCert) -> Verdict
    requires goals { length goals.now ≡ states_of model.now }
    requires values { length cert.now.values.items ≡ states_of model.now }
    requires choices { length cert.now.choices.items ≡ states_of model.now }
    requires ranks { length cert.now.ranks.items ≡ states_of model.now }
    ensures verdict { result ≡ verdict_of (reach_checks dir model.now goals.now cert.now.values.items cert.now.choices.items cert.now.ranks.items) }
    ensures rules { IsYes result ↔ IsReach dir model.now goals.now cert.now.values.items cert.now.choices.items cert.now.ranks.items }
    ensures max { dir ≡ Max → IfYes result (ReachMax model.now goals.now cert.now.values.items cert.now.choices.items) }
    ensures min { dir ≡ Min → IfYes result (ReachMin model.now goals.now cert.now.values.items cert.now.choices.items) }
{
    model.known();
    let claim = ReachClaim {
        dir,
        model,
        goals,
        values: cert.values.as_slice(),
        choices: cert.choices.as_slice(),
        ranks: cert.ranks.as_slice(),
    };
    verdict_after(each_below(model.states(), claim))
}
