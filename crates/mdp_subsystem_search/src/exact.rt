ghost use Rattle.std.specs.Prelude.{◌≡◌, ◌<◌, length, pos, All, IfOk, IfErr, IfSome, IfNone};
ghost use Rattle.mdp_math.specs.Rational.{◌≤ℚ◌, of_int};
ghost use Rattle.mdp_spec.specs.{Bounds.{SubMax, SubMin}, Mdp.{states_of, value_at}, Sub.{sub_of}};
ghost use Rattle.mdp_rows.specs.declared.dir.Dir.TheVariants.{Max, Min};
ghost use Rattle.mdp_bounds.specs.Reach.{IsReachBounds};
ghost use Rattle.mdp_subsystem_rules.specs.Kept.{kept_marks};
ghost use Rattle.mdp_reach.specs.Query.{HasOneEach};
ghost use Rattle.mdp_reach.specs.Query as reach;
ghost use Rattle.mdp_witness.specs.{Code.{plain}, Query.{EndsSo}, Shown.{kept_in, kept_of, HasShape}};
ghost use Rattle.mdp_subsystem_search.specs.{Shown.{ones, named, IsBelow, IsKeptWide, IsUndecided}, Steps.{IsOpen}, Kept.{IsFound}};
ghost use Rattle.mdp_subsystem_search.specs.Code.{IfBelow, IfUndecided, unshown_of};

use crate::found::Found;
use crate::query::Query;
use crate::subsystem::Unshown;
use mdp_bounds::ReachBoundsCert;
use mdp_claims::ReachCert;
use mdp_num::{Frac, Memory};
use mdp_reach::solve_reach;
use mdp_rows::{Marks, Model};
use mdp_wide::Unfinished;
use mdp_witness::{Subsystem, WitnessError, witness};
use std::alloc::Global;

/// A mark for each of so many states: whether it is listed.
fn marks_of(alloc: Global, states: u32, kept: &[u32]) -> Result<Marks, Memory>
    requires { All (λ s. s < states) kept.now }
    ensures { IfOk result (λ marks. marks ≡ kept_marks states kept.now) }
{
    let mut marks = Marks::empty(alloc, states)?;
    for s in kept {
        marks.set(*s, true);
    }
    Ok(marks)
}

/// The states that an exact subsystem keeps.
fn kept_by(found: &Subsystem) -> &[u32]
    ensures { result.now ≡ kept_of (plain found.now) }
{
    match found {
        Subsystem::Max(cert) => cert.kept.as_slice(),
        Subsystem::Min(cert) => cert.kept.as_slice(),
    }
}

/// Why there is no subsystem where the exact query has none, and the threshold lies between a lower and an upper value.
fn unshown(error: WitnessError, lower: Frac, upper: Frac) -> Unshown
    ensures { result ≡ unshown_of error lower upper }
{
    match error {
        WitnessError::Below(value) => Unshown::Below(value),
        WitnessError::TooWide(_) => Unshown::Undecided { lower, upper },
        WitnessError::Memory => Unshown::Memory,
    }
}

impl Query<'_, '_> {
    ghost use Rattle.mdp_subsystem_search.specs.Asked.{for_query, KeepsMax, KeepsMin, AreLowerBounds};

    /// The exact answer on the states that an exact subsystem keeps, as bounds, where it isn't too wide and the rules say yes to it.
    fn answer_on(&self, alloc: Global, found: &Subsystem) -> Result<Option<Found>, Memory>
        requires shape { HasShape self.now.dir self.now.model.now (plain found.now) }
        requires max { self.now.dir ≡ Max → KeepsMax self.now (plain found.now) }
        requires min { self.now.dir ≡ Min → KeepsMin self.now (plain found.now) }
        ensures some { IfOk result (λ answer. IfSome answer (for_query self.now IsFound)) }
        ensures none { IfOk result (λ answer. IfNone answer (for_query self.now IsKeptWide (plain found.now))) }
    {
        self.model.known();
        let kept = marks_of(alloc, self.model.states(), kept_by(found))?;
        let sub = self.model.cut(alloc, &kept, self.goals)?;
        sub.known();
        match solve_reach(alloc, &sub, self.goals, self.dir) {
            Ok(answer) => self.held_answer(alloc, kept, &sub, answer),
            Err(Unfinished::TooWide(_)) => Ok(None),
            Err(Unfinished::Memory) => Err(Memory),
        }
    }

    /// An exact answer on kept states, as bounds, where the rules say yes to it.
    fn held_answer(
        &self,
        alloc: Global,
        kept: Marks,
        sub: &Model,
        answer: ReachCert,
    ) -> Result<Option<Found>, Memory>
        requires each { length kept ≡ states_of self.now.model.now }
        requires sub { sub.now ≡ sub_of self.now.model.now self.now.goals.now kept }
        requires sizes { HasOneEach self.now.model.now (reach.plain answer) }
        requires reaches { self.now.threshold ≤ℚ value_at answer.values.items self.now.start }
        ensures some { IfOk result (λ found. IfSome found (for_query self.now IsFound)) }
        ensures none { IfOk result (λ found. IfNone found (AreLowerBounds self.now sub.now answer.values.items answer.choices.items
            answer.ranks.items → ⊥)) }
    {
        let upper = answer.values.to_vec(alloc)?;
        let cert = ReachBoundsCert {
            lower: answer.values,
            upper,
            choices: answer.choices,
            ranks: answer.ranks,
        };
        match self.reaching(alloc, sub, cert)? {
            Some(cert) => Ok(Some(Found { kept, cert })),
            None => Ok(None),
        }
    }

    /// What an exact subsystem comes to, where the threshold lies between a lower and an upper value.
    fn exact_found(
        &self,
        alloc: Global,
        found: &Subsystem,
        lower: Frac,
        upper: Frac,
    ) -> Result<Found, Unshown>
        requires open { for_query self.now IsOpen lower upper }
        requires ends { for_query self.now EndsSo (Ok (plain found.now)) }
        requires shape { HasShape self.now.dir self.now.model.now (plain found.now) }
        requires max { self.now.dir ≡ Max → KeepsMax self.now (plain found.now) }
        requires min { self.now.dir ≡ Min → KeepsMin self.now (plain found.now) }
        ensures found { IfOk result (for_query self.now IsFound) }
        ensures below { IfErr result (λ error. IfBelow error (for_query self.now IsBelow)) }
        ensures undecided { IfErr result (λ error. IfUndecided error (for_query self.now IsUndecided)) }
    {
        match self.answer_on(alloc, found)? {
            Some(answer) => Ok(answer),
            None => Err(Unshown::Undecided { lower, upper }),
        }
    }

    /// What the exact query of the subsystem comes to, where the threshold lies between a lower and an upper value.
    pub(crate) fn exact(&self, alloc: Global, lower: Frac, upper: Frac) -> Result<Found, Unshown>
        requires threshold { of_int (pos 0) ≤ℚ self.now.threshold }
        requires open { for_query self.now IsOpen lower upper }
        ensures found { IfOk result (for_query self.now IsFound) }
        ensures below { IfErr result (λ error. IfBelow error (for_query self.now IsBelow)) }
        ensures undecided { IfErr result (λ error. IfUndecided error (for_query self.now IsUndecided)) }
    {
        match witness(
            alloc,
            self.model,
            self.goals,
            self.start,
            self.dir,
            self.threshold,
        ) {
            Ok(found) => self.exact_found(alloc, &found, lower, upper),
            Err(error) => Err(unshown(error, lower, upper)),
        }
    }
}
