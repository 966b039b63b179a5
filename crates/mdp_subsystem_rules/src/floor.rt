ghost use Rattle.std.specs.Prelude.{◌≡◌, ◌<◌, ◌↔◌, ◌||◌, not, length, [], ◌∷◌, All, MatchOption, nat_lt, slice_index, false};
ghost use Rattle.std.specs.Result.{result_ok};
ghost use Rattle.mdp_math.specs.Rational.{lt_ℚ};
ghost use Rattle.mdp_spec.specs.{Bounds.{SubMin}, Mdp.{states_of, choices_at, value_at}, Row.{entries}, Tree.{is_marked}};
ghost use Rattle.mdp_farkas.specs.{Bellman.{sum_stands}, Compare.{0ℚ}, Verdict.{verdict_of, IsYes, IfYes, objection_to}};
ghost use Rattle.mdp_rows.specs.declared.dir.Dir.TheVariants.{Min};
ghost use Rattle.mdp_subsystem_rules.specs.FloorChecks.{value_checks, fall_check, floor_checks, HoldsFloor};
ghost use Rattle.mdp_subsystem_rules.specs.{Kept.{is_listed, kept_marks}, Shape.{IsFloorShape}};

use crate::flow::kept_at;
use mdp_claims::FloorCert;
use mdp_farkas::{
    Objection, OneCheck, Rule, StateTest, Verdict, at_least, at_most, each_choice, judged,
    judged_at, some_target, verdict_after,
};
use mdp_num::{Frac, Wide};
use mdp_rows::{Marks, Model, Row, ValuesOf};

/// Values and ranks of kept states that are held against a model.
#[derive(Clone, Copy)]
struct FloorClaim<'a> {
    model: &'a Model,
    goals: &'a Marks,
    cert: &'a FloorCert,
    ghost goals_each: { length goals.now ≡ states_of model.now },
    ghost shape: { IsFloorShape model.now cert.now.kept.items cert.now.wide.items cert.now.values.items cert.now.ranks.items },
}

impl ValuesOf for FloorClaim<'_> {
    ghost use Rattle.mdp_subsystem_rules.specs.FloorClaim.{counted_values};

    ghost values = { counted_values };

    fn value_of(&self, t: u32) -> Frac {
        self.counted(t)
    }
}

/// The value of a kept state, which is held against the rows of its choices.
#[derive(Clone, Copy)]
struct Covers<'a> {
    claim: FloorClaim<'a>,
    state: u32,
    value: &'a Frac,
    ghost in_model: { state < states_of claim.model.now },
}

impl OneCheck for Covers<'_> {
    ghost use Rattle.mdp_subsystem_rules.specs.FloorClaim.{cover_at};

    ghost count = { λ x. length (choices_at x.claim.model.now x.state) };

    ghost check = { λ x. cover_at x.claim x.state x.value.now };

    /// The value is at most the sum over the row of choice `c`.
    fn check_at(self, c: u32) -> Result<(), Objection> {
        self.claim.cover_at(self.state, self.value, c)
    }
}

/// The rank of a kept state, which is held against those of its targets.
#[derive(Clone, Copy)]
struct Falls<'a> {
    claim: FloorClaim<'a>,
    state: u32,
    rank: u32,
    ghost in_model: { state < states_of claim.model.now },
}

impl StateTest for Falls<'_> {
    ghost use Rattle.mdp_subsystem_rules.specs.FloorClaim.{rank_of};

    ghost states = { λ x. states_of x.claim.model.now };

    ghost test = { λ x t. nat_lt (rank_of x.claim t) x.rank };

    /// Whether state `t` counts with a smaller rank.
    fn passes(self, t: u32) -> bool {
        self.claim.rank_of(t) < self.rank
    }
}

impl OneCheck for Falls<'_> {
    ghost use Rattle.mdp_subsystem_rules.specs.FloorClaim.{rank_of};

    ghost count = { λ x. length (choices_at x.claim.model.now x.state) };

    ghost check = { λ x. fall_check x.claim.model.now (rank_of x.claim) x.state x.rank };

    /// An entry of the row of choice `c` leads to a smaller rank.
    fn check_at(self, c: u32) -> Result<(), Objection> {
        let falls = some_target(self.claim.model, self.state, c, self);
        judged(Ok(falls), Rule::RankFalls, self.state, Some(c))
    }
}

impl FloorClaim<'_> {
    ghost use Rattle.mdp_subsystem_rules.specs.FloorClaim.{counted_values, rank_of, cover_at, covers_at, falls_at, rules_at};
    ghost use Rattle.mdp_subsystem_rules.specs.FloorClaim.{line_at, each_state, all_checks};

    /// On which line state `s` stands, if it is kept. It takes time in proportion to the logarithm of the number of lines.
    fn line_of(self, s: u32) -> Option<usize>
        ensures { MatchOption result (is_listed self.entry.cert.now.kept.items s ≡ false)
            (λ i. (i < length self.entry.cert.now.kept.items) × (slice_index self.entry.cert.now.kept.items i ≡ s)) }
    {
        self.cert.kept.binary_search(&s).ok()
    }

    /// What state `s` counts as: a goal as 1, a kept state as the value of its line, any other state as 0.
    fn counted(self, s: u32) -> Frac
        requires { s < states_of self.model.now }
        ensures { result ≡ value_at (counted_values self.entry) s }
    {
        if self.goals.at(s) {
            return Frac::whole(1);
        }
        match self.line_of(s) {
            Some(line) => self.cert.values[line],
            None => Frac::whole(0),
        }
    }

    /// Which rank it counts with: a kept state with that of its line, any other state and a goal with 0.
    fn rank_of(self, s: u32) -> u32
        requires { s < states_of self.model.now }
        ensures { result ≡ rank_of self.entry s }
    {
        if self.goals.at(s) {
            return 0;
        }
        match self.line_of(s) {
            Some(line) => self.cert.ranks[line],
            None => 0,
        }
    }

    /// Whether a value is at most the sum over a row of its probabilities times what its targets count as, added in the order of the targets.
    /// `Wide` where a written term of one of these operations is past width.
    fn row_covers(self, row: Row<'_>, value: &Frac) -> Result<bool, Wide>
        requires { All (λ t. t < states_of self.model.now) row.targets.now }
        ensures { result_ok result ≡ sum_stands Min value.now (counted_values self.entry) 0ℚ (entries row.entry.targets.now row.entry.probs.now) }
    {
        let sum = row.sum_over(&Frac::whole(0), &self)?;
        at_most(value, &sum)
    }

    /// The value of the kept state `s` is at most the sum over the row of its choice `c`.
    fn cover_at(self, s: u32, value: &Frac, c: u32) -> Result<(), Objection>
        requires state { s < states_of self.model.now }
        requires choice { c < length (choices_at self.model.now s) }
        ensures { result ≡ objection_to (cover_at self.entry s value.now c ∷ []) }
    {
        let covers = self.row_covers(self.model.row(s, c), value);
        judged(covers, Rule::ValueOnEachChoice, s, Some(c))
    }

    /// The same at each choice, where the state is no goal.
    fn covers_at(self, s: u32, value: &Frac) -> Result<(), Objection>
        requires { s < states_of self.model.now }
        ensures { result ≡ objection_to (covers_at self.entry s value.now) }
    {
        if self.goals.at(s) {
            return Ok(());
        }
        let covers = Covers {
            claim: self,
            state: s,
            value,
        };
        each_choice(self.model, s, covers)
    }

    /// The kept state `s` has rank 0 where it is a goal or has value 0; else an entry of each row leads to a smaller rank.
    fn rank_at(self, s: u32, value: &Frac, rank: u32) -> Result<(), Objection>
        requires { s < states_of self.model.now }
        ensures { result ≡ objection_to (falls_at self.entry s value.now rank) }
    {
        if ends_at(self.goals, s, value) {
            return judged(Ok(rank == 0), Rule::RankZero, s, None);
        }
        let falls = Falls {
            claim: self,
            state: s,
            rank,
        };
        each_choice(self.model, s, falls)
    }

    /// The rules at the kept state `s` of this value and rank.
    fn state_at(self, s: u32, value: &Frac, rank: u32) -> Result<(), Objection>
        requires { s < states_of self.model.now }
        ensures { result ≡ objection_to (rules_at self.entry s value.now rank) }
    {
        probability_at(s, value)?;
        self.covers_at(s, value)?;
        self.rank_at(s, value, rank)?;
        kept_at(self.goals, s)
    }

    /// The rules at the kept state of line `i`.
    fn line_at(self, i: usize) -> Result<(), Objection>
        requires { i < length self.cert.now.kept.items }
        ensures { result ≡ objection_to (line_at self.entry i) }
    {
        let cert = self.cert;
        self.state_at(cert.kept[i], &cert.values[i], cert.ranks[i])
    }

    /// The rules at each kept state.
    fn each_line_at(self) -> Result<(), Objection>
        ensures { result ≡ objection_to (each_state self.entry) }
    {
        for i in 0..self.cert.kept.len() {
            self.line_at(i)?;
        }
        Ok(())
    }

    /// All rules: those at each kept state, and that what the start counts as is at least the threshold.
    fn walk(self, start: u32, threshold: &Frac) -> Result<(), Objection>
        requires { start < states_of self.model.now }
        ensures { result ≡ objection_to (all_checks self.entry start threshold.now) }
    {
        self.each_line_at()?;
        let reaches = at_least(&self.counted(start), threshold);
        judged_at(reaches, Rule::StartReachesThreshold, None, None)
    }
}

/// The value of the kept state `s` is from 0 to 1.
fn probability_at(s: u32, value: &Frac) -> Result<(), Objection>
    ensures { result ≡ objection_to (value_checks s value.now) }
{
    judged(at_least(value, &Frac::whole(0)), Rule::Probability, s, None)?;
    judged(at_most(value, &Frac::whole(1)), Rule::Probability, s, None)
}

/// Whether state `s`, of this value, is a goal or has value 0.
fn ends_at(goals: &Marks, s: u32, value: &Frac) -> bool
    requires { s < length goals.now }
    ensures { result ≡ (is_marked goals.now s || not (lt_ℚ 0ℚ value.now)) }
{
    goals.at(s) || value.sign() <= 0
}

/// Whether the values and ranks show that each policy of the subsystem with these kept states reaches a goal from the start with a probability of at
/// least the threshold: what rules 3, 5, 7, 8, 21 and 24 say of them (Funke, Jantsch and Baier 2020). Yes, the first rule that is false with its
/// place, or the place of the first written term past width where that comes before. It takes no memory, and for each successor time in proportion
/// to the logarithm of the number of kept states.
pub fn holds_floor(
    model: &Model,
    goals: &Marks,
    start: u32,
    threshold: Frac,
    cert: &FloorCert,
) -> Verdict
    requires goals { length goals.now ≡ states_of model.now }
    requires start { start < states_of model.now }
    requires shape { IsFloorShape model.now cert.now.kept.items cert.now.wide.items cert.now.values.items cert.now.ranks.items }
    ensures verdict { result
        ≡ verdict_of (floor_checks model.now goals.now start threshold cert.now.kept.items cert.now.values.items cert.now.ranks.items) }
    ensures rules { IsYes result ↔ HoldsFloor model.now goals.now start threshold cert.now.kept.items cert.now.values.items cert.now.ranks.items }
    ensures sub_min { IfYes result (SubMin model.now goals.now (kept_marks (states_of model.now) cert.now.kept.items) start threshold) }
{
    model.known();
    let claim = FloorClaim { model, goals, cert };
    verdict_after(claim.walk(start, &threshold))
}
