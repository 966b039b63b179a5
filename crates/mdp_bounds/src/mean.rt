ghost use Rattle.std.specs.{Prelude.{◌≡◌, ◌<◌, ◌↔◌, IsTrue, length, slice_index}, List.{list_all}, Result.{result_ok}};
ghost use Rattle.mdp_spec.specs.{Mdp.{states_of, choices_at}, Between.{MeanMaxBetween, MeanMinBetween}};
ghost use Rattle.mdp_bounds.specs.{Reach.{covering}, Mean.{AreOne, gain_check, told_step, relative_check, gains_cover, gains_follow, spread_check}};
ghost use Rattle.mdp_bounds.specs.Mean.{mean_bounds_at, mean_bounds_checks, IsMeanBounds, IsTrivialMean};
ghost use Rattle.mdp_num.specs.Equal.{eq_ℚ};
ghost use Rattle.mdp_farkas.specs.{Mean.{IsMean}, Verdict.{objection_to, verdict_of, IsYes, IfYes}};
ghost use Rattle.mdp_rows.specs.declared.dir.Dir.TheVariants.{Max, Min};

use crate::compare::value_stands;
use crate::spread::spread_of;
use crate::sum::{plain_sum, row_sum};
use mdp_claims::MeanBoundsCert;
use mdp_farkas::{
    Checks, Objection, OneCheck, Rule, Verdict, choice_at, each_below, each_choice, judged,
    judged_at, reversed, verdict_after,
};
use mdp_num::{Frac, Wide};
use mdp_rows::{Dir, Model};

/// Gains, one for each state. `are_one` is set only where all are one number: then the sum over each row is that number too.
#[derive(Clone, Copy)]
struct Gains<'a> {
    values: &'a [Frac],
    are_one: bool,
    ghost one: { IsTrue are_one → AreOne values.now },
}

/// Whether all have this value.
fn are_all(values: &[Frac], value: &Frac) -> bool
    ensures { result ≡ list_all (eq_ℚ value.now) values.now }
{
    for other in values {
        if *value != *other {
            return false;
        }
    }
    true
}

/// Whether all are one number.
fn are_one(values: &[Frac]) -> bool
    ensures { IsTrue result → AreOne values.now }
{
    if values.is_empty() {
        return true;
    }
    are_all(values, &values[0])
}

impl<'a> Gains<'a> {
    /// These gains, of which nothing is known.
    fn any(values: &'a [Frac]) -> Gains<'a>
        ensures { result.values.now ≡ values.now }
    {
        Gains {
            values,
            are_one: false,
        }
    }

    /// These gains, after a look whether they are one number.
    fn new(values: &'a [Frac]) -> Gains<'a>
        ensures { result.values.now ≡ values.now }
    {
        Gains {
            values,
            are_one: are_one(values),
        }
    }
}

/// The gain and a relative value of state `s` together.
fn step_at(gains: Gains<'_>, relative: &[Frac], s: u32) -> Result<Frac, Wide>
    requires gains { s < length gains.values.now }
    requires relative { s < length relative.now }
    ensures { result_ok result ≡ told_step gains.entry.values.now relative.now s }
{
    plain_sum(&gains.values[s as usize], &relative[s as usize])
}

/// Whether the spread is that of bounds and biases.
fn spread_holds(bound: &[Frac], bias: &[Frac], spread: &Frac) -> Result<bool, Wide>
    ensures { result_ok result ≡ (spread_check bound.now bias.now spread.now).holds }
{
    let widest = spread_of(bound, bias)?;
    Ok(*spread == widest)
}

/// The gains of one column with a bound or a bias, which are held against a model at one state.
#[derive(Clone, Copy)]
struct MeanHalf<'a> {
    dir: Dir,
    model: &'a Model,
    name: u32,
    gains: Gains<'a>,
    relative: &'a [Frac],
    state: u32,
    ghost named: { name < length model.now.names },
    ghost gains_each: { length gains.values.now ≡ states_of model.now },
    ghost relative_each: { length relative.now ≡ states_of model.now },
    ghost in_model: { state < states_of model.now },
}

/// The gains of a half.
#[derive(Clone, Copy)]
struct GainHalf<'a> {
    half: MeanHalf<'a>,
}

impl OneCheck for GainHalf<'_> {
    ghost count = { λ x. length (choices_at x.half.model.now x.half.state) };

    ghost check = { λ x. gain_check x.half.dir x.half.model.now x.half.gains.values.now x.half.state };

    /// The gains at choice `c`.
    fn check_at(self, c: u32) -> Result<(), Objection> {
        let stands = self.half.gain_stands(self.half.dir, c);
        judged(stands, Rule::GainOnEachChoice, self.half.state, Some(c))
    }
}

/// The relative values of a half.
#[derive(Clone, Copy)]
struct BoundHalf<'a> {
    half: MeanHalf<'a>,
}

impl OneCheck for BoundHalf<'_> {
    ghost use Rattle.mdp_bounds.specs.MeanClaim.{asked_of};

    ghost count = { λ x. length (choices_at x.half.model.now x.half.state) };

    ghost check = { λ x. asked_of x.half relative_check };

    /// The bound at choice `c`.
    fn check_at(self, c: u32) -> Result<(), Objection> {
        let stands = self.half.bound_stands(self.half.dir, c);
        judged(stands, Rule::BoundOnEachChoice, self.half.state, Some(c))
    }
}

impl MeanHalf<'_> {
    ghost use Rattle.mdp_bounds.specs.MeanClaim.{sum_stands, step_stands, asked_of};

    /// Whether the upper gain is at least, or the lower one at most, the sum of the gains over the row of choice `c`.
    fn sum_stands(self, dir: Dir, c: u32) -> Result<bool, Wide>
        requires { c < length (choices_at self.model.now self.state) }
        ensures { result_ok result ≡ sum_stands dir self.entry c }
    {
        let gains = self.gains.values;
        let row = self.model.row(self.state, c);
        let sum = row_sum(row, &Frac::whole(0), gains)?;
        Ok(value_stands(dir, &gains[self.state as usize], &sum))
    }

    /// The same, without a sum where all gains are one number.
    fn gain_stands(self, dir: Dir, c: u32) -> Result<bool, Wide>
        requires { c < length (choices_at self.model.now self.state) }
        ensures { result_ok result ≡ sum_stands dir self.entry c }
    {
        let gains = self.gains;
        if gains.are_one {
            self.model.known();
            return Ok(true);
        }
        self.sum_stands(dir, c)
    }

    /// Whether the upper gain and the bound together are at least, or the lower one and the bound at most, what choice `c` earns by the bound: its
    /// reward and the sum over its row.
    fn bound_stands(self, dir: Dir, c: u32) -> Result<bool, Wide>
        requires { c < length (choices_at self.model.now self.state) }
        ensures { result_ok result ≡ step_stands dir self.entry c }
    {
        let step = step_at(self.gains, self.relative, self.state)?;
        let reward = self.model.reward(self.name, self.state, c);
        let sum = row_sum(self.model.row(self.state, c), &reward, self.relative)?;
        Ok(value_stands(dir, &step, &sum))
    }

    /// The rules of each choice.
    fn on_each(self) -> Result<(), Objection>
        ensures { result ≡ objection_to (asked_of self.entry gains_cover) }
    {
        each_choice(self.model, self.state, GainHalf { half: self })?;
        each_choice(self.model, self.state, BoundHalf { half: self })
    }

    /// The rules of the policy's choice `c`.
    fn on_policy(self, c: u32) -> Result<(), Objection>
        requires { c < length (choices_at self.model.now self.state) }
        ensures { result ≡ objection_to (asked_of self.entry gains_follow c) }
    {
        let keeps = self.gain_stands(reversed(self.dir), c);
        judged(keeps, Rule::GainOnPolicy, self.state, Some(c))?;
        let earns = self.bound_stands(reversed(self.dir), c);
        judged(earns, Rule::BiasOnPolicy, self.state, Some(c))
    }
}

/// Lower and upper gains, a bound, a bias and a policy that are held against a model.
#[derive(Clone, Copy)]
struct MeanBoundsClaim<'a> {
    dir: Dir,
    model: &'a Model,
    name: u32,
    lower: Gains<'a>,
    upper: Gains<'a>,
    bound: &'a [Frac],
    bias: &'a [Frac],
    choices: &'a [u32],
    ghost named: { name < length model.now.names },
    ghost lower_each: { length lower.values.now ≡ states_of model.now },
    ghost upper_each: { length upper.values.now ≡ states_of model.now },
    ghost bound_each: { length bound.now ≡ states_of model.now },
    ghost bias_each: { length bias.now ≡ states_of model.now },
    ghost choices_each: { length choices.now ≡ states_of model.now },
}

impl Checks for MeanBoundsClaim<'_> {
    ghost use Rattle.mdp_bounds.specs.MeanClaim.{rules_at};

    ghost count = { λ x. states_of x.model.now };

    ghost checks = { λ x s. rules_at x s (slice_index x.choices.now s) };

    /// The rules at state `s`.
    fn check(self, s: u32) -> Result<(), Objection> {
        self.state_at(s, self.choices[s as usize])
    }
}

impl<'a> MeanBoundsClaim<'a> {
    ghost use Rattle.mdp_bounds.specs.MeanClaim.{covers_at, follows_at, rules_at, all_checks};

    /// The gains that the half on each choice is asked of in this direction.
    fn covering(self, dir: Dir) -> Gains<'a>
        ensures values { result.values.now ≡ covering dir self.entry.lower.values.now self.entry.upper.values.now }
        ensures one_each { length result.values.now ≡ states_of self.entry.model.now }
    {
        match dir {
            Dir::Max => self.upper,
            Dir::Min => self.lower,
        }
    }

    /// The half on each choice, at state `s`.
    fn covers(self, s: u32) -> Result<(), Objection>
        requires { s < states_of self.model.now }
        ensures { result ≡ objection_to (covers_at self.entry s) }
    {
        let half = MeanHalf {
            dir: self.dir,
            model: self.model,
            name: self.name,
            gains: self.covering(self.dir),
            relative: self.bound,
            state: s,
        };
        half.on_each()
    }

    /// The half on the policy's choice, at state `s`.
    fn follows(self, s: u32, choice: u32) -> Result<(), Objection>
        requires state { s < states_of self.model.now }
        requires choice { choice < length (choices_at self.model.now s) }
        ensures { result ≡ objection_to (follows_at self.entry s choice) }
    {
        let half = MeanHalf {
            dir: self.dir,
            model: self.model,
            name: self.name,
            gains: self.covering(reversed(self.dir)),
            relative: self.bias,
            state: s,
        };
        half.on_policy(choice)
    }

    /// The rules at state `s`, where the policy takes this choice.
    fn state_at(self, s: u32, choice: u32) -> Result<(), Objection>
        requires { s < states_of self.model.now }
        ensures { result ≡ objection_to (rules_at self.entry s choice) }
    {
        choice_at(self.model, s, choice)?;
        self.covers(s)?;
        self.follows(s, choice)
    }

    /// All rules: those at each state, and that of the spread.
    fn walk(self, spread: &Frac) -> Result<(), Objection>
        ensures { result ≡ objection_to (all_checks self.entry spread.now) }
    {
        each_below(self.model.states(), self)?;
        let holds = spread_holds(self.bound, self.bias, spread);
        judged_at(holds, Rule::SpreadIsGreatest, None, None)
    }
}

/// The rules at state `s` for this certificate: the first that fails, or the first sum past width.
pub fn mean_bounds_at_state(
    model: &Model,
    m: u32,
    dir: Dir,
    cert: &MeanBoundsCert,
    s: u32,
) -> Result<(), Objection>
    requires name { m < length model.now.names }
    requires lower { length cert.now.lower.items ≡ states_of model.now }
    requires upper { length cert.now.upper.items ≡ states_of model.now }
    requires bound { length cert.now.bound.items ≡ states_of model.now }
    requires bias { length cert.now.bias.items ≡ states_of model.now }
    requires choices { length cert.now.choices.items ≡ states_of model.now }
    requires state { s < states_of model.now }
    ensures { result
        ≡ objection_to (mean_bounds_at dir model.now m cert.now.lower.items cert.now.upper.items cert.now.bound.items cert.now.bias.items
        s (slice_index cert.now.choices.items s)) }
{
    let claim = MeanBoundsClaim {
        dir,
        model,
        name: m,
        lower: Gains::any(&cert.lower),
        upper: Gains::any(&cert.upper),
        bound: &cert.bound,
        bias: &cert.bias,
        choices: &cert.choices,
    };
    claim.check(s)
}

/// Whether the greatest, or the least, mean payoffs of the reward name of place `m` lie between the gains, and those of the policy too: what
/// rules 2 and 16 to 20 say of the gains, the bound, the bias, the spread and the policy. Yes, the first rule that is false with its place,
/// or the place of the first sum past width where that comes before; the rule of the spread has no place. The least and the greatest reward get
/// yes on every model, and so do exact gains that `holds_mean` says yes of, as lower and upper gains. It takes no memory.
pub fn holds_bounds_mean(model: &Model, m: u32, dir: Dir, cert: &MeanBoundsCert) -> Verdict
    requires name { m < length model.now.names }
    requires lower { length cert.now.lower.items ≡ states_of model.now }
    requires upper { length cert.now.upper.items ≡ states_of model.now }
    requires bound { length cert.now.bound.items ≡ states_of model.now }
    requires bias { length cert.now.bias.items ≡ states_of model.now }
    requires choices { length cert.now.choices.items ≡ states_of model.now }
    ensures verdict { result
        ≡ verdict_of (mean_bounds_checks dir model.now m cert.now.lower.items cert.now.upper.items
        cert.now.bound.items cert.now.bias.items cert.now.spread cert.now.choices.items) }
    ensures rules { IsYes result
        ↔ IsMeanBounds dir model.now m cert.now.lower.items cert.now.upper.items
        cert.now.bound.items cert.now.bias.items cert.now.spread cert.now.choices.items }
    ensures max { dir ≡ Max
        → IfYes result (MeanMaxBetween model.now m cert.now.lower.items cert.now.upper.items cert.now.spread cert.now.choices.items) }
    ensures min { dir ≡ Min
        → IfYes result (MeanMinBetween model.now m cert.now.lower.items cert.now.upper.items cert.now.spread cert.now.choices.items) }
    ensures exact { cert.now.upper.items ≡ cert.now.lower.items
        → IsMean dir model.now m cert.now.lower.items cert.now.bound.items cert.now.bias.items cert.now.spread cert.now.choices.items → IsYes result }
    ensures trivial { IsTrivialMean model.now m cert.now.lower.items cert.now.upper.items
        cert.now.bound.items cert.now.bias.items cert.now.spread cert.now.choices.items
        → IsYes result }
{
    model.known();
    let claim = MeanBoundsClaim {
        dir,
        model,
        name: m,
        lower: Gains::new(cert.lower.as_slice()),
        upper: Gains::new(cert.upper.as_slice()),
        bound: cert.bound.as_slice(),
        bias: cert.bias.as_slice(),
        choices: cert.choices.as_slice(),
    };
    verdict_after(claim.walk(&cert.spread))
}
