ghost use Rattle.std.specs.{Prelude.{◌≡◌, map}, String.{string_bytes}};
ghost use Rattle.mdp_job.specs.{Job.{asked}, Words.{on_model_by, job_by, job_of}};

use crate::bounds_words::bounds_of;
use crate::curve_words::curve_of;
use crate::drill_words::drill_of;
use crate::model_words::{discount_of, horizon_of, total_of, witness_of};
use crate::pair_words::{pair_of, policy_of};
use crate::query_words::solve_of;
use crate::words_error::WordsError;
use mdp_num::Frac;
use mdp_rows::{Dir, RowRule};

/// What is to be solved.
#[derive(Clone, Copy)]
pub enum Query<'a> {
    /// The probability of reaching a state with this label.
    Reach { label: &'a [u8] },
    /// The probability of reaching a state with this label by way of states with the label `stay` alone.
    Until { stay: &'a [u8], label: &'a [u8] },
    /// The reward of this name until a state with this label.
    Reward { name: &'a [u8], label: &'a [u8] },
    /// The mean payoff of the reward of this name: its gain, without end.
    Mean { name: &'a [u8] },
}

/// What is asked of a model.
#[derive(Clone, Copy)]
pub enum Task<'a> {
    /// `solve MODEL ROWS DIR reach LABEL`, `solve MODEL ROWS DIR until A B`, `solve MODEL ROWS DIR reward NAME LABEL` and
    /// `solve MODEL ROWS DIR mean NAME`: the best values in the direction, with a policy and a certificate.
    Solve {
        dir: Dir,
        query: Query<'a>,
    },
    /// `witness MODEL ROWS DIR LABEL THRESHOLD` and `witness MODEL ROWS DIR until A B THRESHOLD`: a subsystem on which the best probability, in the
    /// direction, of reaching a state with the label from the one initial state, on a way that keeps to states with the label `stay` (to any states,
    /// where that is none), is still at least the threshold.
    Witness {
        dir: Dir,
        stay: Option<&'a [u8]>,
        label: &'a [u8],
        threshold: Frac,
    },
    /// `horizon MODEL ROWS DIR A B STEPS`: the best probability of reaching a state with the label B within so many steps, on a way that keeps to
    /// states with the label A; to any states, where `stay` is none (the word `-`).
    Horizon {
        dir: Dir,
        stay: Option<&'a [u8]>,
        label: &'a [u8],
        steps: u32,
    },
    /// `total MODEL ROWS DIR NAME STEPS`: the best total of the rewards of this name within so many steps.
    Total {
        dir: Dir,
        name: &'a [u8],
        steps: u32,
    },
    /// `discount MODEL ROWS DIR NAME FACTOR`: the best reward of this name, without end, where each step counts the factor less than the one before
    /// it; the factor is at least 0 and below 1.
    Discount {
        dir: Dir,
        name: &'a [u8],
        factor: Frac,
    },
    /// `bounds MODEL ROWS DIR reach LABEL DIGITS`, `bounds MODEL ROWS DIR until A B DIGITS`, `bounds MODEL ROWS DIR reward NAME LABEL DIGITS` and
    /// `bounds MODEL ROWS DIR mean NAME DIGITS`: a lower and an upper value for each state, between which the best value, in the direction, lies, and
    /// a policy; the search tries for so many digits, from 1 to 30.
    Bounds {
        dir: Dir,
        query: Query<'a>,
        digits: u32,
    },
    /// `bounds MODEL ROWS DIR until A B STEPS DIGITS`: bounds of what `horizon MODEL ROWS DIR A B STEPS` asks for, of so many digits, from 1 to 30.
    BoundsUntil {
        dir: Dir,
        stay: Option<&'a [u8]>,
        label: &'a [u8],
        steps: u32,
        digits: u32,
    },
    /// `bounds MODEL ROWS DIR total NAME STEPS DIGITS`: the same of `total MODEL ROWS DIR NAME STEPS`.
    BoundsTotal {
        dir: Dir,
        name: &'a [u8],
        steps: u32,
        digits: u32,
    },
    /// `bounds MODEL ROWS DIR discount NAME FACTOR DIGITS`: the same of `discount MODEL ROWS DIR NAME FACTOR`.
    BoundsDiscount {
        dir: Dir,
        name: &'a [u8],
        factor: Frac,
        digits: u32,
    },
    /// `bounds MODEL ROWS DIR witness LABEL THRESHOLD` and `bounds MODEL ROWS DIR witness until A B THRESHOLD`: a subsystem as `witness` asks for,
    /// shown by bounds in place of exact values.
    BoundsWitness {
        dir: Dir,
        stay: Option<&'a [u8]>,
        label: &'a [u8],
        threshold: Frac,
    },
    /// `curve MODEL ROWS DIR until A B STEPS DIGITS`: for each number of steps up to this one a lower and an upper value of what
    /// `horizon MODEL ROWS DIR A B STEPS` asks for at the one initial state, so many digits near, from 1 to 30.
    CurveUntil {
        dir: Dir,
        stay: Option<&'a [u8]>,
        label: &'a [u8],
        steps: u32,
        digits: u32,
    },
    /// `curve MODEL ROWS DIR total NAME STEPS DIGITS`: the same of `total MODEL ROWS DIR NAME STEPS`.
    CurveTotal {
        dir: Dir,
        name: &'a [u8],
        steps: u32,
        digits: u32,
    },
}

/// What is asked of a model and of a second file, which is read behind it.
#[derive(Clone, Copy)]
pub enum PairTask<'a> {
    /// `check MODEL ROWS CERT`: whether the certificate holds of the model.
    Check,
    /// `policy MODEL ROWS POLICY reach LABEL` and `policy MODEL ROWS POLICY until A B`: the probabilities with which a given policy reaches a state
    /// with the label, on a way that keeps to states with the label `stay` (to any states, where that is none), and where another choice is better.
    Policy {
        stay: Option<&'a [u8]>,
        label: &'a [u8],
    },
    /// `chain MODEL ROWS POLICY`: the model in which each state keeps only the choice that a given policy, or a certificate, names.
    Chain,
    /// `discount-check MODEL ROWS CERT`: whether a certificate of discounted rewards holds of the model.
    DiscountCheck,
    /// `bounds-check MODEL ROWS CERT`: whether a certificate of bounds holds of the model.
    BoundsCheck,
}

/// What the words ask for.
#[derive(Clone, Copy)]
pub enum Job<'a> {
    /// A task on the model of a file, read under the row rule.
    OnModel {
        rule: RowRule,
        task: Task<'a>,
    },
    /// A task on such a model and on a second file.
    OnPair {
        rule: RowRule,
        task: PairTask<'a>,
    },
    /// `drill NUMBER LAYERS WIDTH`: the greatest probability of reaching the goal of a layered model that is drawn from the number.
    Drill {
        number: u64,
        layers: u32,
        width: u32,
    },
}

/// The job that the words behind a command are, where it is one on a model alone.
fn on_model_by<'a>(command: &str, words: &'a [String]) -> Result<Job<'a>, WordsError>
    ensures { asked result ≡ on_model_by command.now (map string_bytes words.now) }
{
    match command {
        "solve" => solve_of(words),
        "witness" => witness_of(words),
        "horizon" => horizon_of(words),
        "total" => total_of(words),
        "discount" => discount_of(words),
        "bounds" => bounds_of(words),
        "curve" => curve_of(words),
        _ => Err(WordsError::Command),
    }
}

/// The job that a command and the words behind it are.
fn job_by<'a>(command: &str, words: &'a [String]) -> Result<Job<'a>, WordsError>
    ensures { asked result ≡ job_by command.now (map string_bytes words.now) }
{
    match command {
        "check" => pair_of(PairTask::Check, words),
        "discount-check" => pair_of(PairTask::DiscountCheck, words),
        "bounds-check" => pair_of(PairTask::BoundsCheck, words),
        "chain" => pair_of(PairTask::Chain, words),
        "policy" => policy_of(words),
        "drill" => drill_of(words),
        _ => on_model_by(command, words),
    }
}

/// The job that the words are, or the first refusal: `Command`, then `Number`, `Rows`, `Direction` and `Objective`, and `Number` again where an
/// objective has another number of words; for `drill` `Drill`, for `horizon` and `total` `Steps`, for `policy` `Objective` behind `Rows`, for
/// `discount` `Factor` and for `witness` `Threshold` behind `Direction`, and for `bounds` and `curve` `Steps` or `Factor`, where the objective has
/// one, and `Digits` behind all of these, or `Threshold` alone. It takes no memory.
pub fn job_of<'a>(words: &'a [String]) -> Result<Job<'a>, WordsError>
    ensures { asked result ≡ job_of words.now }
{
    let [command, rest @ ..] = words else {
        return Err(WordsError::Command);
    };
    job_by(command.as_str(), rest)
}
