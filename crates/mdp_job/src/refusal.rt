ghost use Rattle.std.specs.Prelude.{◌≡◌, ◌++◌, OnOk, OnErr};
ghost use Rattle.mdp_job.specs.{Refusal.{plain_refusal, no_job}, Status.{status_of}};
ghost use Rattle.mdp_job.specs.Text.{text_of, words_word, at_line, place_text, number_or_dash, below_text, undecided_text, part_word, kind_word};
ghost use Rattle.mdp_job.specs.Text.{policy_words, too_wide_text};
ghost use Rattle.mdp_job.specs.WideLines.{wide_place, policy_line};
ghost use Rattle.mdp_text.specs.{Answer.{Keeps}, Parts.{part_text, parts_text}};
ghost use Rattle.mdp_wide.specs.Term.{shown};

use crate::status::Status;
use crate::words_error::WordsError;
use mdp_claims::Fault;
use mdp_drn::DrnKind;
use mdp_num::{Frac, Memory};
use mdp_text::Part::{Bytes, Fraction, Whole};
use mdp_text::{CertKind, Part as TextPart, or_cut_back, push_parts, push_word};
use mdp_wide::{Kind, Part, TooWide};

/// An answer other than that the work was done, but for a fault of the sink.
#[derive(Drop)]
pub enum Refusal {
    /// The words are no job.
    Words(WordsError),
    /// The model's text breaks a rule, first at this line; the end of the text has the number of lines plus 1.
    Model {
        line: u64,
        kind: DrnKind,
    },
    /// The certificate, or the policy, has another number of states than the model.
    QuerySize,
    /// The reward's name isn't in the model.
    QueryReward,
    /// The label isn't in the model.
    QueryLabel,
    /// The model hasn't exactly one initial state.
    QueryInit,
    /// A reward of the name until a goal is below 0.
    QueryNegative,
    /// The steps of `horizon` times the states are above 2^22.
    QuerySteps,
    /// A choice of the policy isn't one of its state.
    QueryChoice,
    /// A written term of what was to be solved is past width, at this place.
    TooWide(TooWide),
    /// A written term of the check is past width, at this place.
    CheckWide {
        state: Option<u32>,
        choice: Option<u32>,
    },
    /// A sum of `horizon` is past width, with so many steps left, at this place.
    HorizonWide {
        depth: u32,
        state: u32,
        choice: u32,
    },
    /// A rule of the certificate is false.
    Denied(Fault),
    /// The model's source failed.
    ReadModel,
    /// The second source failed.
    ReadCertificate,
    /// The model's source gave more than 2^30 bytes.
    LongModel,
    /// The second source gave more than 2^30 bytes.
    LongCertificate,
    /// The certificate's text breaks a rule, first at this line.
    CertText {
        line: u64,
        kind: CertKind,
    },
    /// The policy's text breaks a rule, first at this line.
    PolicyText {
        line: u64,
        kind: CertKind,
    },
    /// The best probability, or an upper value of it, which is below the threshold.
    Below(Frac),
    /// A lower and an upper value of the best probability, between which the threshold lies.
    Undecided {
        lower: Frac,
        upper: Frac,
    },
    /// Memory was refused.
    Memory,
}

/// The text of want of memory.
pub const MEMORY_TEXT: &[u8] = b"memory\n";

impl Refusal {
    /// The status with which a run ends that gives this refusal.
    pub fn status(&self) -> Status
        ensures { result ≡ status_of (plain_refusal self.now) }
    {
        match self {
            Refusal::Words(_) => Status::Words,
            Refusal::Model { .. } => Status::Model,
            Refusal::QuerySize
            | Refusal::QueryReward
            | Refusal::QueryLabel
            | Refusal::QueryInit
            | Refusal::QueryNegative
            | Refusal::QuerySteps
            | Refusal::QueryChoice => Status::Query,
            Refusal::TooWide(_) | Refusal::CheckWide { .. } | Refusal::HorizonWide { .. } => {
                Status::TooWide
            }
            Refusal::Denied(_) => Status::Denied,
            Refusal::ReadModel | Refusal::ReadCertificate => Status::ReadFault,
            Refusal::LongModel | Refusal::LongCertificate => Status::Long,
            Refusal::CertText { .. } | Refusal::PolicyText { .. } => Status::CertText,
            Refusal::Below(_) => Status::Below,
            Refusal::Undecided { .. } => Status::Undecided,
            Refusal::Memory => Status::Memory,
        }
    }
}

/// The word for why words are no job.
fn words_word(error: WordsError) -> &'static str
    ensures { result.now ≡ words_word error }
{
    match error {
        WordsError::Command => "command",
        WordsError::Number => "number",
        WordsError::Rows => "rows",
        WordsError::Direction => "direction",
        WordsError::Objective => "objective",
        WordsError::Threshold => "threshold",
        WordsError::Drill => "drill",
        WordsError::Steps => "steps",
        WordsError::Factor => "factor",
        WordsError::Digits => "digits",
        WordsError::Encoding => "encoding",
    }
}

/// A number, or `-` where there is none.
fn number_or_dash(number: Option<u32>) -> TextPart<'static>
    ensures { part_text result ≡ number_or_dash number }
{
    match number {
        Some(number) => Whole(u64::from(number)),
        None => Bytes(b"-"),
    }
}

/// Appends the parts and ` state S choice C`, with `-` for a state or a choice that isn't there, and ends the line.
fn push_with_place(
    front: &[TextPart<'_>],
    state: Option<u32>,
    choice: Option<u32>,
    out: &mut Vec<u8>,
) -> Result<(), Memory>
    ensures text { OnOk result (out.new.items ≡ out.old.items ++ (parts_text front.now ++ place_text state choice)) }
    ensures front { Keeps out.old.items out.new.items }
{
    push_parts(out, front)?;
    let place = [
        Bytes(b" state "),
        number_or_dash(state),
        Bytes(b" choice "),
        number_or_dash(choice),
        Bytes(b"\n"),
    ];
    push_parts(out, &place)
}

/// Appends a line that is the same for each refusal of its kind.
fn push_line(line: &[u8], out: &mut Vec<u8>) -> Result<(), Memory>
    ensures text { OnOk result (out.new.items ≡ out.old.items ++ line.now) }
    ensures front { Keeps out.old.items out.new.items }
{
    push_parts(out, &[Bytes(line)])
}

/// Appends the line of words that are no job.
fn push_words(error: WordsError, out: &mut Vec<u8>) -> Result<(), Memory>
    ensures text { OnOk result (out.new.items ≡ out.old.items ++ text_of (no_job error)) }
    ensures front { Keeps out.old.items out.new.items }
{
    let word = words_word(error).as_bytes();
    push_parts(out, &[Bytes(b"words "), Bytes(word), Bytes(b"\n")])
}

/// Appends `WHAT line L WHY`, and ends the line.
fn push_at<'a>(what: &'a str, line: u64, why: &'a str, out: &mut Vec<u8>) -> Result<(), Memory>
    ensures text { OnOk result (out.new.items ≡ out.old.items ++ at_line what.now line why.now) }
    ensures front { Keeps out.old.items out.new.items }
{
    push_parts(
        out,
        &[
            Bytes(what.as_bytes()),
            Bytes(b" line "),
            Whole(line),
            Bytes(b" "),
            Bytes(why.as_bytes()),
            Bytes(b"\n"),
        ],
    )
}

/// Appends the word for a part of what is solved.
fn push_part(part: Part, out: &mut Vec<u8>) -> Result<(), Memory>
    ensures text { OnOk result (out.new.items ≡ out.old.items ++ part_word part) }
    ensures front { Keeps out.old.items out.new.items }
{
    match part {
        Part::Whole => push_line(b"whole", out),
        Part::Inner(number) => push_parts(out, &[Bytes(b"inner-"), Whole(u64::from(number))]),
        Part::Outer => push_line(b"outer", out),
        Part::Steps => push_line(b"steps", out),
        Part::Join => push_line(b"join", out),
        Part::Flow => push_line(b"flow", out),
        Part::Floor => push_line(b"floor", out),
    }
}

/// The word for what was computed.
fn kind_word(kind: Kind) -> &'static str
    ensures { result.now ≡ kind_word kind }
{
    match kind {
        Kind::Evaluate => "evaluate",
        Kind::Compare => "compare",
        Kind::Check => "check",
    }
}

/// Appends the choices of a policy, each behind one blank.
fn push_policy(policy: &[u32], out: &mut Vec<u8>) -> Result<(), Memory>
    ensures text { OnOk result (out.new.items ≡ out.old.items ++ policy_words policy.now) }
    ensures front { Keeps out.old.items out.new.items }
{
    for choice in policy {
        push_word(out, u64::from(*choice))?;
    }
    Ok(())
}

/// Appends the place of a term past width, down to the end of the line.
fn push_wide_place(wide: &TooWide, out: &mut Vec<u8>) -> Result<(), Memory>
    ensures text { OnOk result (out.new.items ≡ out.old.items ++ wide_place (shown wide.now wide.now.round)) }
    ensures front { Keeps out.old.items out.new.items }
{
    let kind = kind_word(wide.kind).as_bytes();
    push_part(wide.part, out)?;
    let round = [
        Bytes(b" round "),
        Whole(wide.round),
        Bytes(b" kind "),
        Bytes(kind),
    ];
    push_with_place(&round, wide.state, wide.choice, out)
}

/// Appends the line of a policy.
fn push_policy_line(policy: &[u32], out: &mut Vec<u8>) -> Result<(), Memory>
    ensures text { OnOk result (out.new.items ≡ out.old.items ++ policy_line policy.now) }
    ensures front { Keeps out.old.items out.new.items }
{
    push_line(b"policy", out)?;
    push_policy(policy, out)?;
    push_line(b"\n", out)
}

/// Appends the two lines of a term past width in what was to be solved.
fn push_too_wide(wide: &TooWide, out: &mut Vec<u8>) -> Result<(), Memory>
    ensures text { OnOk result (out.new.items ≡ out.old.items ++ too_wide_text (shown wide.now wide.now.round)) }
    ensures front { Keeps out.old.items out.new.items }
{
    push_line(b"too-wide part ", out)?;
    push_wide_place(wide, out)?;
    push_policy_line(&wide.policy, out)
}

/// Appends the line of the best probability, or of an upper value of it, where it is below the threshold.
fn push_below(value: &Frac, out: &mut Vec<u8>) -> Result<(), Memory>
    ensures text { OnOk result (out.new.items ≡ out.old.items ++ below_text value.now) }
    ensures front { Keeps out.old.items out.new.items }
{
    push_parts(out, &[Bytes(b"below "), Fraction(*value), Bytes(b"\n")])
}

/// Appends the line of a lower and an upper value between which the threshold lies.
fn push_undecided(lower: &Frac, upper: &Frac, out: &mut Vec<u8>) -> Result<(), Memory>
    ensures text { OnOk result (out.new.items ≡ out.old.items ++ undecided_text lower.now upper.now) }
    ensures front { Keeps out.old.items out.new.items }
{
    push_parts(
        out,
        &[
            Bytes(b"undecided "),
            Fraction(*lower),
            Bytes(b" "),
            Fraction(*upper),
            Bytes(b"\n"),
        ],
    )
}

/// Appends the refusal's line, where what stands before it may have grown by a part of it on `Err`.
fn push_text(refusal: &Refusal, out: &mut Vec<u8>) -> Result<(), Memory>
    ensures text { OnOk result (out.new.items ≡ out.old.items ++ text_of (plain_refusal refusal.now)) }
    ensures front { Keeps out.old.items out.new.items }
{
    match refusal {
        Refusal::Words(error) => push_words(*error, out),
        Refusal::Model { line, kind } => push_at("model", *line, kind.word(), out),
        Refusal::QuerySize => push_line(b"query size\n", out),
        Refusal::QueryReward => push_line(b"query reward\n", out),
        Refusal::QueryLabel => push_line(b"query label\n", out),
        Refusal::QueryInit => push_line(b"query init\n", out),
        Refusal::QueryNegative => push_line(b"query negative\n", out),
        Refusal::QuerySteps => push_line(b"query steps\n", out),
        Refusal::QueryChoice => push_line(b"query choice\n", out),
        Refusal::TooWide(wide) => push_too_wide(wide, out),
        Refusal::CheckWide { state, choice } => {
            push_with_place(&[Bytes(b"too-wide check")], *state, *choice, out)
        }
        Refusal::HorizonWide {
            depth,
            state,
            choice,
        } => {
            let front = [Bytes(b"too-wide horizon depth "), Whole(u64::from(*depth))];
            push_with_place(&front, Some(*state), Some(*choice), out)
        }
        Refusal::Denied(fault) => {
            let number = u64::from(fault.rule.number());
            let front = [Bytes(b"denied rule "), Whole(number)];
            push_with_place(&front, fault.state, fault.choice, out)
        }
        Refusal::ReadModel => push_line(b"read-fault model\n", out),
        Refusal::ReadCertificate => push_line(b"read-fault certificate\n", out),
        Refusal::LongModel => push_line(b"long model\n", out),
        Refusal::LongCertificate => push_line(b"long certificate\n", out),
        Refusal::CertText { line, kind } => push_at("cert", *line, kind.word(), out),
        Refusal::PolicyText { line, kind } => push_at("policy", *line, kind.word(), out),
        Refusal::Below(value) => push_below(value, out),
        Refusal::Undecided { lower, upper } => push_undecided(lower, upper, out),
        Refusal::Memory => push_line(MEMORY_TEXT, out),
    }
}

/// Appends the refusal's line of text, its line feed included. After `Memory` the text is as before.
pub fn push_refusal(refusal: &Refusal, out: &mut Vec<u8>) -> Result<(), Memory>
    ensures appended { OnOk result (out.new.items ≡ out.old.items ++ text_of (plain_refusal refusal.now)) }
    ensures unchanged { OnErr result (out.new.items ≡ out.old.items) }
{
    let start = out.len();
    let answer = push_text(refusal, out);
    or_cut_back(out, start, answer)
}
