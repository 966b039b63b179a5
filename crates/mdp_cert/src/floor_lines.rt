ghost use Rattle.std.specs.Prelude.{◌≡◌, IfOk, option_map};
ghost use Rattle.mdp_cert.specs.{Cert.{plain_body}, Witness.{floor_line_at, floor_listed, floor_lines, floor_body}};

use crate::body::Body;
use crate::column::{Column, column_of};
use crate::floor_line::FloorLine;
use crate::flow_lines::is_in_order;
use crate::listed::{Line, Lines};
use crate::mark::{mark_at, mark_word};
use crate::words::four_words;
use mdp_claims::FloorCert;
use mdp_num::{Frac, Memory, read_canonical};
use mdp_text::Part::{Bytes, Fraction, Whole};
use mdp_text::{CertKind, Refusal, push_parts, refuse_if, whole_of, words_behind};
use std::alloc::{AllocError, Global};

/// The state of the line before.
fn state_before(before: &Option<FloorLine>) -> Option<u32>
    ensures { result ≡ option_map (λ x. x.state) before.now }
{
    match before {
        Some(line) => Some(line.state),
        None => None,
    }
}

/// The lines of the claim `min witness`: the kept states with their values and ranks.
impl Line for FloorLine {
    ghost listed = { floor_listed };

    #[tactic(auto, unfolding(crate::specs::Witness::floor_line_at, mdp_text::specs::Words::whole_at, mdp_text::specs::Words::frac_at))]
    fn read(
        states: u32,
        before: &Option<FloorLine>,
        line: u64,
        text: &[u8],
    ) -> Result<FloorLine, Refusal> {
        let behind = words_behind(line, text, b"keep", 4)?;
        let (state, value, rank, mark) = four_words(behind);
        let wide = mark_at(line, mark)?;
        let (Some(state), Some(value), Some(rank)) = (
            whole_of(state),
            read_canonical(value),
            whole_of(rank),
        ) else {
            return Err(Refusal {
                kind: CertKind::Number,
                line,
            });
        };
        refuse_if(
            CertKind::Count,
            line,
            !is_in_order(state_before(before), state, states),
        )?;
        Ok(FloorLine {
            state,
            value,
            rank,
            wide,
        })
    }

    fn push_words(&self, out: &mut Vec<u8>) -> Result<(), Memory> {
        push_parts(
            out,
            &[
                Bytes(b"keep "),
                Whole(u64::from(self.state)),
                Bytes(b" "),
                Fraction(self.value),
                Bytes(b" "),
                Whole(u64::from(self.rank)),
                Bytes(b" "),
                Bytes(mark_word(self.wide)),
            ],
        )
    }
}

impl Lines for FloorCert {
    type Item = FloorLine;

    ghost lines = { λ c. floor_lines c.kept.items c.wide.items c.values.items c.ranks.items };

    fn line(&self, place: usize) -> FloorLine {
        FloorLine {
            state: self.kept[place],
            value: self.values[place],
            rank: self.ranks[place],
            wide: self.wide[place],
        }
    }
}

/// The column of kept states.
struct KeptState;

impl Column<FloorLine> for KeptState {
    type Item = u32;

    ghost field = { λ x. x.state };

    fn of(entry: &FloorLine) -> u32 {
        entry.state
    }
}

/// The column of marks.
struct Mark;

impl Column<FloorLine> for Mark {
    type Item = bool;

    ghost field = { λ x. x.wide };

    fn of(entry: &FloorLine) -> bool {
        entry.wide
    }
}

/// The column of values.
struct Value;

impl Column<FloorLine> for Value {
    type Item = Frac;

    ghost field = { λ x. x.value };

    fn of(entry: &FloorLine) -> Frac {
        entry.value
    }
}

/// The column of ranks.
struct Rank;

impl Column<FloorLine> for Rank {
    type Item = u32;

    ghost field = { λ x. x.rank };

    fn of(entry: &FloorLine) -> u32 {
        entry.rank
    }
}

/// The kept states with their marks, values and ranks, of these lines.
pub(crate) fn floor_body(alloc: Global, lines: &[FloorLine]) -> Result<Body, AllocError>
    ensures { IfOk result (λ b. plain_body b ≡ floor_body lines.now) }
{
    Ok(Body::Floor(FloorCert {
        kept: column_of::<KeptState, _>(alloc, lines)?,
        wide: column_of::<Mark, _>(alloc, lines)?,
        values: column_of::<Value, _>(alloc, lines)?,
        ranks: column_of::<Rank, _>(alloc, lines)?,
    }))
}
