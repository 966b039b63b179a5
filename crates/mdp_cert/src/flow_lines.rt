ghost use Rattle.std.specs.{Prelude.{◌≡◌, ◌&&◌, ◌++◌, ◌∷◌, [], nat_lt, IfOk, OnOk, length, filter_map, option_and_then}, List.{join_with_byte}};
ghost use Rattle.mdp_text.specs.Answer.{Keeps};
ghost use Rattle.mdp_cert.specs.{declared.flow_line.FlowLine.TheVariants.{Keep, Send}, Cert.{is_next, is_next_flow, plain_body}};
ghost use Rattle.mdp_cert.specs.Witness.{keep_at, flow_at, flow_line_at, kept_in, mark_in, flow_in, flow_line_words, flow_listed, keep_lines};
ghost use Rattle.mdp_cert.specs.Witness.{flow_lines, flow_body};

use crate::body::Body;
use crate::flow_line::FlowLine;
use crate::listed::{Line, Lines};
use crate::mark::{mark_at, mark_word};
use crate::words::three_words;
use mdp_claims::{Flow, FlowCert};
use mdp_num::{Memory, read_canonical};
use mdp_text::Part::{Bytes, Fraction, Whole};
use mdp_text::{
    CertKind, Refusal, begins_with, cut_word, only_word, push_parts, refuse_if, whole_at, whole_of,
    words_behind,
};
use std::alloc::{AllocError, Global};

/// Whether a state's number may stand behind this one.
fn is_next(before: Option<u32>, state: u32) -> bool
    ensures { result ≡ is_next before state }
{
    match before {
        Some(before) => before < state,
        None => true,
    }
}

/// Whether a state of so many may stand behind this one.
pub(crate) fn is_in_order(before: Option<u32>, state: u32, states: u32) -> bool
    ensures { result ≡ (is_next before state && nat_lt state states) }
{
    is_next(before, state) && state < states
}

/// Whether a flow on so many states may stand behind this one.
fn is_flow_in_order(before: &Option<Flow>, flow: &Flow, states: u32) -> bool
    ensures { result ≡ (is_next_flow before.now flow.now && nat_lt flow.now.state states) }
{
    is_next_flow(before, flow) && flow.state < states
}

/// Whether a flow may stand behind this one.
fn is_next_flow(before: &Option<Flow>, flow: &Flow) -> bool
    ensures { result ≡ is_next_flow before.now flow.now }
{
    match before {
        Some(before) => {
            before.state < flow.state || before.state == flow.state && before.choice < flow.choice
        }
        None => true,
    }
}

/// The state that the line before keeps.
fn kept_before(before: &Option<FlowLine>) -> Option<u32>
    ensures { result ≡ option_and_then kept_in before.now }
{
    match before {
        Some(FlowLine::Keep { state, .. }) => Some(*state),
        Some(FlowLine::Send(_)) | None => None,
    }
}

/// The flow that the line before says.
fn flow_before(before: &Option<FlowLine>) -> Option<Flow>
    ensures { result ≡ option_and_then flow_in before.now }
{
    match before {
        Some(FlowLine::Send(flow)) => Some(*flow),
        Some(FlowLine::Keep { .. }) | None => None,
    }
}

/// The state of the line `keep N MARK` behind this state.
#[tactic(auto, unfolding(crate::specs::Witness::keep_at))]
fn keep_at(states: u32, before: Option<u32>, line: u64, text: &[u8]) -> Result<FlowLine, Refusal>
    ensures { result ≡ keep_at states before line text.now }
{
    let behind = words_behind(line, text, b"keep", 2)?;
    let (number, mark) = cut_word(behind);
    let wide = mark_at(line, only_word(mark))?;
    let state = whole_at(line, number)?;
    refuse_if(CertKind::Count, line, !is_in_order(before, state, states))?;
    Ok(FlowLine::Keep { state, wide })
}

/// The flow of the line `flow N CHOICE AMOUNT` behind this flow.
#[tactic(auto, unfolding(crate::specs::Witness::flow_at, mdp_text::specs::Words::whole_at, mdp_text::specs::Words::frac_at))]
fn flow_at(states: u32, before: &Option<Flow>, line: u64, text: &[u8]) -> Result<FlowLine, Refusal>
    ensures { result ≡ flow_at states before.now line text.now }
{
    let behind = words_behind(line, text, b"flow", 3)?;
    let (state, choice, amount) = three_words(behind);
    let (Some(state), Some(choice), Some(amount)) = (
        whole_of(state),
        whole_of(choice),
        read_canonical(amount),
    ) else {
        return Err(Refusal {
            kind: CertKind::Number,
            line,
        });
    };
    let flow = Flow {
        state,
        choice,
        amount,
    };
    refuse_if(
        CertKind::Count,
        line,
        !is_flow_in_order(before, &flow, states),
    )?;
    Ok(FlowLine::Send(flow))
}

/// Appends the words of a kept state.
fn push_keep(out: &mut Vec<u8>, state: u32, wide: bool) -> Result<(), Memory>
    ensures text { OnOk result (out.new.items ≡ out.old.items ++ join_with_byte 32 (flow_line_words (Keep state wide))) }
    ensures front { Keeps out.old.items out.new.items }
{
    push_parts(
        out,
        &[
            Bytes(b"keep "),
            Whole(u64::from(state)),
            Bytes(b" "),
            Bytes(mark_word(wide)),
        ],
    )
}

/// Appends the words of a flow.
fn push_flow(out: &mut Vec<u8>, flow: &Flow) -> Result<(), Memory>
    ensures text { OnOk result (out.new.items ≡ out.old.items ++ join_with_byte 32 (flow_line_words (Send flow.now))) }
    ensures front { Keeps out.old.items out.new.items }
{
    push_parts(
        out,
        &[
            Bytes(b"flow "),
            Whole(u64::from(flow.state)),
            Bytes(b" "),
            Whole(u64::from(flow.choice)),
            Bytes(b" "),
            Fraction(flow.amount),
        ],
    )
}

/// The lines of the claim `max witness`: the kept states, and behind them the flows.
impl Line for FlowLine {
    ghost listed = { flow_listed };

    #[tactic(auto, unfolding(crate::specs::Witness::flow_line_at))]
    fn read(
        states: u32,
        before: &Option<FlowLine>,
        line: u64,
        text: &[u8],
    ) -> Result<FlowLine, Refusal> {
        let flow = flow_before(before);
        if begins_with(text, b"flow") {
            return flow_at(states, &flow, line, text);
        }
        refuse_if(CertKind::Shape, line, flow.is_some())?;
        keep_at(states, kept_before(before), line, text)
    }

    fn push_words(&self, out: &mut Vec<u8>) -> Result<(), Memory> {
        match self {
            FlowLine::Keep { state, wide } => push_keep(out, *state, *wide),
            FlowLine::Send(flow) => push_flow(out, flow),
        }
    }
}

/// How many lines keep a state: as many as there are states with a mark.
fn keep_count(cert: &FlowCert) -> usize
    ensures { result ≡ length (keep_lines cert.now.kept.items cert.now.wide.items) }
{
    cert.kept.len().min(cert.wide.len())
}

impl Lines for FlowCert {
    type Item = FlowLine;

    ghost lines = { λ c. flow_lines c.kept.items c.wide.items c.flows.items };

    fn line(&self, place: usize) -> FlowLine {
        let kept = keep_count(self);
        if place < kept {
            FlowLine::Keep {
                state: self.kept[place],
                wide: self.wide[place],
            }
        } else {
            FlowLine::Send(self.flows[place - kept])
        }
    }
}

/// Appends what a line says to the lists of a body.
fn push_said(cert: &mut FlowCert, line: &FlowLine) -> Result<(), AllocError>
    ensures kept { OnOk result (cert.new.kept.items ≡ cert.old.kept.items ++ filter_map kept_in (line.now ∷ [])) }
    ensures wide { OnOk result (cert.new.wide.items ≡ cert.old.wide.items ++ filter_map mark_in (line.now ∷ [])) }
    ensures flows { OnOk result (cert.new.flows.items ≡ cert.old.flows.items ++ filter_map flow_in (line.now ∷ [])) }
{
    match line {
        FlowLine::Keep { state, wide } => {
            cert.kept.push(*state)?;
            cert.wide.push(*wide)?;
        }
        FlowLine::Send(flow) => cert.flows.push(*flow)?,
    }
    Ok(())
}

/// The kept states with their marks, and the flows, of these lines.
pub(crate) fn flow_body(alloc: Global, lines: &[FlowLine]) -> Result<Body, AllocError>
    ensures { IfOk result (λ b. plain_body b ≡ flow_body lines.now) }
{
    let mut cert = FlowCert {
        kept: Vec::new(alloc),
        wide: Vec::new(alloc),
        flows: Vec::new(alloc),
    };
    for line in lines {
        push_said(&mut cert, line)?;
    }
    Ok(Body::Flow(cert))
}
