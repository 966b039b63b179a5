ghost use Rattle.std.specs.Prelude.{◌≡◌, ◌<◌, ◌++◌, length, take, map, codes, slice_index_or, OnOk};
ghost use Rattle.mdp_num.specs.Value.{spelling};
ghost use Rattle.mdp_spec.specs.{Mdp.{Entry, states_of, choices_at, no_choice}, Row.{entries}, Unit.{reward_of}};
ghost use Rattle.mdp_drn.specs.{Writing.{joined, line, entry_text, row_text, choices_text}, Pieces.{separator_text, choice_line_text, choice_text}};

use crate::push::{push_between, push_bytes, push_fraction, push_separator};
use mdp_num::Frac;
use mdp_rows::{Model, Row};
use std::alloc::AllocError;

/// Appends the line of an entry.
fn push_entry(target: u32, prob: &Frac, out: &mut Vec<u8>) -> Result<(), AllocError>
    ensures text { OnOk result (out.new.items ≡ out.old.items ++ line (entry_text (record { target = target; prob = prob.now }))) }
    ensures front { take (length out.old.items) out.new.items ≡ out.old.items }
{
    push_between(b"\t\t", target, b" : ", out)?;
    push_fraction(prob, out)?;
    push_bytes(b"\n", out)
}

/// Appends the lines of a row.
fn push_row(row: &Row, out: &mut Vec<u8>) -> Result<(), AllocError>
    ensures text { OnOk result (out.new.items ≡ out.old.items ++ row_text (entries row.now.targets.now row.now.probs.now)) }
    ensures front { take (length out.old.items) out.new.items ≡ out.old.items }
{
    for i in 0..row.targets.len() {
        push_entry(row.targets[i], &row.probs[i], out)?;
    }
    Ok(())
}

/// Appends the reward of place `m`, behind a comma and a blank unless it is the first.
fn push_reward(model: &Model, m: u32, s: u32, c: u32, out: &mut Vec<u8>) -> Result<(), AllocError>
    requires name { m < length model.now.names }
    requires state { s < states_of model.now }
    requires choice { c < length (choices_at model.now s) }
    ensures text { OnOk result (out.new.items ≡ out.old.items ++ (separator_text (codes ", ") m
        ++ spelling (reward_of (slice_index_or (choices_at model.now s) c no_choice) m))) }
    ensures front { take (length out.old.items) out.new.items ≡ out.old.items }
{
    push_separator(m, b", ", out)?;
    push_fraction(&model.reward(m, s, c), out)
}

/// Appends the rewards of choice `c` at state `s` with a comma and a blank between two.
fn push_rewards(model: &Model, s: u32, c: u32, out: &mut Vec<u8>) -> Result<(), AllocError>
    requires state { s < states_of model.now }
    requires choice { c < length (choices_at model.now s) }
    ensures text { OnOk result (out.new.items ≡ out.old.items ++ joined (codes ", ")
        (map spelling (slice_index_or (choices_at model.now s) c no_choice).rewards)) }
    ensures front { take (length out.old.items) out.new.items ≡ out.old.items }
{
    model.known();
    for m in 0..model.names() {
        push_reward(model, m, s, c, out)?;
    }
    Ok(())
}

/// Appends the line of choice `c` at state `s`.
fn push_choice_line(model: &Model, s: u32, c: u32, out: &mut Vec<u8>) -> Result<(), AllocError>
    requires state { s < states_of model.now }
    requires choice { c < length (choices_at model.now s) }
    ensures text { OnOk result (out.new.items ≡ out.old.items ++ choice_line_text c (slice_index_or (choices_at model.now s) c no_choice)) }
    ensures front { take (length out.old.items) out.new.items ≡ out.old.items }
{
    push_between(b"\taction ", c, b" [", out)?;
    push_rewards(model, s, c, out)?;
    push_bytes(b"]\n", out)
}

/// Appends the lines of choice `c` at state `s`.
fn push_choice(model: &Model, s: u32, c: u32, out: &mut Vec<u8>) -> Result<(), AllocError>
    requires state { s < states_of model.now }
    requires choice { c < length (choices_at model.now s) }
    ensures text { OnOk result (out.new.items ≡ out.old.items ++ choice_text c (slice_index_or (choices_at model.now s) c no_choice)) }
    ensures front { take (length out.old.items) out.new.items ≡ out.old.items }
{
    push_choice_line(model, s, c, out)?;
    push_row(&model.row(s, c), out)
}

/// Appends the lines of all choices of state `s`.
pub(crate) fn push_choices(model: &Model, s: u32, out: &mut Vec<u8>) -> Result<(), AllocError>
    requires { s < states_of model.now }
    ensures text { OnOk result (out.new.items ≡ out.old.items ++ choices_text 0 (choices_at model.now s)) }
    ensures front { take (length out.old.items) out.new.items ≡ out.old.items }
{
    for c in 0..model.choices(s) {
        push_choice(model, s, c, out)?;
    }
    Ok(())
}
