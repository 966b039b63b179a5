ghost use Rattle.std.specs.Prelude.{◌≡◌, ◌<◌, ◌++◌, length, take, codes, OnOk};
ghost use Rattle.mdp_spec.specs.Mdp.{states_of, state_at};
ghost use Rattle.mdp_drn.specs.Writing.{joined, label_text, labels_text, states_text};
ghost use Rattle.mdp_drn.specs.Pieces.{separator_text, zeros_of, state_line_text, state_text};

use crate::choice_text::push_choices;
use crate::push::{push_between, push_bytes, push_separator};
use mdp_rows::Model;
use std::alloc::AllocError;

/// Appends the reward 0 of place `m`, behind a comma and a blank unless it is the first.
fn push_zero(m: u32, out: &mut Vec<u8>) -> Result<(), AllocError>
    ensures text { OnOk result (out.new.items ≡ out.old.items ++ (separator_text (codes ", ") m ++ codes "0")) }
    ensures front { take (length out.old.items) out.new.items ≡ out.old.items }
{
    push_separator(m, b", ", out)?;
    push_bytes(b"0", out)
}

/// Appends a reward 0 for each reward name, with a comma and a blank between two.
fn push_zeros(model: &Model, out: &mut Vec<u8>) -> Result<(), AllocError>
    ensures text { OnOk result (out.new.items ≡ out.old.items ++ joined (codes ", ") (zeros_of model.now)) }
    ensures front { take (length out.old.items) out.new.items ≡ out.old.items }
{
    for m in 0..model.names() {
        push_zero(m, out)?;
    }
    Ok(())
}

/// Appends a blank and a label in quotes.
fn push_quoted(name: &[u8], out: &mut Vec<u8>) -> Result<(), AllocError>
    ensures text { OnOk result (out.new.items ≡ out.old.items ++ label_text name.now) }
    ensures front { take (length out.old.items) out.new.items ≡ out.old.items }
{
    push_bytes(b" \"", out)?;
    push_bytes(name, out)?;
    push_bytes(b"\"", out)
}

/// Appends the labels of state `s`, in the model's order.
fn push_labels(model: &Model, s: u32, out: &mut Vec<u8>) -> Result<(), AllocError>
    requires { s < states_of model.now }
    ensures text { OnOk result (out.new.items ≡ out.old.items ++ labels_text model.now.labels (state_at model.now s).labels) }
    ensures front { take (length out.old.items) out.new.items ≡ out.old.items }
{
    model.known();
    let places = model.labels_of(s);
    for i in 0..places.len() {
        push_quoted(model.label_name(places[i]), out)?;
    }
    Ok(())
}

/// Appends the line of state `s`.
fn push_state_line(model: &Model, s: u32, out: &mut Vec<u8>) -> Result<(), AllocError>
    requires { s < states_of model.now }
    ensures text { OnOk result (out.new.items ≡ out.old.items ++ state_line_text model.now s (state_at model.now s)) }
    ensures front { take (length out.old.items) out.new.items ≡ out.old.items }
{
    push_between(b"state ", s, b" [", out)?;
    push_zeros(model, out)?;
    push_bytes(b"]", out)?;
    push_labels(model, s, out)?;
    push_bytes(b"\n", out)
}

/// Appends the lines of state `s` and of its choices.
fn push_state(model: &Model, s: u32, out: &mut Vec<u8>) -> Result<(), AllocError>
    requires { s < states_of model.now }
    ensures text { OnOk result (out.new.items ≡ out.old.items ++ state_text model.now s (state_at model.now s)) }
    ensures front { take (length out.old.items) out.new.items ≡ out.old.items }
{
    push_state_line(model, s, out)?;
    push_choices(model, s, out)
}

/// Appends the lines of all states.
pub(crate) fn push_states(model: &Model, out: &mut Vec<u8>) -> Result<(), AllocError>
    ensures text { OnOk result (out.new.items ≡ out.old.items ++ states_text model.now 0 model.now.states) }
    ensures front { take (length out.old.items) out.new.items ≡ out.old.items }
{
    for s in 0..model.states() {
        push_state(model, s, out)?;
    }
    Ok(())
}
