ghost use Rattle.std.specs.{Prelude.{◌≡◌, ◌<◌, ◌++◌, ◌&&◌, ◌==◌, [], length, take, codes, slice_index_or, OnOk}, Str.{bytes_eq}};
ghost use Rattle.mdp_drn.specs.{Writing.{joined, names_text, header_text}, Pieces.{separator_text, first_lines, count_lines}};

use crate::push::{push_between, push_bytes, push_separator};
use mdp_rows::Model;
use std::alloc::AllocError;

/// Whether the one reward name is `-`, which isn't written.
fn is_unnamed(model: &Model) -> bool
    ensures { result ≡ ((length model.now.names == 1) && bytes_eq (slice_index_or model.now.names 0 []) (codes "-")) }
{
    model.names() == 1 && model.name(0) == b"-".as_slice()
}

/// Appends the reward name of place `m`, behind a blank unless it is the first.
fn push_name(model: &Model, m: u32, out: &mut Vec<u8>) -> Result<(), AllocError>
    requires { m < length model.now.names }
    ensures text { OnOk result (out.new.items ≡ out.old.items ++ (separator_text (codes " ") m ++ slice_index_or model.now.names m [])) }
    ensures front { take (length out.old.items) out.new.items ≡ out.old.items }
{
    push_separator(m, b" ", out)?;
    push_bytes(model.name(m), out)
}

/// Appends the reward names with a blank between two.
fn push_all_names(model: &Model, out: &mut Vec<u8>) -> Result<(), AllocError>
    ensures text { OnOk result (out.new.items ≡ out.old.items ++ joined (codes " ") model.now.names) }
    ensures front { take (length out.old.items) out.new.items ≡ out.old.items }
{
    for m in 0..model.names() {
        push_name(model, m, out)?;
    }
    Ok(())
}

/// Appends the line of reward names without its line feed.
fn push_names(model: &Model, out: &mut Vec<u8>) -> Result<(), AllocError>
    ensures text { OnOk result (out.new.items ≡ out.old.items ++ names_text model.now.names) }
    ensures front { take (length out.old.items) out.new.items ≡ out.old.items }
{
    if is_unnamed(model) {
        return Ok(());
    }
    push_all_names(model, out)
}

/// Appends the header's lines down to that of the reward names.
fn push_first_lines(model: &Model, out: &mut Vec<u8>) -> Result<(), AllocError>
    ensures text { OnOk result (out.new.items ≡ out.old.items ++ first_lines model.now) }
    ensures front { take (length out.old.items) out.new.items ≡ out.old.items }
{
    push_bytes(b"@type: MDP\n@parameters\n\n@reward_models\n", out)?;
    push_names(model, out)?;
    push_bytes(b"\n", out)
}

/// Appends the numbers of states and of choices, and `@model`.
fn push_counts(model: &Model, out: &mut Vec<u8>) -> Result<(), AllocError>
    ensures text { OnOk result (out.new.items ≡ out.old.items ++ count_lines model.now) }
    ensures front { take (length out.old.items) out.new.items ≡ out.old.items }
{
    push_between(b"@nr_states\n", model.states(), b"\n", out)?;
    push_between(b"@nr_choices\n", model.all_choices(), b"\n@model\n", out)
}

/// Appends the header.
pub(crate) fn push_header(model: &Model, out: &mut Vec<u8>) -> Result<(), AllocError>
    ensures text { OnOk result (out.new.items ≡ out.old.items ++ header_text model.now) }
    ensures front { take (length out.old.items) out.new.items ≡ out.old.items }
{
    push_first_lines(model, out)?;
    push_counts(model, out)
}
