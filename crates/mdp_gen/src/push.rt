ghost use Rattle.std.specs.Prelude.{◌≡◌, ◌++◌, length, take, decimal, OnOk};
ghost use Rattle.mdp_drn.specs.Pieces.{count_text};
ghost use Rattle.mdp_gen.specs.Pieces.{counts_text, header_text, entry_text, choice_line_text, state_line_text};

use itoa::Buffer;
use std::alloc::AllocError;

/// Appends a number in decimal. After `Err` a part of it may stand behind what was there; so with each function of this file.
pub(crate) fn push_number(number: u32, out: &mut Vec<u8>) -> Result<(), AllocError>
    ensures text { OnOk result (out.new.items ≡ out.old.items ++ decimal number) }
    ensures front { take (length out.old.items) out.new.items ≡ out.old.items }
{
    let mut buffer = Buffer::new();
    out.extend_from_slice(buffer.format(number).as_bytes())
}

/// Appends an entry of the header and its number, each on a line.
fn push_count(entry: &[u8], count: u32, out: &mut Vec<u8>) -> Result<(), AllocError>
    ensures text { OnOk result (out.new.items ≡ out.old.items ++ count_text entry.now count) }
    ensures front { take (length out.old.items) out.new.items ≡ out.old.items }
{
    out.extend_from_slice(entry)?;
    out.extend_from_slice(b"\n")?;
    push_number(count, out)?;
    out.extend_from_slice(b"\n")
}

/// Appends the numbers of states and of choices, and `@model`.
fn push_counts(states: u32, choices: u32, out: &mut Vec<u8>) -> Result<(), AllocError>
    ensures text { OnOk result (out.new.items ≡ out.old.items ++ counts_text states choices) }
    ensures front { take (length out.old.items) out.new.items ≡ out.old.items }
{
    push_count(b"@nr_states", states, out)?;
    push_count(b"@nr_choices", choices, out)?;
    out.extend_from_slice(b"@model\n")
}

/// Appends the header of a model of so many states and choices.
pub(crate) fn push_header(states: u32, choices: u32, out: &mut Vec<u8>) -> Result<(), AllocError>
    ensures text { OnOk result (out.new.items ≡ out.old.items ++ header_text states choices) }
    ensures front { take (length out.old.items) out.new.items ≡ out.old.items }
{
    out.extend_from_slice(b"@type: MDP\n@parameters\n\n@reward_models\n\n")?;
    push_counts(states, choices, out)
}

/// Appends the line of state `s`, whose labels are spelled in quotes, each behind a blank.
pub(crate) fn push_state_line(s: u32, labels: &[u8], out: &mut Vec<u8>) -> Result<(), AllocError>
    ensures text { OnOk result (out.new.items ≡ out.old.items ++ state_line_text s labels.now) }
    ensures front { take (length out.old.items) out.new.items ≡ out.old.items }
{
    out.extend_from_slice(b"state ")?;
    push_number(s, out)?;
    out.extend_from_slice(b" [0]")?;
    out.extend_from_slice(labels)?;
    out.extend_from_slice(b"\n")
}

/// Appends the line of an entry, whose probability is spelled.
pub(crate) fn push_entry(target: u32, prob: &[u8], out: &mut Vec<u8>) -> Result<(), AllocError>
    ensures text { OnOk result (out.new.items ≡ out.old.items ++ entry_text target prob.now) }
    ensures front { take (length out.old.items) out.new.items ≡ out.old.items }
{
    out.extend_from_slice(b"\t\t")?;
    push_number(target, out)?;
    out.extend_from_slice(b" : ")?;
    out.extend_from_slice(prob)?;
    out.extend_from_slice(b"\n")
}

/// Appends the line of choice `c`.
pub(crate) fn push_choice_line(c: u32, out: &mut Vec<u8>) -> Result<(), AllocError>
    ensures text { OnOk result (out.new.items ≡ out.old.items ++ choice_line_text c) }
    ensures front { take (length out.old.items) out.new.items ≡ out.old.items }
{
    out.extend_from_slice(b"\taction ")?;
    push_number(c, out)?;
    out.extend_from_slice(b" [0]\n")
}
