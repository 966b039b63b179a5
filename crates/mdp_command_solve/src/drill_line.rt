ghost use Rattle.std.specs.Prelude.{◌≡◌, ◌++◌, decimal, IfOk, OnOk};
ghost use Rattle.mdp_num.specs.Value.{spelling};
ghost use Rattle.mdp_command_solve.specs.{DrillDue.{drill_text}, DrillPieces.{drill_words, count_words, value_words}};

use itoa::Buffer;
use mdp_num::{Frac, Memory};
use std::alloc::{AllocError, Global};

/// Appends a number in decimal.
fn push_number(number: u64, out: &mut Vec<u8>) -> Result<(), AllocError>
    ensures { OnOk result (out.new.items ≡ out.old.items ++ decimal number) }
{
    let mut buffer = Buffer::new();
    out.extend_from_slice(buffer.format(number).as_bytes())
}

/// Appends `drill NUMBER LAYERS WIDTH`.
fn push_words(number: u64, layers: u32, width: u32, out: &mut Vec<u8>) -> Result<(), AllocError>
    ensures { OnOk result (out.new.items ≡ out.old.items ++ drill_words number layers width) }
{
    out.extend_from_slice(b"drill ")?;
    push_number(number, out)?;
    out.extend_from_slice(b" ")?;
    push_number(layers.into(), out)?;
    out.extend_from_slice(b" ")?;
    push_number(width.into(), out)
}

/// Appends ` states N choices C`.
fn push_counts(states: u32, choices: u32, out: &mut Vec<u8>) -> Result<(), AllocError>
    ensures { OnOk result (out.new.items ≡ out.old.items ++ count_words states choices) }
{
    out.extend_from_slice(b" states ")?;
    push_number(states.into(), out)?;
    out.extend_from_slice(b" choices ")?;
    push_number(choices.into(), out)
}

/// Appends ` value V yes` and ends the line.
fn push_value(value: &Frac, out: &mut Vec<u8>) -> Result<(), Memory>
    ensures { OnOk result (out.new.items ≡ out.old.items ++ value_words value.now) }
{
    out.extend_from_slice(b" value ")?;
    value.push_text(out)?;
    out.extend_from_slice(b" yes\n")?;
    Ok(())
}

/// The line of a drill: its numbers, those of the model, and the value of state 0.
pub(crate) fn drill_line(
    alloc: Global,
    number: u64,
    layers: u32,
    width: u32,
    states: u32,
    choices: u32,
    value: &Frac,
) -> Result<Vec<u8>, Memory>
    ensures { IfOk result (λ text. text.items ≡ drill_text number layers width states choices value.now) }
{
    let mut text = Vec::new(alloc);
    push_words(number, layers, width, &mut text)?;
    push_counts(states, choices, &mut text)?;
    push_value(value, &mut text)?;
    Ok(text)
}
