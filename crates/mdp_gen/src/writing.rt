ghost use Rattle.std.specs.Prelude.{◌≡◌, ◌++◌, ◌+◌, ◌-◌, ◌*◌, ◌^◌, ◌≤◌, ◌<◌, [], ◌∷◌, length, take, codes, OnOk, OnErr};
ghost use Rattle.mdp_drn.specs.Writing.{states_text};
ghost use Rattle.mdp_gen.specs.{Layered.{IsShape, of_states, layer_states}, Text.{generated_text}, Pieces.{loop_text}};

use crate::draws::start_of;
use crate::push::{push_header, push_state_line};
use crate::states::{push_choice, push_state};
use mdp_num::Memory;
use std::alloc::AllocError;

/// Appends the layers' states. After `Err` a part of them may stand behind what was there; so with each function of this file but the last.
fn push_layers(number: u64, layers: u32, width: u32, out: &mut Vec<u8>) -> Result<(), AllocError>
    requires { IsShape layers width }
    ensures text { OnOk result (out.new.items ≡ out.old.items ++ states_text (of_states []) 0 (layer_states number layers width)) }
    ensures front { take (length out.old.items) out.new.items ≡ out.old.items }
{
    let mut x = start_of(number);
    for s in 0..layers * width {
        x = push_state(layers, width, s, x, out)?;
    }
    Ok(())
}

/// Appends the goal, state `s`.
fn push_goal(s: u32, out: &mut Vec<u8>) -> Result<(), AllocError>
    ensures text { OnOk result (out.new.items ≡ out.old.items ++ loop_text s (codes " \"goal\"")) }
    ensures front { take (length out.old.items) out.new.items ≡ out.old.items }
{
    push_state_line(s, b" \"goal\"", out)?;
    push_choice(0, s, s, out)
}

/// Appends the failing state, state `s`.
fn push_failing(s: u32, out: &mut Vec<u8>) -> Result<(), AllocError>
    ensures text { OnOk result (out.new.items ≡ out.old.items ++ loop_text s []) }
    ensures front { take (length out.old.items) out.new.items ≡ out.old.items }
{
    push_state_line(s, b"", out)?;
    push_choice(0, s, s, out)
}

/// Appends the text of the layered model.
fn push_model(number: u64, layers: u32, width: u32, out: &mut Vec<u8>) -> Result<(), AllocError>
    requires { IsShape layers width }
    ensures text { OnOk result (out.new.items ≡ out.old.items ++ generated_text number layers width) }
    ensures front { take (length out.old.items) out.new.items ≡ out.old.items }
{
    let goal = layers * width;
    push_header(goal + 2, 2 * goal + 2, out)?;
    push_layers(number, layers, width, out)?;
    push_goal(goal, out)?;
    push_failing(goal + 1, out)
}

/// Appends the text of the layered model of this number: `layers` layers of `width` states, each with two choices of two draws, and behind them
/// the goal and the failing state. After `Memory` the bytes are as before.
pub fn layered(number: u64, layers: u32, width: u32, out: &mut Vec<u8>) -> Result<(), Memory>
    requires some_layers { 1 ≤ layers }
    requires few_layers { layers ≤ 100 }
    requires some_width { 1 ≤ width }
    requires few_states { layers * width ≤ 2 ^ 20 - 2 }
    ensures appended { OnOk result (out.new.items ≡ out.old.items ++ generated_text number layers width) }
    ensures unchanged { OnErr result (out.new.items ≡ out.old.items) }
{
    let start = out.len();
    match push_model(number, layers, width, out) {
        Ok(()) => Ok(()),
        Err(AllocError) => {
            out.truncate(start);
            Err(Memory)
        }
    }
}
