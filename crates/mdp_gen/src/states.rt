ghost use Rattle.std.specs.Prelude.{◌≡◌, ◌++◌, ◌+◌, ◌*◌, ◌<◌, length, take, OnOk, IfOk};
ghost use Rattle.mdp_gen.specs.{Draws.{next}, Layered.{IsShape, target}};
ghost use Rattle.mdp_gen.specs.Pieces.{row_text, choice_text, state_line_text, initial_text, drawn_text, state_text};

use crate::draws::next_draw;
use crate::push::{push_choice_line, push_entry, push_state_line};
use std::alloc::AllocError;

/// Where the draw leads from state `s`.
fn target(layers: u32, width: u32, s: u32, draw: u32) -> u32
    requires shape { IsShape layers width }
    requires state { s < layers * width }
    ensures { result ≡ target layers width s draw }
{
    let next_layer = s / width + 1;
    if next_layer < layers {
        next_layer * width + draw % width
    } else if draw % 2 == 0 {
        layers * width
    } else {
        layers * width + 1
    }
}

/// Appends the row to each of two states with probability 1/2, or to one state with probability 1. After `Err` a part of it may stand behind what was
/// there; so with each function of this file.
fn push_row(a: u32, b: u32, out: &mut Vec<u8>) -> Result<(), AllocError>
    ensures text { OnOk result (out.new.items ≡ out.old.items ++ row_text a b) }
    ensures front { take (length out.old.items) out.new.items ≡ out.old.items }
{
    if a == b {
        return push_entry(a, b"1", out);
    }
    push_entry(a.min(b), b"1/2", out)?;
    push_entry(a.max(b), b"1/2", out)
}

/// Appends choice `c`, which leads to `a` and `b`.
pub(crate) fn push_choice(c: u32, a: u32, b: u32, out: &mut Vec<u8>) -> Result<(), AllocError>
    ensures text { OnOk result (out.new.items ≡ out.old.items ++ choice_text c a b) }
    ensures front { take (length out.old.items) out.new.items ≡ out.old.items }
{
    push_choice_line(c, out)?;
    push_row(a, b, out)
}

/// Appends choice `c` of state `s`, that of two draws.
fn push_drawn(
    layers: u32,
    width: u32,
    s: u32,
    c: u32,
    first: u32,
    second: u32,
    out: &mut Vec<u8>,
) -> Result<(), AllocError>
    requires shape { IsShape layers width }
    requires state { s < layers * width }
    ensures text { OnOk result (out.new.items ≡ out.old.items ++ drawn_text layers width s c first second) }
    ensures front { take (length out.old.items) out.new.items ≡ out.old.items }
{
    let a = target(layers, width, s, first);
    let b = target(layers, width, s, second);
    push_choice(c, a, b, out)
}

/// Appends the line of state `s` of a layer.
fn push_inner_line(s: u32, out: &mut Vec<u8>) -> Result<(), AllocError>
    ensures text { OnOk result (out.new.items ≡ out.old.items ++ state_line_text s (initial_text s)) }
    ensures front { take (length out.old.items) out.new.items ≡ out.old.items }
{
    if s == 0 {
        push_state_line(s, b" \"init\"", out)
    } else {
        push_state_line(s, b"", out)
    }
}

/// Appends state `s` of a layer, where `x` was drawn before it, and gives its last draw.
pub(crate) fn push_state(
    layers: u32,
    width: u32,
    s: u32,
    x: u32,
    out: &mut Vec<u8>,
) -> Result<u32, AllocError>
    requires shape { IsShape layers width }
    requires state { s < layers * width }
    requires drawn { x < 65537 }
    ensures text { OnOk result (out.new.items ≡ out.old.items ++ state_text layers width s x) }
    ensures front { take (length out.old.items) out.new.items ≡ out.old.items }
    ensures last { IfOk result (λ y. y ≡ next (next (next (next x)))) }
    ensures small { IfOk result (λ y. y < 65537) }
{
    let first = next_draw(x);
    let second = next_draw(first);
    let third = next_draw(second);
    let fourth = next_draw(third);
    push_inner_line(s, out)?;
    push_drawn(layers, width, s, 0, first, second, out)?;
    push_drawn(layers, width, s, 1, third, fourth, out)?;
    Ok(fourth)
}
