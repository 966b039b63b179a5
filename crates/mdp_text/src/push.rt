ghost use Rattle.std.specs.Prelude.{◌≡◌, ◌++◌, ◌∷◌, [], take, codes, decimal, OnOk, OnErr};
ghost use Rattle.mdp_num.specs.Value.{spelling};
ghost use Rattle.mdp_text.specs.{declared.init.Init.TheVariants.{Start}, Answer.{Keeps}};
ghost use Rattle.mdp_text.specs.Spelling.{line, ◌␣◌, states_text, init_text, value_lines, end_text};

use crate::init::Init;
use crate::part::Part::{Bytes, Fraction, Whole};
use crate::parts::push_parts;
use mdp_num::{Frac, Memory};

/// Ends a call that appended parts. After `Memory` it cuts the text back to where it began.
pub fn or_cut_back(
    out: &mut Vec<u8>,
    start: usize,
    answer: Result<(), Memory>,
) -> Result<(), Memory>
    ensures same { result ≡ answer }
    ensures kept { OnOk answer (out.new.items ≡ out.old.items) }
    ensures cut { OnErr answer (out.new.items ≡ take start out.old.items) }
{
    if answer.is_err() {
        out.truncate(start);
    }
    answer
}

/// Appends a whole number in decimal. After `Memory` the text is as before, as after each call here that isn't private.
pub fn push_whole(out: &mut Vec<u8>, number: u64) -> Result<(), Memory>
    ensures text { OnOk result (out.new.items ≡ out.old.items ++ decimal number) }
    ensures front { Keeps out.old.items out.new.items }
    ensures unchanged { OnErr result (out.new.items ≡ out.old.items) }
{
    push_parts(out, &[Whole(number)])
}

/// Appends a blank and the whole number.
pub fn push_word(out: &mut Vec<u8>, number: u64) -> Result<(), Memory>
    ensures text { OnOk result (out.new.items ≡ out.old.items ++ (32 ∷ decimal number)) }
    ensures front { Keeps out.old.items out.new.items }
    ensures unchanged { OnErr result (out.new.items ≡ out.old.items) }
{
    push_parts(out, &[Bytes(b" "), Whole(number)])
}

/// Appends a blank and the fraction.
pub fn push_fraction(out: &mut Vec<u8>, value: &Frac) -> Result<(), Memory>
    ensures text { OnOk result (out.new.items ≡ out.old.items ++ (32 ∷ spelling value.now)) }
    ensures front { Keeps out.old.items out.new.items }
    ensures unchanged { OnErr result (out.new.items ≡ out.old.items) }
{
    push_parts(out, &[Bytes(b" "), Fraction(*value)])
}

/// Appends a blank, the fraction and the line's end.
pub fn push_fraction_end(out: &mut Vec<u8>, value: &Frac) -> Result<(), Memory>
    ensures text { OnOk result (out.new.items ≡ out.old.items ++ (32 ∷ (spelling value.now ++ 10 ∷ []))) }
    ensures front { Keeps out.old.items out.new.items }
    ensures unchanged { OnErr result (out.new.items ≡ out.old.items) }
{
    push_parts(out, &[Bytes(b" "), Fraction(*value), Bytes(b"\n")])
}

/// Appends the line of the number of states.
pub fn push_number(out: &mut Vec<u8>, states: u64) -> Result<(), Memory>
    ensures text { OnOk result (out.new.items ≡ out.old.items ++ line (states_text states)) }
    ensures front { Keeps out.old.items out.new.items }
    ensures unchanged { OnErr result (out.new.items ≡ out.old.items) }
{
    push_parts(out, &[Bytes(b"states "), Whole(states), Bytes(b"\n")])
}

/// Appends the word `init` and the initial state: a line's front, or all but the end of a line without a value. After `Memory` the text begins as
/// before.
pub fn push_start(out: &mut Vec<u8>, state: u32) -> Result<(), Memory>
    ensures text { OnOk result (out.new.items ≡ out.old.items ++ init_text (Start state)) }
    ensures front { Keeps out.old.items out.new.items }
{
    push_ended(out, state, b"")
}

/// Appends the word `init`, the initial state and these bytes.
fn push_ended(out: &mut Vec<u8>, state: u32, end: &[u8]) -> Result<(), Memory>
    ensures text { OnOk result (out.new.items ≡ out.old.items ++ (codes "init" ␣ (decimal state ++ end.now))) }
    ensures front { Keeps out.old.items out.new.items }
    ensures unchanged { OnErr result (out.new.items ≡ out.old.items) }
{
    push_parts(out, &[Bytes(b"init "), Whole(u64::from(state)), Bytes(end)])
}

/// Appends this word with its blank, the number, a blank, the value and the line's end.
fn push_numbered(out: &mut Vec<u8>, word: &[u8], number: u64, value: &Frac) -> Result<(), Memory>
    ensures text { OnOk result (out.new.items ≡ out.old.items ++ line (word.now ++ (decimal number ␣ spelling value.now))) }
    ensures front { Keeps out.old.items out.new.items }
    ensures unchanged { OnErr result (out.new.items ≡ out.old.items) }
{
    let parts = [
        Bytes(word),
        Whole(number),
        Bytes(b" "),
        Fraction(*value),
        Bytes(b"\n"),
    ];
    push_parts(out, &parts)
}

/// Appends the line of the initial state.
pub fn push_init(out: &mut Vec<u8>, init: &Init) -> Result<(), Memory>
    ensures text { OnOk result (out.new.items ≡ out.old.items ++ line (init_text init.now)) }
    ensures front { Keeps out.old.items out.new.items }
    ensures unchanged { OnErr result (out.new.items ≡ out.old.items) }
{
    match init {
        Init::Missing => push_parts(out, &[Bytes(b"init -\n")]),
        Init::Finite(state, value) => push_numbered(out, b"init ", u64::from(*state), value),
        Init::Infinite(state) => push_ended(out, *state, b" inf\n"),
        Init::Start(state) => push_ended(out, *state, b"\n"),
    }
}

/// Appends a line for each state, with its value, in parts.
fn append_values(out: &mut Vec<u8>, values: &[Frac]) -> Result<(), Memory>
    ensures text { OnOk result (out.new.items ≡ out.old.items ++ value_lines 0 values.now) }
    ensures front { Keeps out.old.items out.new.items }
{
    for s in 0..values.len() {
        push_numbered(out, b"state ", s as u64, &values[s])?;
    }
    Ok(())
}

/// Appends a line for each state, with its value.
pub fn push_values(out: &mut Vec<u8>, values: &[Frac]) -> Result<(), Memory>
    ensures text { OnOk result (out.new.items ≡ out.old.items ++ value_lines 0 values.now) }
    ensures front { Keeps out.old.items out.new.items }
    ensures unchanged { OnErr result (out.new.items ≡ out.old.items) }
{
    let start = out.len();
    let answer = append_values(out, values);
    or_cut_back(out, start, answer)
}

/// Appends the line `end`.
pub fn push_end(out: &mut Vec<u8>) -> Result<(), Memory>
    ensures text { OnOk result (out.new.items ≡ out.old.items ++ line end_text) }
    ensures front { Keeps out.old.items out.new.items }
    ensures unchanged { OnErr result (out.new.items ≡ out.old.items) }
{
    push_parts(out, &[Bytes(b"end\n")])
}
