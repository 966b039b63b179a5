//! Models of short texts, for the tests.

ghost use Rattle.std.specs.Prelude.{◌≡◌, length, IfOk};
ghost use Rattle.mdp_spec.specs.Mdp.{states_of};

use mdp_drn::read;
use mdp_num::Memory;
use mdp_rows::{Marks, Model, RowRule};
use std::alloc::{AllocError, Global};

/// Appends what a sign stands for.
fn push_sign(sign: char, text: &mut String) -> Result<(), AllocError> {
    match sign {
        '#' => text.push_str("\n@model\nstate "),
        ';' => text.push_str("\nstate "),
        '*' => text.push_str(" goal"),
        '!' => text.push_str(" blocked"),
        '|' => text.push_str("\naction"),
        '[' => text.push_str(" ["),
        ' ' => text.push_str("\n"),
        other => text.push(other),
    }
}

/// Appends what each sign stands for.
fn push_signs(signs: &str, text: &mut String) -> Result<(), AllocError> {
    for sign in signs.chars() {
        push_sign(sign, text)?;
    }
    Ok(())
}

/// The model of a short text. It begins with the number of states and `#`. `;` stands between states; a state is its number, `*` if it is a goal and
/// `!` if it is blocked; `|` begins a choice, behind which its reward may stand in brackets, and a blank begins each entry.
pub(crate) fn model_of(alloc: Global, signs: &str) -> Option<Model> {
    let Ok(mut text) = String::from_str(alloc, "@type: MDP\n@nr_states\n") else {
        return None;
    };
    if push_signs(signs, &mut text).is_err() {
        return None;
    }
    match read(alloc, text.as_bytes(), RowRule::Exact) {
        Ok(model) => Some(model),
        Err(_) => None,
    }
}

/// The states with this label.
pub(crate) fn marked(alloc: Global, model: &Model, label: &str) -> Result<Marks, Memory>
    ensures { IfOk result (λ marks. length marks ≡ states_of model.now) }
{
    match model.label(label.as_bytes()) {
        Some(place) => model.marks_of(alloc, place),
        None => Marks::empty(alloc, model.states()),
    }
}
