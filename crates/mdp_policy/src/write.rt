ghost use Rattle.std.specs.Prelude.{◌≡◌, ◌++◌, length, option_copied, OnOk, OnErr};
ghost use Rattle.mdp_spec.specs.Mdp.{states_of};
ghost use Rattle.mdp_text.specs.Answer.{Keeps};
ghost use Rattle.mdp_policy.specs.{Spelling.{head_text, changes_text, value_text}, Answer.{plain}};

use crate::push::{push_improve, push_query, push_version};
use crate::value::PolicyValue;
use mdp_num::Memory;
use mdp_rows::{Dir, Model};
use mdp_text::{init_with, push_end, push_init, push_number, push_values};

/// Appends the lines of the changes.
#[tactic(auto, unfolding(crate::specs::Spelling::changes_text))]
fn push_changes(out: &mut Vec<u8>, value: &PolicyValue) -> Result<(), Memory>
    ensures text { OnOk result (out.new.items ≡ out.old.items ++ changes_text (plain value.now)) }
    ensures front { Keeps out.old.items out.new.items }
{
    push_improve(out, Dir::Max, value.up)?;
    push_improve(out, Dir::Min, value.down)
}

/// Appends the lines before those of the changes.
fn push_head(
    out: &mut Vec<u8>,
    model: &Model,
    stay: Option<&[u8]>,
    label: &[u8],
    value: &PolicyValue,
) -> Result<(), Memory>
    requires { length value.now.values.items ≡ states_of model.now }
    ensures text { OnOk result (out.new.items ≡ out.old.items ++ head_text (option_copied stay.entry) label.now model.now (plain value.now)) }
    ensures front { Keeps out.old.items out.new.items }
{
    push_version(out)?;
    push_query(out, stay, label)?;
    push_number(out, u64::from(model.states()))?;
    push_init(out, &init_with(model, &value.values))
}

/// Appends all lines; after `Memory` the text begins as before.
#[tactic(auto, unfolding(crate::specs::Spelling::value_text))]
fn push_lines(
    out: &mut Vec<u8>,
    model: &Model,
    stay: Option<&[u8]>,
    label: &[u8],
    value: &PolicyValue,
) -> Result<(), Memory>
    requires { length value.now.values.items ≡ states_of model.now }
    ensures text { OnOk result (out.new.items ≡ out.old.items ++ value_text (option_copied stay.entry) label.now model.now (plain value.now)) }
    ensures front { Keeps out.old.items out.new.items }
{
    push_head(out, model, stay, label, value)?;
    push_changes(out, value)?;
    push_values(out, &value.values)?;
    push_end(out)?;
    Ok(())
}

/// Appends the text of a policy's value: what was asked, the number of states, the initial state, the first changes that raise and that lower a
/// value, and a line for each state. `stay` is the name of the states on the way, where it was asked, and `label` that of the goals. After
/// `Memory` the text is as before.
pub fn write_value(
    model: &Model,
    stay: Option<&[u8]>,
    label: &[u8],
    value: &PolicyValue,
    out: &mut Vec<u8>,
) -> Result<(), Memory>
    requires { length value.now.values.items ≡ states_of model.now }
    ensures text { OnOk result (out.new.items ≡ out.old.items ++ value_text (option_copied stay.entry) label.now model.now (plain value.now)) }
    ensures unchanged { OnErr result (out.new.items ≡ out.old.items) }
{
    let start = out.len();
    let answer = push_lines(out, model, stay, label, value);
    if answer.is_err() {
        out.truncate(start);
    }
    answer
}
