ghost use Rattle.std.specs.Prelude.{◌≡◌, ◌++◌, length, take, OnOk, OnErr};
ghost use Rattle.mdp_rows.specs.declared.rule.RowRule.TheVariants.{Exact};
ghost use Rattle.mdp_drn.specs.{Reading.{Reads}, Writing.{text_of}};

use crate::header_text::push_header;
use crate::state_text::push_states;
use mdp_num::Memory;
use mdp_rows::Model;
use std::alloc::AllocError;

/// Appends the text, of which a part may stand behind what was there on `Err`.
fn push_model(model: &Model, out: &mut Vec<u8>) -> Result<(), AllocError>
    ensures text { OnOk result (out.new.items ≡ out.old.items ++ text_of model.now) }
    ensures front { take (length out.old.items) out.new.items ≡ out.old.items }
{
    push_header(model, out)?;
    push_states(model, out)
}

/// Appends the one text of a model, which reads as that model under the rule `Exact`. After `Memory` the bytes are as before.
pub fn write(model: &Model, out: &mut Vec<u8>) -> Result<(), Memory>
    ensures appended { OnOk result (out.new.items ≡ out.old.items ++ text_of model.now) }
    ensures unchanged { OnErr result (out.new.items ≡ out.old.items) }
    ensures reads_back { Reads (text_of model.now) Exact model.now }
{
    model.known();
    let start = out.len();
    match push_model(model, out) {
        Ok(()) => Ok(()),
        Err(AllocError) => {
            out.truncate(start);
            Err(Memory)
        }
    }
}
