ghost use Rattle.std.specs.Prelude.{◌≡◌, ◌++◌, codes, length, OnOk, OnErr};
ghost use Rattle.mdp_spec.specs.Mdp.{states_of};
ghost use Rattle.mdp_text.specs.{Parts.{parts_text}, Spelling.{line, dir_text}};
ghost use Rattle.mdp_horizon.specs.{Spelling.{version_text, until_claim, until_text, total_text, answer_lines}, Answer.{plain}};

use crate::bounded::Bounded;
use crate::push::push_answer;
use mdp_num::Memory;
use mdp_rows::{Dir, Model};
use mdp_text::Part::{Bytes, Whole};
use mdp_text::{Part, or_cut_back, push_parts};

/// The line of the version, and the words before what a claim is about.
fn front_of(dir: Dir) -> &'static [u8]
    ensures { result.now ≡ line version_text ++ (codes "claim " ++ (dir_text dir ++ codes " ")) }
{
    match dir {
        Dir::Max => b"mdp-horizon 1\nclaim max ",
        Dir::Min => b"mdp-horizon 1\nclaim min ",
    }
}

/// Appends a head and the lines behind it. After `Memory` the text is as before.
fn write_answer(
    out: &mut Vec<u8>,
    head: &[Part<'_>],
    model: &Model,
    bounded: &Bounded,
) -> Result<(), Memory>
    requires { length bounded.now.values.items ≡ states_of model.now }
    ensures text { OnOk result (out.new.items ≡ out.old.items ++ (parts_text head.now ++ answer_lines model.now (plain bounded.now))) }
    ensures unchanged { OnErr result (out.new.items ≡ out.old.items) }
{
    let start = out.len();
    push_parts(out, head)?;
    let answer = push_answer(out, model, bounded);
    or_cut_back(out, start, answer)
}

/// The lines of the version and of the claim of a bounded until.
fn until_head<'a>(dir: Dir, stay: &'a [u8], label: &'a [u8], steps: u64) -> [Part<'a>; 8]
    ensures { parts_text result ≡ line version_text ++ line (until_claim dir stay.now label.now steps) }
{
    [
        Bytes(front_of(dir)),
        Bytes(b"until \""),
        Bytes(stay),
        Bytes(b"\" \""),
        Bytes(label),
        Bytes(b"\" "),
        Whole(steps),
        Bytes(b"\n"),
    ]
}

/// Appends the text of an answer: what was asked, the number of states, the initial state, a line for each state and a line for each step. `stay`
/// and `label` are the names of the states that stay and of the goals, `-` where each state stays. After `Memory` the text is as before.
#[tactic(auto, unfolding(crate::specs::Spelling::until_text))]
pub fn write_until(
    model: &Model,
    dir: Dir,
    stay: &[u8],
    label: &[u8],
    bounded: &Bounded,
    out: &mut Vec<u8>,
) -> Result<(), Memory>
    requires { length bounded.now.values.items ≡ states_of model.now }
    ensures text { OnOk result (out.new.items ≡ out.old.items ++ until_text dir stay.now label.now model.now (plain bounded.now)) }
    ensures unchanged { OnErr result (out.new.items ≡ out.old.items) }
{
    let head = until_head(dir, stay, label, bounded.steps.len() as u64);
    write_answer(out, &head, model, bounded)
}

/// Appends the text of the best total rewards of this name: what was asked, and then the lines that a bounded until has. After `Memory` the text is
/// as before.
#[tactic(auto, unfolding(crate::specs::Spelling::total_text))]
pub fn write_total(
    model: &Model,
    dir: Dir,
    name: &[u8],
    bounded: &Bounded,
    out: &mut Vec<u8>,
) -> Result<(), Memory>
    requires { length bounded.now.values.items ≡ states_of model.now }
    ensures text { OnOk result (out.new.items ≡ out.old.items ++ total_text dir name.now model.now (plain bounded.now)) }
    ensures unchanged { OnErr result (out.new.items ≡ out.old.items) }
{
    let head = [
        Bytes(front_of(dir)),
        Bytes(b"reward \""),
        Bytes(name),
        Bytes(b"\" "),
        Whole(bounded.steps.len() as u64),
        Bytes(b"\n"),
    ];
    write_answer(out, &head, model, bounded)
}
