ghost use Rattle.std.specs.Prelude.{◌≡◌, ◌<◌, ◌++◌, codes, option_copied, OnOk, Some, None};
ghost use Rattle.mdp_text.specs.{Answer.{Keeps}, Parts.{parts_text}, Spelling.{line, dir_text}};
ghost use Rattle.mdp_policy.specs.Spelling.{version_text, query_text, change_text, improve_text};

use crate::value::Change;
use mdp_num::Memory;
use mdp_rows::Dir;
use mdp_text::Part::Bytes;
use mdp_text::{Part, push_parts, push_whole, push_word};

/// The word of a direction, with the blanks around it.
fn front_of(dir: Dir) -> &'static [u8]
    ensures { result.now ≡ codes "improve " ++ dir_text dir ++ codes " " }
{
    match dir {
        Dir::Max => b"improve max ",
        Dir::Min => b"improve min ",
    }
}

/// Appends the line of the version.
pub(crate) fn push_version(out: &mut Vec<u8>) -> Result<(), Memory>
    ensures text { OnOk result (out.new.items ≡ out.old.items ++ line version_text) }
    ensures front { Keeps out.old.items out.new.items }
{
    out.extend_from_slice(b"mdp-value 1\n")?;
    Ok(())
}

/// Appends the line of the query `reach`.
fn push_reach(out: &mut Vec<u8>, label: &[u8]) -> Result<(), Memory>
    ensures text { OnOk result (out.new.items ≡ out.old.items ++ line (query_text None label.now)) }
    ensures front { Keeps out.old.items out.new.items }
{
    push_parts(
        out,
        &[Bytes(b"policy reach \""), Bytes(label), Bytes(b"\"\n")],
    )
}

/// The line of the query `until`.
fn until_line<'a>(stay: &'a [u8], label: &'a [u8]) -> [Part<'a>; 5]
    ensures { parts_text result ≡ line (query_text (Some stay.now) label.now) }
{
    [
        Bytes(b"policy until \""),
        Bytes(stay),
        Bytes(b"\" \""),
        Bytes(label),
        Bytes(b"\"\n"),
    ]
}

/// Appends the line of the query `until`.
fn push_until(out: &mut Vec<u8>, stay: &[u8], label: &[u8]) -> Result<(), Memory>
    ensures text { OnOk result (out.new.items ≡ out.old.items ++ line (query_text (Some stay.now) label.now)) }
    ensures front { Keeps out.old.items out.new.items }
{
    push_parts(out, &until_line(stay, label))
}

/// Appends the line of what was asked.
pub(crate) fn push_query(out: &mut Vec<u8>, stay: Option<&[u8]>, label: &[u8]) -> Result<(), Memory>
    ensures text { OnOk result (out.new.items ≡ out.old.items ++ line (query_text (option_copied stay.entry) label.now)) }
    ensures front { Keeps out.old.items out.new.items }
{
    match stay {
        None => push_reach(out, label),
        Some(stay) => push_until(out, stay, label),
    }
}

/// Appends a change, or that there is none.
fn push_change(out: &mut Vec<u8>, change: Option<Change>) -> Result<(), Memory>
    ensures text { OnOk result (out.new.items ≡ out.old.items ++ change_text change) }
    ensures front { Keeps out.old.items out.new.items }
{
    match change {
        None => {
            out.extend_from_slice(b"none")?;
            Ok(())
        }
        Some(change) => {
            push_whole(out, u64::from(change.state))?;
            push_word(out, u64::from(change.choice))
        }
    }
}

/// Appends the line of the first change that is better in a direction.
pub(crate) fn push_improve(
    out: &mut Vec<u8>,
    dir: Dir,
    change: Option<Change>,
) -> Result<(), Memory>
    ensures text { OnOk result (out.new.items ≡ out.old.items ++ line (improve_text dir change)) }
    ensures front { Keeps out.old.items out.new.items }
{
    out.extend_from_slice(front_of(dir))?;
    push_change(out, change)?;
    out.extend_from_slice(b"\n")?;
    Ok(())
}
