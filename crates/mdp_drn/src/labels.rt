ghost use Rattle.std.specs.{Prelude.{◌≡◌, IfOk, map, ◌∷◌, ◌≤◌, ◌<◌, length, not, false}, List.{prefix_len}};
ghost use Rattle.mdp_drn.specs.Lines.{is_line_feed, is_blank};
ghost use Rattle.mdp_drn.specs.Labels.{is_quote, is_sized, quoted, bare, label_at, labels_in, before_first, from_first};
ghost use Rattle.mdp_drn.specs.Parsing.{Says, told, both_now, first_label};
ghost use Rattle.mdp_rows.specs.Name.{IsName};

use crate::error::DrnKind;
use crate::line::{begins_blank, count_before, is_blank, trim_start};
use crate::line_error::LineError;
use std::alloc::Global;

/// Whether a label can have this length.
fn is_sized(name: &[u8]) -> bool
    ensures { result ≡ is_sized name.now }
{
    !name.is_empty() && name.len() <= 255
}

/// How many bytes stand before the first blank.
fn blank_place(bytes: &[u8]) -> usize
    ensures place { result ≡ prefix_len (λ c. not (is_blank c)) bytes.now }
    ensures within { result ≤ length bytes.now }
{
    for (place, byte) in bytes.iter().enumerate() {
        if is_blank(*byte) {
            return place;
        }
    }
    bytes.len()
}

/// A label behind its opening quote, and the bytes behind the closing one.
fn quoted(bytes: &[u8]) -> Result<(&[u8], &[u8]), DrnKind>
    ensures { told both_now result ≡ quoted bytes.now }
{
    let (name, behind) = bytes.split_at(count_before(bytes, b'"'));
    match behind {
        [] => Err(DrnKind::Label),
        [_, rest @ ..] => {
            if is_sized(name) && (rest.is_empty() || begins_blank(rest)) {
                Ok((name, rest))
            } else {
                Err(DrnKind::Label)
            }
        }
    }
}

/// A label without quotes, and the bytes behind it.
fn bare(bytes: &[u8]) -> Result<(&[u8], &[u8]), DrnKind>
    ensures { told both_now result ≡ bare bytes.now }
{
    let (name, behind) = bytes.split_at(blank_place(bytes));
    if is_sized(name) && !name.contains(&b'"') {
        Ok((name, behind))
    } else {
        Err(DrnKind::Label)
    }
}

/// The label that comes first, and the bytes behind it.
fn next_label(bytes: &[u8]) -> Result<(&[u8], &[u8]), DrnKind>
    requires { 0 < length bytes.now }
    ensures { told both_now result ≡ first_label bytes.now }
{
    match bytes {
        [b'"', rest @ ..] => quoted(rest),
        _ => bare(bytes),
    }
}

/// The labels that the bytes spell, in their order.
pub(crate) fn read_labels(alloc: Global, bytes: &[u8]) -> Result<Vec<&[u8]>, LineError>
    ensures labels { Says (λ labels. map (λ label. label.now) labels.items) result (labels_in bytes.now) }
{
    let mut labels = Vec::new(alloc);
    let mut rest = trim_start(bytes);
    while !rest.is_empty() {
        let (label, behind) = next_label(rest)?;
        labels.push(label)?;
        rest = trim_start(behind);
    }
    Ok(labels)
}
