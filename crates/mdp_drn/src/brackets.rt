ghost use Rattle.std.specs.{Prelude.{◌≡◌, ◌≤◌, length, not}, List.{suffix_len}};
ghost use Rattle.mdp_drn.specs.{Body.{bracket_at, bracket_behind, is_open_bracket}, Parsing.{told, both_now}};

use crate::error::DrnKind;
use crate::line::count_before;

/// How many bytes stand behind the last `[`.
fn behind_open(bytes: &[u8]) -> usize
    ensures count { result ≡ suffix_len (λ c. not (is_open_bracket c)) bytes.now }
    ensures within { result ≤ length bytes.now }
{
    let mut start = bytes.len();
    while start > 0 && bytes[start - 1] != b'[' {
        start -= 1;
    }
    bytes.len() - start
}

/// The text in a bracket that ends at its first `]`, and the bytes behind it; no text where no bracket comes first.
pub(crate) fn first_bracket(bytes: &[u8]) -> Result<(&[u8], &[u8]), DrnKind>
    ensures { told both_now result ≡ bracket_at bytes.now }
{
    match bytes {
        [] => Ok((bytes, bytes)),
        [b'[', inside @ ..] => {
            let (inside, behind) = inside.split_at(count_before(inside, b']'));
            match behind {
                [] => Err(DrnKind::Reward),
                [_, rest @ ..] => Ok((inside, rest)),
            }
        }
        _ => Ok((&bytes[..0], bytes)),
    }
}

/// The text in a bracket at the end, from its last `[`; no text where there is no bracket.
pub(crate) fn last_bracket(rest: &[u8]) -> Result<&[u8], DrnKind>
    ensures { told (λ inside. inside.now) result ≡ bracket_behind rest.now }
{
    match rest {
        [.., b']'] => {
            if !rest.contains(&b'[') {
                return Err(DrnKind::Shape);
            }
            let inside = &rest[rest.len() - behind_open(rest)..];
            Ok(&inside[..inside.len().saturating_sub(1)])
        }
        _ => Ok(&rest[..0]),
    }
}
