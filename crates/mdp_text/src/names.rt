ghost use Rattle.std.specs.Prelude.{◌≡◌, ◌==◌, ◌||◌, true, false, drop, Some, None, IfSome, MatchOption};
ghost use Rattle.std.specs.List.{list_any, position_or_len, before_first};
ghost use Rattle.mdp_rows.specs.Name.{is_name};
ghost use Rattle.mdp_text.specs.Words.{is_quote, name_and_rest};

use crate::words::before;

/// Whether a quote or a line feed is among the bytes.
fn has_quote_or_line_feed(text: &[u8]) -> bool
    ensures { result ≡ list_any (λ b. b == 34 || b == 10) text.now }
{
    text.iter().any(|byte| *byte == b'"' || *byte == b'\n')
}

/// Whether the bytes are a name: 1 to 255 bytes without a quote and a line feed.
pub fn is_name(name: &[u8]) -> bool
    ensures { result ≡ is_name name.now }
{
    if name.is_empty() || name.len() > 255 {
        return false;
    }
    !has_quote_or_line_feed(name)
}

/// How many bytes stand before the first quote, or all where there is none.
pub fn before_quote(text: &[u8]) -> usize
    ensures { result ≡ position_or_len is_quote text.now }
{
    before(text, b'"')
}

/// The name before the first quote, and the text from that quote on.
pub fn cut_name(text: &[u8]) -> Option<(&[u8], &[u8])>
    ensures name { MatchOption result (is_name (before_first is_quote text.now) ≡ false) (λ p. (is_name (before_first is_quote text.now) ≡ true) ×
        (p.0.now ≡ before_first is_quote text.now)) }
    ensures rest { IfSome result (λ p. p.1.now ≡ drop (position_or_len is_quote text.now) text.now) }
{
    let end = before_quote(text);
    let name = &text[..end];
    if is_name(name) {
        Some((name, &text[end..]))
    } else {
        None
    }
}

/// The name before the first quote, and what stands behind that quote and a blank.
pub fn name_and_rest(text: &[u8]) -> Option<(&[u8], &[u8])>
    ensures { MatchOption result (name_and_rest text.now ≡ None) (λ p. name_and_rest text.now ≡ Some (p.0.now, p.1.now)) }
{
    let (name, rest) = cut_name(text)?;
    let rest = rest.strip_prefix(b"\" ")?;
    Some((name, rest))
}
