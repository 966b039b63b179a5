ghost use Rattle.std.specs.{Prelude.{◌≡◌, ◌≤◌, ◌==◌, ◌||◌, length, not}, List.{list_any, prefix_len, suffix_len}};
ghost use Rattle.mdp_drn.specs.{Lines.{content, is_blank, is_comment, without_blanks_before, without_blanks_behind}, Labels.{begins_blank}};
ghost use Rattle.mdp_drn.specs.Values.{trimmed};

/// Whether the byte is a space or a tab.
pub(crate) fn is_blank(byte: u8) -> bool
    ensures { result ≡ is_blank byte }
{
    byte == b' ' || byte == b'\t'
}

/// Whether a space or a tab comes first.
pub(crate) fn begins_blank(bytes: &[u8]) -> bool
    ensures { result ≡ begins_blank bytes.now }
{
    match bytes {
        [] => false,
        [first, ..] => is_blank(*first),
    }
}

/// How many bytes stand before the first that is this one.
pub(crate) fn count_before(bytes: &[u8], stop: u8) -> usize
    ensures place { result ≡ prefix_len (λ c. not (c == stop)) bytes.now }
    ensures within { result ≤ length bytes.now }
{
    for (place, byte) in bytes.iter().enumerate() {
        if *byte == stop {
            return place;
        }
    }
    bytes.len()
}

/// Whether one of two bytes is among these.
pub(crate) fn has_either(bytes: &[u8], one: u8, other: u8) -> bool
    ensures { result ≡ list_any (λ c. (c == one) || (c == other)) bytes.now }
{
    bytes.contains(&one) || bytes.contains(&other)
}

fn blanks_before(bytes: &[u8]) -> usize
    ensures count { result ≡ prefix_len is_blank bytes.now }
    ensures within { result ≤ length bytes.now }
{
    for (place, byte) in bytes.iter().enumerate() {
        if !is_blank(*byte) {
            return place;
        }
    }
    bytes.len()
}

fn blanks_behind(bytes: &[u8]) -> usize
    ensures count { result ≡ suffix_len is_blank bytes.now }
    ensures within { result ≤ length bytes.now }
{
    let mut end = bytes.len();
    while end > 0 && is_blank(bytes[end - 1]) {
        end -= 1;
    }
    bytes.len() - end
}

/// Without the blanks at the front.
pub(crate) fn trim_start(bytes: &[u8]) -> &[u8]
    ensures { result.now ≡ without_blanks_before bytes.now }
{
    &bytes[blanks_before(bytes)..]
}

fn trim_end(bytes: &[u8]) -> &[u8]
    ensures { result.now ≡ without_blanks_behind bytes.now }
{
    &bytes[..bytes.len() - blanks_behind(bytes)]
}

/// Without the blanks at both ends.
pub(crate) fn trim(bytes: &[u8]) -> &[u8]
    ensures { result.now ≡ trimmed bytes.now }
{
    trim_end(trim_start(bytes))
}

/// What of a line is read: without one CR at its end, and without the blanks at both ends.
pub(crate) fn content_of(line: &[u8]) -> &[u8]
    ensures { result.now ≡ content line.now }
{
    let line = match line {
        [front @ .., b'\r'] => front,
        _ => line,
    };
    trim(line)
}

/// Whether the line is a comment.
pub(crate) fn is_comment(text: &[u8]) -> bool
    ensures { result ≡ is_comment text.now }
{
    text.starts_with(b"//")
}
