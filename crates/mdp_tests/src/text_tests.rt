use mdp_num::Frac;
use mdp_text::CertKind::{Claim, Count, End, Number, Run, Shape, Version};
use mdp_text::{
    CertError, CertKind, Refusal, before_quote, begins_with, cut_word, frac_at, init_of, is_line,
    is_name, next_line, nothing_behind, only_word, push_end, push_fraction, push_fraction_end,
    push_init, push_number, push_values, push_whole, push_word, refuse_if, reward_of, start_at,
    states_at, valued_at, whole_at, whole_of, words_behind,
};
use std::alloc::Global;

/// Whether a kind has this number, and a refusal of it at line 5 this text.
fn is_shown(alloc: Global, kind: CertKind, number: u8, text: &str) -> bool {
    let error = CertError::At { line: 5, kind };
    let Ok(shown) = format!(in alloc; "{error}") else {
        return false;
    };
    kind as u8 == number && shown.as_str() == text
}

fn kinds_are_shown(alloc: Global) -> bool {
    is_shown(alloc, Version, 1, "line 5 version")
        && is_shown(alloc, Claim, 2, "line 5 claim")
        && is_shown(alloc, Number, 3, "line 5 number")
        && is_shown(alloc, Shape, 4, "line 5 shape")
        && is_shown(alloc, Count, 5, "line 5 count")
        && is_shown(alloc, End, 6, "line 5 end")
        && is_shown(alloc, Run, 7, "line 5 run")
}

#[test]
fn kinds_have_numbers_and_texts(rt: HostRuntime) {
    assert!(rt; kinds_are_shown(rt.alloc()));
}

/// The last line, which has no end.
fn last_is_refused(last: &[u8]) -> bool {
    matches!(next_line(2, last), Err(Refusal { kind: End, line: 2 }))
        && matches!(nothing_behind(2, last), Err(Refusal { kind: End, line: 2 }))
        && is_line(Shape, b"two", 2, last).is_ok()
        && matches!(refuse_if(End, 2, true), Err(Refusal { kind: End, line: 2 }))
}

fn first_is_cut() -> bool {
    let Ok((first, rest)) = next_line(1, b"one\ntwo") else {
        return false;
    };
    first == b"one".as_slice() && rest == b"two".as_slice() && last_is_refused(rest)
}

#[test]
fn lines_are_cut(rt: HostRuntime) {
    assert!(rt; first_is_cut());
}

/// A line of three words, of which the last is a fraction.
fn line_is_read() -> bool {
    let Ok(behind) = words_behind(6, b"keep 7 1/3", b"keep", 2) else {
        return false;
    };
    let (state, behind) = cut_word(behind);
    let Ok(third) = frac_at(6, only_word(behind)) else {
        return false;
    };
    whole_at(6, state).ok() == Some(7) && third.num() == 1 && third.den() == 3
}

fn words_are_refused() -> bool {
    matches!(
        words_behind(6, b"keep 7", b"keep", 2),
        Err(Refusal {
            kind: Shape,
            line: 6
        })
    ) && matches!(
        whole_at(6, b"-1"),
        Err(Refusal {
            kind: Number,
            line: 6
        })
    ) && matches!(
        frac_at(6, b"2/6"),
        Err(Refusal {
            kind: Number,
            line: 6
        })
    ) && whole_of(b"4294967296").is_none()
}

fn words_are_known() -> bool {
    matches!(reward_of(b"inf"), Some(None))
        && begins_with(b"run 0 1", b"run")
        && !begins_with(b"runs 0", b"run")
        && is_name(b"my label")
        && !is_name(b"")
        && !is_name(b"a\"b")
        && before_quote(b"ab\" \"c") == 2
}

#[test]
fn words_are_read(rt: HostRuntime) {
    assert!(rt; line_is_read() && words_are_refused() && words_are_known());
}

fn heads_are_judged() -> bool {
    states_at(3, b"states 1048576").ok() == Some(1_048_576)
        && matches!(
            states_at(3, b"states 0"),
            Err(Refusal {
                kind: Count,
                line: 3
            })
        )
        && matches!(
            valued_at(true, 2, 3, b"init 2 0"),
            Err(Refusal {
                kind: Count,
                line: 3
            })
        )
}

/// Reads a line of the initial state and its value, and appends it.
fn pushes_valued(text: &mut Vec<u8>, line: &[u8]) -> bool {
    let Ok(init) = valued_at(false, 2, 4, line) else {
        return false;
    };
    push_init(text, &init).is_ok()
}

/// Reads a line of the initial state alone, and appends it.
fn pushes_start(text: &mut Vec<u8>, line: &[u8]) -> bool {
    let Ok(init) = start_at(2, 4, line) else {
        return false;
    };
    push_init(text, &init).is_ok()
}

/// Appends the number of states and lines of initial states.
fn pushes_heads(text: &mut Vec<u8>) -> bool {
    push_number(text, 2).is_ok()
        && pushes_valued(text, b"init -")
        && pushes_valued(text, b"init 1 1/3")
        && push_init(text, &init_of(1, None)).is_ok()
        && pushes_start(text, b"init 0")
}

/// Appends a value for each of two states, numbers, fractions and the last line.
fn pushes_rest(text: &mut Vec<u8>, half: Frac) -> bool {
    push_values(text, &[half, half]).is_ok()
        && push_whole(text, 9).is_ok()
        && push_word(text, 8).is_ok()
        && push_fraction(text, &half).is_ok()
        && push_fraction_end(text, &half).is_ok()
        && push_end(text).is_ok()
}

const PUSHED: &str =
    "states 2\ninit -\ninit 1 1/3\ninit 1 inf\ninit 0\nstate 0 1/2\nstate 1 1/2\n9 8 1/2 1/2\nend\n";

fn all_is_pushed(alloc: Global) -> bool {
    let Ok(half) = frac_at(5, b"1/2") else {
        return false;
    };
    let mut text = Vec::new(alloc);
    pushes_heads(&mut text) && pushes_rest(&mut text, half) && text.as_slice() == PUSHED.as_bytes()
}

#[test]
fn heads_are_read_and_written(rt: HostRuntime) {
    assert!(rt; heads_are_judged() && all_is_pushed(rt.alloc()));
}
