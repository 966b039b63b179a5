ghost use Rattle.std.specs.Prelude.{◌≡◌, [], ◌+◌, ◌<◌, ◌≤◌, ◌^◌, ◌++◌, ◌==◌, ◌||◌, not, nat_lt, Ok, Err, OnOk, IfOk, MatchResult, length};
ghost use Rattle.std.{specs.Bool.{OnTrue}, proofs.Math.ListN.{replicate}};
ghost use Rattle.mdp_text.specs.{Answer.{Refuses}, Lines.{place}, Words.{words, words_behind}};
ghost use Rattle.mdp_cert.specs.{Runs.{run}, Reading.{state_at, run_at, is_same, line_of_states, longest_at, run_in, entries_from, entries_to_end}};

use crate::entries::Entry;
use crate::version::Version;
use mdp_text::{
    CertError, CertKind, Refusal, begins_with, cut_word, is_line, next_line, refuse_if, whole_of,
    word_count, words_behind,
};
use std::alloc::{AllocError, Global};

/// Whether so many words are these numbers and the words of an entry.
fn is_count<E: Entry>(numbers: usize, count: usize) -> bool
    ensures count { result ≡ (count == numbers + E.columns.width) }
    ensures some { OnTrue result (numbers < count) }
{
    count >= numbers && E::has_width(count - numbers)
}

/// The words behind the first one, where it is the one that is due and so many numbers and the words of an entry follow; else `Shape`.
fn numbered<'a, E: Entry>(
    numbers: usize,
    line: u64,
    text: &'a [u8],
    due: &[u8],
) -> Result<&'a [u8], Refusal>
    ensures words { let found = words_behind due.now (numbers + E.columns.width) line text.now in
        MatchResult result (λ a. found ≡ Ok (words a.now)) (λ e. found ≡ Err e) }
    ensures count { IfOk result (λ a. length (words a.now) ≡ numbers + E.columns.width) }
    ensures some { IfOk result (λ a. numbers < length (words a.now)) }
{
    let count = word_count(text) - 1;
    refuse_if(CertKind::Shape, line, !is_count::<E>(numbers, count))?;
    words_behind(line, text, due, count)
}

/// The entry of the line `state S WORDS`, where S is the state that is due, and that no more states follow in it.
#[tactic(auto, unfolding(crate::specs::Reading::state_at, crate::specs::Reading::entry_at, mdp_text::specs::Words::whole_at))]
fn state_at<E: Entry>(due: u32, line: u64, text: &[u8]) -> Result<(E, u32), Refusal>
    ensures said { let due_run = state_at E.columns due line text.now in MatchResult result (λ r. due_run ≡ Ok (run r.0 r.1)) (λ e. due_run ≡ Err e) }
    ensures alone { IfOk result (λ r. r.1 ≡ 0) }
{
    let behind = numbered::<E>(1, line, text, b"state")?;
    let (state, behind) = cut_word(behind);
    let (Some(state), Some(entry)) = (whole_of(state), E::read(behind)) else {
        return Err(Refusal {
            kind: CertKind::Number,
            line,
        });
    };
    refuse_if(CertKind::Count, line, state != due)?;
    Ok((entry, 0))
}

/// Whether these states are no run of two or more of so many states, from the one that is due on.
fn is_no_run(states: u32, due: u32, first: u32, last: u32) -> bool
    ensures { result ≡ (not (first == due) || not (nat_lt first last) || not (nat_lt last states)) }
{
    first != due || first >= last || last >= states
}

/// The entry of the line `run A B WORDS`, where A is the state that is due, and how many states follow A.
#[tactic(auto, unfolding(crate::specs::Reading::run_at, crate::specs::Reading::entry_at, mdp_text::specs::Words::whole_at))]
fn run_at<E: Entry>(states: u32, due: u32, line: u64, text: &[u8]) -> Result<(E, u32), Refusal>
    ensures said { let due_run = run_at E.columns states due line text.now in
        MatchResult result (λ r. due_run ≡ Ok (run r.0 r.1)) (λ e. due_run ≡ Err e) }
    ensures inside { IfOk result (λ r. due + r.1 < states) }
{
    let behind = numbered::<E>(2, line, text, b"run")?;
    let (first, behind) = cut_word(behind);
    let (last, behind) = cut_word(behind);
    let (Some(first), Some(last), Some(entry)) = (whole_of(first), whole_of(last), E::read(behind))
    else {
        return Err(Refusal {
            kind: CertKind::Number,
            line,
        });
    };
    refuse_if(CertKind::Count, line, is_no_run(states, due, first, last))?;
    Ok((entry, last - first))
}

/// The entry of a line of one state or of a run, and how many states follow its first one.
fn line_of_states<E: Entry>(
    states: u32,
    due: u32,
    line: u64,
    text: &[u8],
) -> Result<(E, u32), Refusal>
    requires { due < states }
    ensures said { let due_run = line_of_states E.columns states due line text.now in
        MatchResult result (λ r. due_run ≡ Ok (run r.0 r.1)) (λ e. due_run ≡ Err e) }
    ensures inside { IfOk result (λ r. due + r.1 < states) }
{
    if begins_with(text, b"run") {
        run_at(states, due, line, text)
    } else {
        state_at(due, line, text)
    }
}

/// Whether the line before, if there was one, says the same.
fn is_same<E: Entry>(before: &Option<E>, entry: &E) -> bool
    ensures { result ≡ is_same E.columns before.now entry.now }
{
    match before {
        Some(before) => before.is_same(entry),
        None => false,
    }
}

/// The same in version 2, where the line couldn't be one with the line before it.
#[tactic(auto, unfolding(crate::specs::Reading::longest_at))]
fn longest_at<E: Entry>(
    states: u32,
    due: u32,
    before: &Option<E>,
    line: u64,
    text: &[u8],
) -> Result<(E, u32), Refusal>
    requires { due < states }
    ensures said { let due_run = longest_at E.columns states due before.now line text.now in
        MatchResult result (λ r. due_run ≡ Ok (run r.0 r.1)) (λ e. due_run ≡ Err e) }
    ensures inside { IfOk result (λ r. due + r.1 < states) }
{
    let (entry, more) = line_of_states(states, due, line, text)?;
    refuse_if(CertKind::Run, line, is_same(before, &entry))?;
    Ok((entry, more))
}

/// The same in either version.
fn run_in<E: Entry>(
    version: Version,
    states: u32,
    due: u32,
    before: &Option<E>,
    line: u64,
    text: &[u8],
) -> Result<(E, u32), Refusal>
    requires { due < states }
    ensures said { let due_run = run_in version E.columns states due before.now line text.now in
        MatchResult result (λ r. due_run ≡ Ok (run r.0 r.1)) (λ e. due_run ≡ Err e) }
    ensures inside { IfOk result (λ r. due + r.1 < states) }
{
    match version {
        Version::One => state_at(due, line, text),
        Version::Two => longest_at(states, due, before, line, text),
    }
}

/// Appends an entry so many times.
fn push_times<E: Entry>(entries: &mut Vec<E>, entry: E, times: u32) -> Result<(), AllocError>
    ensures { OnOk result (entries.new.items ≡ entries.old.items ++ replicate times entry) }
{
    for _ in 0..times {
        entries.push(entry)?;
    }
    Ok(())
}

/// Reads the lines of the states, the first of which has this number, into an empty list of entries, and gives the number of the line behind
/// them and the bytes from there on.
fn entries_from<'a, E: Entry>(
    entries: &mut Vec<E>,
    version: Version,
    states: u32,
    line: u64,
    bytes: &'a [u8],
) -> Result<(u64, &'a [u8]), CertError>
    requires empty { entries.now.items ≡ [] }
    requires line { line < 2 ^ 32 }
    ensures said { let read = entries_from version E.columns states (place line bytes.now) in
        MatchResult result (λ p. read ≡ Ok (entries.new.items, place p.0 p.1.now)) (λ e. Refuses e read) }
    ensures lines { IfOk result (λ p. p.0 ≤ line + states) }
{
    let mut before = None;
    let mut due = 0;
    let mut next = line;
    let mut rest = bytes;
    while due < states {
        let (text, behind) = next_line(next, rest)?;
        let (entry, more) = run_in(version, states, due, &before, next, text)?;
        push_times(entries, entry, more + 1)?;
        before = Some(entry);
        due += more + 1;
        next += 1;
        rest = behind;
    }
    Ok((next, rest))
}

/// The same with the line `end`.
#[tactic(auto, unfolding(crate::specs::Reading::entries_to_end))]
fn lines_to_end<'a, E: Entry>(
    entries: &mut Vec<E>,
    version: Version,
    states: u32,
    line: u64,
    bytes: &'a [u8],
) -> Result<(u64, &'a [u8]), CertError>
    requires empty { entries.now.items ≡ [] }
    requires line { line < 2 ^ 32 }
    ensures { let read = entries_to_end version E.columns states (place line bytes.now) in
        MatchResult result (λ p. read ≡ Ok (entries.new.items, place p.0 p.1.now)) (λ e. Refuses e read) }
{
    let (next, rest) = entries_from(entries, version, states, line, bytes)?;
    let (text, rest) = next_line(next, rest)?;
    is_line(CertKind::Shape, b"end", next, text)?;
    Ok((next + 1, rest))
}

/// Reads the lines of the states and the line `end`, and gives the entries, the number of the line behind it and the bytes from there on.
pub fn entries_to_end<E: Entry>(
    alloc: Global,
    version: Version,
    states: u32,
    line: u64,
    bytes: &[u8],
) -> Result<(Vec<E>, u64, &[u8]), CertError>
    requires { line < 2 ^ 32 }
    ensures { let read = entries_to_end version E.columns states (place line bytes.now) in
        MatchResult result (λ p. read ≡ Ok (p.0.items, place p.1 p.2.now)) (λ e. Refuses e read) }
{
    let mut entries = Vec::new(alloc);
    let (next, rest) = lines_to_end(&mut entries, version, states, line, bytes)?;
    Ok((entries, next, rest))
}
