ghost use Rattle.std.specs.Prelude.{◌≡◌, ◌++◌, Ok, IfOk, OnOk, MatchResult, length};
ghost use Rattle.std.proofs.Math.ListN.{replicate};
ghost use Rattle.mdp_farkas.specs.Compare.{1ℚ};
ghost use Rattle.mdp_text.specs.{Answer.{Refuses, Keeps}, Lines.{place}};
ghost use Rattle.mdp_cert.specs.Pairs.{word_columns};
ghost use Rattle.mdp_subsystem_bounds.specs.{Entries.{mark_value, led_of, ranked_of}, Reading.{led_lists, ranked_lists, lists_from}};
ghost use Rattle.mdp_subsystem_bounds.specs.{Spelling.{lists_text}, Plain.{plain_lists}};

use crate::lists::SubsystemBounds;
use crate::mark::Mark;
use mdp_cert::{
    Behind, Column, Entry, First, Lent, LentPair, Others, Pair, Value, Version, column_of,
    entries_to_end, push_to_end,
};
use mdp_claims::ReachBoundsCert;
use mdp_num::{Frac, Memory};
use mdp_rows::Dir;
use mdp_text::Part::Bytes;
use mdp_text::{CertError, only_word, push_parts};
use std::alloc::{AllocError, Global};

/// A mark, as a word.
impl Value for Mark {
    ghost value = { mark_value };

    fn read_word(word: &[u8]) -> Option<Mark> {
        Mark::of_word(word)
    }

    fn push_word(&self, out: &mut Vec<u8>) -> Result<(), Memory> {
        push_parts(out, &[Bytes(self.word())])
    }

    fn is_same_value(&self, other: &Mark) -> bool {
        self.is_same_mark(*other)
    }
}

/// A mark that is the last word.
impl Entry for Mark {
    ghost columns = { word_columns mark_value };

    fn has_width(count: usize) -> bool {
        count == 1
    }

    fn read(text: &[u8]) -> Option<Mark> {
        Mark::of_word(only_word(text))
    }

    fn push_words(&self, out: &mut Vec<u8>) -> Result<(), Memory> {
        self.push_word(out)
    }

    fn is_same(&self, other: &Mark) -> bool {
        self.is_same_mark(*other)
    }
}

/// The line of a state for the greatest probability: a lower value, a choice, a rank and a mark.
type Led = Pair<Frac, Pair<u32, Pair<u32, Mark>>>;

/// The line of a state for the least probability: a lower value, a rank and a mark.
type Ranked = Pair<Frac, Pair<u32, Mark>>;

/// The column of choices where none is named.
struct NoChoice;

impl Column<Ranked> for NoChoice {
    type Item = u32;

    ghost field = { λ x. 0 };

    fn of(_entry: &Ranked) -> u32 {
        0
    }
}

/// The lists of these entries for the greatest probability.
fn led_lists(alloc: Global, entries: &[Led]) -> Result<SubsystemBounds, AllocError>
    ensures lists { IfOk result (λ l. plain_lists l ≡ led_lists entries.now) }
    ensures ones { IfOk result (λ l. l.bounds.upper.items ≡ replicate (length entries.now) 1ℚ) }
{
    Ok(SubsystemBounds {
        bounds: ReachBoundsCert {
            lower: column_of::<First, _>(alloc, entries)?,
            upper: vec![in alloc; Frac::whole(1); entries.len()]?,
            choices: column_of::<Behind<First>, _>(alloc, entries)?,
            ranks: column_of::<Behind<Behind<First>>, _>(alloc, entries)?,
        },
        marks: column_of::<Behind<Behind<Others>>, _>(alloc, entries)?,
    })
}

/// The same for the least probability.
fn ranked_lists(alloc: Global, entries: &[Ranked]) -> Result<SubsystemBounds, AllocError>
    ensures lists { IfOk result (λ l. plain_lists l ≡ ranked_lists entries.now) }
    ensures ones { IfOk result (λ l. l.bounds.upper.items ≡ replicate (length entries.now) 1ℚ) }
{
    Ok(SubsystemBounds {
        bounds: ReachBoundsCert {
            lower: column_of::<First, _>(alloc, entries)?,
            upper: vec![in alloc; Frac::whole(1); entries.len()]?,
            choices: column_of::<NoChoice, _>(alloc, entries)?,
            ranks: column_of::<Behind<First>, _>(alloc, entries)?,
        },
        marks: column_of::<Behind<Others>, _>(alloc, entries)?,
    })
}

/// Reads the lines from line 5 on, of the states, with the line `end`, and gives the number of the line behind it and the bytes from there on.
#[tactic(auto, unfolding(crate::specs::Reading::lists_from))]
pub(crate) fn lists_from(
    alloc: Global,
    dir: Dir,
    states: u32,
    bytes: &[u8],
) -> Result<(SubsystemBounds, u64, &[u8]), CertError>
    ensures lists { let read = lists_from dir states (place 5 bytes.now) in
        MatchResult result (λ p. read ≡ Ok (plain_lists p.0, place p.1 p.2.now)) (λ e. Refuses e read) }
    ensures ones { IfOk result (λ p. p.0.bounds.upper.items ≡ replicate (length p.0.bounds.lower.items) 1ℚ) }
{
    match dir {
        Dir::Max => {
            let (entries, line, rest) = entries_to_end(alloc, Version::Two, states, 5, bytes)?;
            Ok((led_lists(alloc, &entries)?, line, rest))
        }
        Dir::Min => {
            let (entries, line, rest) = entries_to_end(alloc, Version::Two, states, 5, bytes)?;
            Ok((ranked_lists(alloc, &entries)?, line, rest))
        }
    }
}

/// Appends the lines of the states for the greatest probability, with the line `end`.
fn push_led(out: &mut Vec<u8>, states: u32, lists: &SubsystemBounds) -> Result<(), Memory>
    requires { length (led_of lists.now.bounds.lower.items lists.now.bounds.choices.items lists.now.bounds.ranks.items lists.now.marks.items)
        ≡ states }
    ensures text { OnOk result (out.new.items ≡ out.old.items ++ lists_text Dir.Max (plain_lists lists.now)) }
    ensures front { Keeps out.old.items out.new.items }
{
    let others = LentPair {
        first: lists.bounds.ranks.as_slice(),
        others: Lent {
            entries: lists.marks.as_slice(),
        },
    };
    let others = LentPair {
        first: lists.bounds.choices.as_slice(),
        others,
    };
    let entries = LentPair {
        first: lists.bounds.lower.as_slice(),
        others,
    };
    push_to_end(out, Version::Two, states, &entries)
}

/// The same for the least probability.
fn push_ranked(out: &mut Vec<u8>, states: u32, lists: &SubsystemBounds) -> Result<(), Memory>
    requires { length (ranked_of lists.now.bounds.lower.items lists.now.bounds.ranks.items lists.now.marks.items) ≡ states }
    ensures text { OnOk result (out.new.items ≡ out.old.items ++ lists_text Dir.Min (plain_lists lists.now)) }
    ensures front { Keeps out.old.items out.new.items }
{
    let others = LentPair {
        first: lists.bounds.ranks.as_slice(),
        others: Lent {
            entries: lists.marks.as_slice(),
        },
    };
    let entries = LentPair {
        first: lists.bounds.lower.as_slice(),
        others,
    };
    push_to_end(out, Version::Two, states, &entries)
}

/// Appends the lines of the states, with the line `end`.
pub(crate) fn push_lists(
    out: &mut Vec<u8>,
    dir: Dir,
    states: u32,
    lists: &SubsystemBounds,
) -> Result<(), Memory>
    requires lower { length lists.now.bounds.lower.items ≡ states }
    requires choices { length lists.now.bounds.choices.items ≡ states }
    requires ranks { length lists.now.bounds.ranks.items ≡ states }
    requires marks { length lists.now.marks.items ≡ states }
    ensures text { OnOk result (out.new.items ≡ out.old.items ++ lists_text dir (plain_lists lists.now)) }
    ensures front { Keeps out.old.items out.new.items }
{
    match dir {
        Dir::Max => push_led(out, states, lists),
        Dir::Min => push_ranked(out, states, lists),
    }
}
