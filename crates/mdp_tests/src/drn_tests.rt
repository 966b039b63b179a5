use mdp_drn::DrnKind::{
    Choices, Count, End, Header, Label, Large, LongLine, Negative, NoChoice, Number, Order,
    Parametric, Reward, RowSum, RowWide, Shape, Target, TooMany, Twice, Type,
};
use mdp_drn::{DrnError, DrnKind, Feed, FromError, read, read_from, write};
use mdp_edge::ListSource;
use mdp_rows::{Model, RowRule};
use std::alloc::{AllocError, Global};

/// The text of a Markov chain of two states with a cost below 0, of 127 bytes.
const CHAIN: &str =
    "@type: DTMC\n@reward_models\ncost\n@nr_states\n2\n@model\nstate 0 [-1] init\naction a [1/2]\n0 : 0.5\n1 : 0.5\nstate 1 goal\naction\n1 : 1\n";

/// The text that is written of it.
const WRITTEN: &str =
    "@type: MDP\n@parameters\n\n@reward_models\ncost\n@nr_states\n2\n@nr_choices\n2\n@model\nstate 0 [0] \"init\"\n\taction 0 [-1/2]\n\t\t0 : 1/2\n\t\t1 : 1/2\nstate 1 [0] \"goal\"\n\taction 0 [0]\n\t\t1 : 1\n";

/// Whether `WRITTEN` is written of a model.
fn is_written(alloc: Global, model: &Model) -> bool {
    let mut written = Vec::new(alloc);
    write(model, &mut written).is_ok() && written.as_slice() == WRITTEN.as_bytes()
}

/// Whether `WRITTEN` is written of the model of a text.
fn is_read(alloc: Global, text: &str) -> bool {
    let Ok(model) = read(alloc, text.as_bytes(), RowRule::Exact) else {
        return false;
    };
    is_written(alloc, &model)
}

#[test]
fn writes_what_it_reads(rt: HostRuntime) {
    assert!(rt; is_read(rt.alloc(), CHAIN) && is_read(rt.alloc(), WRITTEN));
}

/// Whether each piece of seven bytes is taken.
fn takes_pieces(feed: &mut Feed) -> bool {
    for piece in CHAIN.as_bytes().chunks(7) {
        if feed.push(piece).is_err() {
            return false;
        }
    }
    true
}

/// Whether it is fed the chain: a model of two states, whose second label is `goal`.
fn is_chain(feed: Feed) -> bool {
    let Ok(model) = feed.finish() else {
        return false;
    };
    model.states() == 2 && model.label(b"goal") == Some(1)
}

fn chain_is_fed(alloc: Global) -> bool {
    let Ok(mut feed) = Feed::new(alloc, RowRule::Exact) else {
        return false;
    };
    let is_taken = takes_pieces(&mut feed);
    is_chain(feed) && is_taken
}

#[test]
fn reads_in_pieces(rt: HostRuntime) {
    assert!(rt; chain_is_fed(rt.alloc()));
}

/// Whether the chain is taken, but not a choice without entries behind it, nor anything from then on.
fn refuses_rest(feed: &mut Feed) -> bool {
    feed.push(CHAIN.as_bytes()).is_ok()
        && feed.push(b"action").is_ok()
        && matches!(
            feed.push(b"\n"),
            Err(DrnError::At {
                line: 14,
                kind: Choices
            })
        )
        && matches!(
            feed.push(b"1 : 1\n"),
            Err(DrnError::At {
                line: 14,
                kind: Choices
            })
        )
}

/// Whether the end is refused by the same line.
fn is_refused_at_end(feed: Feed) -> bool {
    matches!(
        feed.finish(),
        Err(DrnError::At {
            line: 14,
            kind: Choices
        })
    )
}

fn refuses_for_good(alloc: Global) -> bool {
    let Ok(mut feed) = Feed::new(alloc, RowRule::Exact) else {
        return false;
    };
    let is_refused = refuses_rest(&mut feed);
    is_refused_at_end(feed) && is_refused
}

#[test]
fn stays_refused(rt: HostRuntime) {
    assert!(rt; refuses_for_good(rt.alloc()));
}

/// A source of the chain that gives 7 bytes a call, and fails at the calls of these numbers.
fn source(alloc: Global, fails: &[u64]) -> Result<ListSource, AllocError> {
    let text = CHAIN.as_bytes().to_vec(alloc)?;
    Ok(ListSource::new(text, 7, fails.to_vec(alloc)?))
}

/// How many states are read from a source.
fn states_read(alloc: Global, source: &mut ListSource, limit: u32) -> Result<u32, FromError> {
    match read_from(alloc, source, RowRule::Exact, limit as usize) {
        Ok(model) => Ok(model.states()),
        Err(error) => Err(error),
    }
}

/// How many states are read from such a source of the chain.
fn states_from(alloc: Global, fails: &[u64], limit: u32) -> Result<u32, FromError> {
    let Ok(mut source) = source(alloc, fails) else {
        return Err(FromError::Memory);
    };
    states_read(alloc, &mut source, limit)
}

#[test]
fn reads_from_a_source(rt: HostRuntime) {
    assert!(rt; matches!(states_from(rt.alloc(), &[], 127), Ok(2)));
    assert!(rt; matches!(states_from(rt.alloc(), &[], 126), Err(FromError::Long)));
    assert!(rt;
        matches!(
            states_from(rt.alloc(), &[5], 127),
            Err(FromError::ReadFault)
        )
    );
}

/// Whether a kind has this number and name.
fn is_named(alloc: Global, kind: DrnKind, number: u8, name: &str) -> bool {
    let Ok(shown) = format!(in alloc; "{kind}") else {
        return false;
    };
    kind as u8 == number && shown.as_str() == name
}

/// The kinds up to 10.
fn first_are_named(alloc: Global) -> bool {
    is_named(alloc, Header, 1, "header")
        && is_named(alloc, Type, 2, "type")
        && is_named(alloc, Parametric, 3, "parametric")
        && is_named(alloc, Number, 4, "number")
        && is_named(alloc, Large, 5, "large")
        && is_named(alloc, Order, 6, "order")
        && is_named(alloc, Count, 7, "count")
        && is_named(alloc, Reward, 8, "reward")
        && is_named(alloc, Target, 9, "target")
        && is_named(alloc, Twice, 10, "twice")
}

/// The kinds from 11 on.
fn others_are_named(alloc: Global) -> bool {
    is_named(alloc, RowSum, 11, "row-sum")
        && is_named(alloc, RowWide, 12, "row-wide")
        && is_named(alloc, NoChoice, 13, "no-choice")
        && is_named(alloc, Label, 14, "label")
        && is_named(alloc, TooMany, 15, "too-many")
        && is_named(alloc, Shape, 16, "shape")
        && is_named(alloc, Negative, 17, "negative")
        && is_named(alloc, LongLine, 18, "long-line")
        && is_named(alloc, End, 19, "end")
        && is_named(alloc, Choices, 20, "choices")
}

/// The kinds in the order of their numbers, as the program names them.
#[test]
fn names_kinds(rt: HostRuntime) {
    assert!(rt; first_are_named(rt.alloc()) && others_are_named(rt.alloc()));
}
