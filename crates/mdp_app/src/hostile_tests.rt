//! Faults of sources and sinks at each of their calls, and refused models in whatever pieces they come.
use crate::tests::{COIN, COIN_POLICY, Given, ROOM, Room, ends};
use mdp_drn::{DrnError, DrnKind, Feed};
use mdp_job::Status;
use mdp_rows::RowRule;
use std::alloc::Global;

/// 0 init: [1 1/2, 2 1/2] [0 1/2, 1 1/4, 2 1/4]; 1 goal: [1 1]; 2: [2 1]
const FORK: &str =
    "@type: MDP\n@nr_states\n3\n@model\nstate 0 init\naction\n1 : 1/2\n2 : 1/2\naction\n0 : 1/2\n1 : 1/4\n2 : 1/4\nstate 1 goal\naction\n1 : 1\nstate 2\naction\n2 : 1\n";

/// The certificate of 109 bytes that is due to its greatest probability.
const FORKED: &str =
    "mdp-certificate 2\nclaim max reach \"goal\"\nstates 3\ninit 0 1/2\nstate 0 1/2 0 1\nstate 1 1 0 0\nstate 2 0 0 0\nend\n";

/// Rows that add to 0.999999.
const THIRDS: &str =
    "@type: MDP\n@nr_states\n4\n@model\nstate 0 init\naction\n1 : 0.333333\n2 : 0.333333\n3 : 0.333333\nstate 1 goal\naction\n1 : 1\nstate 2\naction\n2 : 1\nstate 3\naction\n3 : 1\n";

/// A source of a text that gives seven bytes a call, and fails at these calls.
fn failing<'a>(text: &'a str, fails: &'a [u64]) -> Given<'a> {
    Given {
        bytes: text.as_bytes(),
        chunk: 7,
        fails,
    }
}

/// How often such a source of a text is called.
fn calls_of(text: &str) -> u64 {
    (text.len() as u64).div_ceil(7) + 1
}

/// Whether a solve ends so on a source and a sink, which takes this text.
fn solve_ends(
    alloc: Global,
    model: &Given<'_>,
    room: &Room<'_>,
    status: Status,
    taken: &str,
) -> bool {
    ends(
        alloc,
        "solve MODEL exact max reach goal",
        model,
        &failing("", &[]),
        room,
        status,
        taken.as_bytes(),
    )
}

/// Whether a solve of the fork ends so on a sink with so much room that fails at a call, once it has taken so many bytes of the certificate.
fn fork_ends(alloc: Global, room: usize, call: u64, status: Status, taken: usize) -> bool {
    let room = Room {
        room,
        chunk: 16,
        fails: &[call],
    };
    match FORKED.get(..taken) {
        Some(text) => solve_ends(alloc, &failing(FORK, &[]), &room, status, text),
        None => false,
    }
}

/// Whether a write fault at a call is answered.
fn write_faults(alloc: Global, room: usize, call: u64, taken: usize) -> bool {
    fork_ends(alloc, room, call, Status::WriteFault, taken)
}

/// A sink that fails at each one of its calls while a certificate is written in pieces of 16 bytes: the seventh call takes 13 bytes, the eighth is
/// the flush. A store of 40 bytes has no room for the third piece.
fn each_write_faults(alloc: Global) -> bool {
    write_faults(alloc, 200, 0, 0)
        && write_faults(alloc, 200, 1, 16)
        && write_faults(alloc, 200, 2, 32)
        && write_faults(alloc, 200, 3, 48)
        && write_faults(alloc, 200, 4, 64)
        && write_faults(alloc, 200, 5, 80)
        && write_faults(alloc, 200, 6, 96)
        && write_faults(alloc, 200, 7, 109)
        && write_faults(alloc, 40, 9, 40)
}

#[test]
fn answers_each_write_fault(rt: HostRuntime) {
    assert!(rt; each_write_faults(rt.alloc()));
    assert!(rt; fork_ends(rt.alloc(), 200, 8, Status::Done, 109));
}

/// Whether a command on the coin and a policy answers a fault by this line, where its sources fail at these calls.
fn faults(
    alloc: Global,
    command: &str,
    model_fails: &[u64],
    second_fails: &[u64],
    line: &[u8],
) -> bool {
    let model = failing(COIN, model_fails);
    let second = failing(COIN_POLICY, second_fails);
    ends(
        alloc,
        command,
        &model,
        &second,
        &ROOM,
        Status::ReadFault,
        line,
    )
}

/// Whether each one fault of the model's source is answered.
fn model_faults(alloc: Global, command: &str) -> bool {
    for call in 0..calls_of(COIN) {
        if !faults(alloc, command, &[call], &[], b"read-fault model\n") {
            return false;
        }
    }
    true
}

/// Each one call of the model's source that fails, whatever is asked of the model.
#[test]
fn answers_each_fault_of_a_model(rt: HostRuntime) {
    for command in [
        "solve MODEL exact max reach goal",
        "policy MODEL exact POLICY reach goal",
        "check MODEL exact CERT",
        "witness MODEL exact max goal 1/4",
        "horizon MODEL exact max - goal 2",
        "discount MODEL exact max - 1/2",
        "discount-check MODEL exact CERT",
        "bounds MODEL exact max reach goal 6",
        "total MODEL exact max - 2",
        "bounds MODEL exact max total - 2 6",
        "bounds MODEL exact max discount - 1/2 6",
        "bounds-check MODEL exact CERT",
        "curve MODEL exact max until - goal 2 6",
        "curve MODEL exact max total - 2 6",
    ] {
        assert!(rt; model_faults(rt.alloc(), command), "{command}");
    }
}

/// Whether each one fault of the second source is answered.
fn second_faults(alloc: Global, command: &str) -> bool {
    for call in 0..calls_of(COIN_POLICY) {
        if !faults(alloc, command, &[], &[call], b"read-fault certificate\n") {
            return false;
        }
    }
    true
}

/// Each one call of the second source that fails, behind a model that was read, whatever it is to hold.
#[test]
fn answers_each_fault_of_a_second_file(rt: HostRuntime) {
    for command in [
        "policy MODEL exact POLICY reach goal",
        "check MODEL exact CERT",
        "discount-check MODEL exact CERT",
        "bounds-check MODEL exact CERT",
    ] {
        assert!(rt; second_faults(rt.alloc(), command), "{command}");
    }
}

/// Whether a model that comes in pieces of so many bytes is refused by this line.
fn refuses_in(alloc: Global, chunk: usize, text: &str, line: &str) -> bool {
    let model = Given {
        bytes: text.as_bytes(),
        chunk,
        fails: &[],
    };
    solve_ends(alloc, &model, &ROOM, Status::Model, line)
}

/// The same in whatever pieces it comes.
fn refuses(alloc: Global, text: &str, line: &str) -> bool {
    refuses_in(alloc, 1, text, line)
        && refuses_in(alloc, 7, text, line)
        && refuses_in(alloc, 65_536, text, line)
}

/// Models that end within the line of an entry, or too early.
fn refuses_ends(alloc: Global) -> bool {
    let number = "@type: MDP\n@nr_states\n1\n@model\nstate 0\naction\n0 : 1/";
    let shape = "@type: MDP\n@nr_states\n1\n@model\nstate 0\naction\n0";
    let count = "@type: MDP\n@nr_states\n2\n@model\nstate 0\naction\n0 : 1\n";
    refuses(alloc, number, "model line 7 number\n")
        && refuses(alloc, shape, "model line 7 shape\n")
        && refuses(alloc, count, "model line 8 count\n")
        && refuses(alloc, "", "model line 1 end\n")
}

/// Models that are refused before their end.
fn refuses_lines(alloc: Global) -> bool {
    let many = "@type: MDP\n@nr_states\n1048577\n@model\nstate 0\n";
    refuses(alloc, THIRDS, "model line 6 row-sum\n")
        && refuses(alloc, many, "model line 3 too-many\n")
}

/// Models that are refused, at their end or before it, in whatever pieces they come.
#[test]
fn refuses_in_pieces(rt: HostRuntime) {
    assert!(rt; refuses_ends(rt.alloc()) && refuses_lines(rt.alloc()));
}

/// A number of states past the limit, whose line ends with byte 59.
const PAST: &str =
    "@type: MDP\n@parameters\n\n@reward_models\n\n@nr_states\n1048577\n@nr_choices\n4\n@model\n";

/// Whether each byte before that is taken.
fn takes_before(feed: &mut Feed) -> bool {
    for piece in PAST.as_bytes().chunks(1).take(58) {
        if feed.push(piece).is_err() {
            return false;
        }
    }
    true
}

/// Whether the number is refused with that byte, and with each one behind it.
fn refuses_behind(feed: &mut Feed) -> bool {
    for piece in PAST.as_bytes().chunks(1).skip(58) {
        let Err(
            DrnError::At {
                line: 7,
                kind: DrnKind::TooMany,
            },
        ) = feed.push(piece)
        else {
            return false;
        };
    }
    true
}

/// Whether the end is refused by the same line.
fn is_refused_at_end(feed: Feed) -> bool {
    matches!(
        feed.finish(),
        Err(DrnError::At {
            line: 7,
            kind: DrnKind::TooMany
        })
    )
}

fn refuses_past(alloc: Global) -> bool {
    let Ok(mut feed) = Feed::new(alloc, RowRule::Exact) else {
        return false;
    };
    let is_refused = takes_before(&mut feed) && refuses_behind(&mut feed);
    is_refused_at_end(feed) && is_refused
}

/// Fed byte by byte, a text is refused by the push that ends the line of the refusal, and from then on.
#[test]
fn refuses_byte_by_byte(rt: HostRuntime) {
    assert!(rt; refuses_past(rt.alloc()));
}
