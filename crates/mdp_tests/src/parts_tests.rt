ghost use Rattle.std.specs.Prelude.{◌≡◌, ◌<◌, length};
ghost use Rattle.mdp_spec.specs.Mdp.{states_of};
ghost use Rattle.mdp_parts.specs.FoundEnds.{AreEndsOf};

use crate::models::model_of;
use bumpalo::Bump;
use mdp_num::Memory;
use mdp_parts::{Allowed, Ends, components, end_components};
use mdp_quot::{Exit, Quotient};
use mdp_rows::{Model, Row};
use std::alloc::{AllocError, Global};

/// The number of each state's strong component.
fn strong_of(alloc: Global, model: &Model) -> Result<Vec<u32>, Memory> {
    let all = Allowed::all(alloc, model)?;
    components(alloc, model, &all)
}

/// Whether these are the numbers of the strong components.
fn are_strong(alloc: Global, model: &Model, due: &[u32]) -> bool {
    let Ok(numbers) = strong_of(alloc, model) else {
        return false;
    };
    numbers.as_slice() == due
}

/// Appends a blank and a number.
fn push_number(number: u32, out: &mut String) -> Result<(), AllocError> {
    write!(out, " {number}")
}

/// Appends the end component of state `s`, and which of its choices are inside.
fn push_end(model: &Model, ends: &Ends, s: u32, out: &mut String) -> Result<(), AllocError>
    requires ends { AreEndsOf model.now ends.now }
    requires state { s < states_of model.now }
{
    match ends.of(s) {
        Some(number) => push_number(number, out)?,
        None => out.push_str(" -")?,
    }
    for c in 0..model.choices(s) {
        out.push_str(if ends.inside(s, c) { " in" } else { " out" })?;
    }
    Ok(())
}

/// Appends the number of end components, and those of the states.
fn push_ends(model: &Model, ends: &Ends, out: &mut String) -> Result<(), AllocError>
    requires { AreEndsOf model.now ends.now }
{
    push_number(ends.count(), out)?;
    out.push_str(" ends")?;
    for s in 0..model.states() {
        push_end(model, ends, s, out)?;
    }
    Ok(())
}

/// Appends the entries of a row.
fn push_row(row: Row<'_>, out: &mut String) -> Result<(), AllocError> {
    for (target, prob) in row.targets.iter().zip(row.probs) {
        write!(out, " {target} {}/{}", prob.num(), prob.den())?;
    }
    Ok(())
}

/// Appends an exit of node `q`.
fn push_exit(q: u32, exit: &Exit, out: &mut String) -> Result<(), AllocError> {
    write!(out, ", node {q} by {}/{}:", exit.state, exit.choice)
}

/// Appends the exits of node `q` and their rows.
fn push_exits(quotient: &Quotient<'_>, q: u32, out: &mut String) -> Result<(), AllocError>
    requires { q < length quotient.now.exits }
{
    for (i, exit) in quotient.exits(q).iter().enumerate() {
        push_exit(q, exit, out)?;
        if let Ok(i) = u32::try_from(i) {
            push_row(quotient.row(q, i), out)?;
        }
    }
    Ok(())
}

/// Appends the number of nodes of a quotient, and their exits.
fn push_nodes(quotient: &Quotient<'_>, out: &mut String) -> Result<(), AllocError> {
    push_number(quotient.nodes(), out)?;
    out.push_str(" nodes")?;
    for q in 0..quotient.nodes() {
        push_exits(quotient, q, out)?;
    }
    Ok(())
}

/// Appends the nodes of a model's quotient.
fn pushes_quotient(alloc: Global, model: &Model, ends: &Ends, out: &mut String) -> bool
    requires { AreEndsOf model.now ends.now }
{
    let arena = Bump::new(alloc);
    let Ok(quotient) = Quotient::build(alloc, &arena, model, ends) else {
        return false;
    };
    push_nodes(&quotient, out).is_ok()
}

/// Appends the end components of a model, and the exits of its quotient.
fn pushes_parts(alloc: Global, model: &Model, out: &mut String) -> bool {
    let Ok(ends) = end_components(alloc, model) else {
        return false;
    };
    push_ends(model, &ends, out).is_ok()
        && out.push(',').is_ok()
        && pushes_quotient(alloc, model, &ends, out)
}

/// Whether these are the end components of a model and the exits of its quotient.
fn parts_are(alloc: Global, model: &Model, due: &str) -> bool {
    let mut found = String::new(alloc);
    pushes_parts(alloc, model, &mut found) && found.as_str() == due
}

/// Whether these are the strong components, the end components and the exits of the quotient in the model of a short text.
fn finds(alloc: Global, signs: &str, strong: &[u32], due: &str) -> bool {
    let Some(model) = model_of(alloc, signs) else {
        return false;
    };
    are_strong(alloc, &model, strong) && parts_are(alloc, &model, due)
}

/// Three loops, and a chance to leave the first.
fn leaves_by_chance(alloc: Global) -> bool {
    let due = " 3 ends 0 in out 1 in 2 in, 3 nodes, node 0 by 0/1: 1 1/2 2 1/2";
    finds(
        alloc,
        "3#0| 0:1| 1:1/2 2:1/2;1| 1:1;2| 2:1",
        &[0, 1, 2],
        due,
    )
}

/// Two states that go round, and a way out.
fn goes_round(alloc: Global) -> bool {
    let due = " 2 ends 0 in out 0 in 1 in, 2 nodes, node 0 by 0/1: 1 1/1";
    finds(alloc, "3#0| 1:1| 2:1;1| 0:1;2| 2:1", &[0, 0, 1], due)
}

/// A state that comes back by chance alone is in none.
fn comes_back(alloc: Global) -> bool {
    let signs = "3#0| 1:1/2 2:1/2| 0:1/2 1:1/4 2:1/4;1| 1:1;2| 2:1";
    let due =
        " 2 ends - out out 0 in 1 in, 3 nodes, node 0 by 0/0: 1 1/2 2 1/2, node 0 by 0/1: 0 1/2 1 1/4 2 1/4";
    finds(alloc, signs, &[0, 1, 2], due)
}

/// Two that only a way joins.
fn goes_over(alloc: Global) -> bool {
    let due = " 2 ends 0 in out 1 in, 2 nodes, node 0 by 0/1: 1 1/1";
    finds(alloc, "2#0| 0:1| 1:1;1| 1:1", &[0, 1], due)
}

/// A merged row: both targets are in one node.
fn merges(alloc: Global) -> bool {
    let due = " 1 ends - out 0 in 0 in, 2 nodes, node 0 by 0/0: 1 1/1";
    finds(alloc, "3#0| 1:1/3 2:2/3;1| 2:1;2| 1:1", &[0, 1, 1], due)
}

/// Models of few states, and what is found in them by hand.
#[test]
fn finds_end_components(rt: HostRuntime) {
    let alloc = rt.alloc();
    assert!(rt; leaves_by_chance(alloc) && goes_round(alloc));
    assert!(rt; comes_back(alloc) && goes_over(alloc) && merges(alloc));
}
