ghost use Rattle.std.specs.Prelude.{◌≡◌};
ghost use Rattle.mdp_farkas.specs.Initial.{init_fault, is_value, state_check};

use mdp_claims::{Fault, Rule, Verdict};
use mdp_num::Frac;

/// That rule 1 is false, with the state of the line `init`, where it has one.
pub fn init_denied(state: Option<u32>) -> Verdict
    ensures { result ≡ init_fault state }
{
    Verdict::No(Fault {
        rule: Rule::InitialState,
        state,
        choice: None,
    })
}

/// Whether there is a value of state `s`, and it is this one.
pub fn is_value(values: &[Frac], s: u32, value: &Frac) -> bool
    ensures { result ≡ is_value values.now s value.now }
{
    match values.get(s as usize) {
        Some(found) => found == value,
        None => false,
    }
}

/// Rule 1 for a line that names a state: it is the model's one initial state, and its value is the one of its line.
pub fn state_verdict(state: u32, initial: Option<u32>, has_value: bool) -> Verdict
    ensures { result ≡ state_check state initial has_value }
{
    match initial {
        Some(initial) if state == initial && has_value => Verdict::Yes,
        _ => init_denied(Some(state)),
    }
}
