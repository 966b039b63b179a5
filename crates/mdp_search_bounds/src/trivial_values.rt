ghost use Rattle.std.specs.Prelude.{◌≡◌, ◌<◌, length, IfOk};
ghost use Rattle.mdp_search_bounds.specs.Values.{zero_by, zeros_of};

use mdp_num::Frac;
use mdp_rows::Marks;
use std::alloc::{AllocError, Global};

/// 0 where state `s` is marked, else infinite.
fn zero_by(marks: &Marks, s: u32) -> Option<Frac>
    requires { s < length marks.now }
    ensures { result ≡ zero_by marks.now s }
{
    if marks.at(s) {
        Some(Frac::whole(0))
    } else {
        None
    }
}

/// 0 at each marked state, infinite at the others.
pub(crate) fn zeros_of(
    alloc: Global,
    states: u32,
    marks: &Marks,
) -> Result<Vec<Option<Frac>>, AllocError>
    requires { length marks.now ≡ states }
    ensures { IfOk result (λ values. values.items ≡ zeros_of states marks.now) }
{
    let mut values = Vec::new(alloc);
    for s in 0..states {
        values.push(zero_by(marks, s))?;
    }
    Ok(values)
}
