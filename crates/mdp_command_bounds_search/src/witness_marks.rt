ghost use Rattle.std.specs.Prelude.{◌≡◌, length, IfOk};
ghost use Rattle.mdp_command_bounds_search.specs.WitnessMarks.{mark_of, marks_of};

use mdp_rows::Marks;
use mdp_subsystem_bounds::Mark;
use std::alloc::{AllocError, Global};

/// The mark of a state that is kept or not, and needed or not.
fn mark_of(is_kept: bool, is_needed: bool) -> Mark
    ensures { result ≡ mark_of is_kept is_needed }
{
    match (is_kept, is_needed) {
        (false, _) => Mark::Out,
        (true, false) => Mark::Open,
        (true, true) => Mark::Kept,
    }
}

/// The mark of each of so many states.
pub(crate) fn marks_of(
    alloc: Global,
    states: u32,
    kept: &Marks,
    needed: &Marks,
) -> Result<Vec<Mark>, AllocError>
    requires kept { length kept.now ≡ states }
    requires needed { length needed.now ≡ states }
    ensures { IfOk result (λ marks. marks.items ≡ marks_of states kept.now needed.now) }
{
    let mut marks = Vec::new(alloc);
    for s in 0..states {
        marks.push(mark_of(kept.at(s), needed.at(s)))?;
    }
    Ok(marks)
}
