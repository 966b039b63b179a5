ghost use Rattle.std.specs.Prelude.{◌≡◌, ◌<◌, All, IfOk};
ghost use Rattle.mdp_subsystem_rules.specs.Kept.{kept_marks};

use mdp_num::Memory;
use mdp_rows::Marks;
use std::alloc::Global;

/// A mark for each of so many states: whether the state is kept.
pub(crate) fn kept_marks_of(alloc: Global, states: u32, kept: &[u32]) -> Result<Marks, Memory>
    requires { All (λ s. s < states) kept.now }
    ensures { IfOk result (λ marks. marks ≡ kept_marks states kept.now) }
{
    let mut marks = Marks::empty(alloc, states)?;
    for s in kept {
        marks.set(*s, true);
    }
    Ok(marks)
}
