ghost use Rattle.std.specs.Prelude.{◌≡◌, ◌<◌, length, IfOk};
ghost use Rattle.mdp_spec.specs.Mdp.{states_of};

use mdp_drn::{read, write};
use mdp_num::Memory;
use mdp_rows::{Marks, Model, RowRule};
use std::alloc::Global;

fn marks_second(alloc: Global) -> bool {
    let Ok(mut marks) = Marks::empty(alloc, 2) else {
        return false;
    };
    marks.set(1, true);
    !marks.at(0) && marks.at(1)
}

#[test]
fn marks_states(rt: HostRuntime) {
    assert!(rt; marks_second(rt.alloc()));
}

/// State 0 has two choices, and state 2 leads to the goal.
const PAID: &str =
    "@type: MDP\n@reward_models\ncost\n@nr_states\n3\n@model\nstate 0 [1] init\naction\n1 : 1/2\n2 : 1/2\naction [2]\n0 : 1\nstate 1 goal\naction [3]\n0 : 1\nstate 2\naction [4]\n1 : 1\n";

/// Where no state is kept and 1 is the goal, the others stay for ever and earn nothing.
const NONE_KEPT: &str =
    "@type: MDP\n@parameters\n\n@reward_models\ncost\n@nr_states\n3\n@nr_choices\n3\n@model\nstate 0 [0] \"init\"\n\taction 0 [0]\n\t\t0 : 1\nstate 1 [0] \"goal\"\n\taction 0 [3]\n\t\t0 : 1\nstate 2 [0]\n\taction 0 [0]\n\t\t2 : 1\n";

/// Where state 0 is kept, it is as it was.
const FIRST_KEPT: &str =
    "@type: MDP\n@parameters\n\n@reward_models\ncost\n@nr_states\n3\n@nr_choices\n4\n@model\nstate 0 [0] \"init\"\n\taction 0 [1]\n\t\t1 : 1/2\n\t\t2 : 1/2\n\taction 1 [3]\n\t\t0 : 1\nstate 1 [0] \"goal\"\n\taction 0 [3]\n\t\t0 : 1\nstate 2 [0]\n\taction 0 [0]\n\t\t2 : 1\n";

/// One of three states is marked, or none.
fn of_three(alloc: Global, s: u32, is_marked: bool) -> Result<Marks, Memory>
    requires { s < 3 }
    ensures { IfOk result (λ marks. length marks ≡ 3) }
{
    let mut marks = Marks::empty(alloc, 3)?;
    marks.set(s, is_marked);
    Ok(marks)
}

/// The model with state 0 kept, or none, and the goal 1.
fn cut(alloc: Global, model: &Model, is_kept: bool) -> Result<Model, Memory>
    requires { states_of model.now ≡ 3 }
{
    let kept = of_three(alloc, 0, is_kept)?;
    let goals = of_three(alloc, 1, true)?;
    model.cut(alloc, &kept, &goals)
}

/// Whether that is written as this text.
fn cut_is(alloc: Global, model: &Model, is_kept: bool, text: &str) -> bool
    requires { states_of model.now ≡ 3 }
{
    let Ok(cut) = cut(alloc, model, is_kept) else {
        return false;
    };
    let mut written = Vec::new(alloc);
    write(&cut, &mut written).is_ok() && written.as_slice() == text.as_bytes()
}

fn paid_is_cut(alloc: Global) -> bool {
    let Ok(model) = read(alloc, PAID.as_bytes(), RowRule::Exact) else {
        return false;
    };
    model.states() == 3
        && cut_is(alloc, &model, false, NONE_KEPT)
        && cut_is(alloc, &model, true, FIRST_KEPT)
}

/// A state that is neither kept nor a goal has one choice, a loop without reward.
#[test]
fn cuts_states(rt: HostRuntime) {
    assert!(rt; paid_is_cut(rt.alloc()));
}
