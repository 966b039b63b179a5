ghost use Rattle.std.specs.Prelude.{◌≡◌, ◌<◌, length};
ghost use Rattle.mdp_spec.specs.Mdp.{states_of};

use mdp_num::Frac;
use mdp_rows::{Dir, Marks, Model};

/// What is asked: whether the best probability of reaching a goal from the start is at least the threshold.
#[derive(Clone, Copy)]
pub(crate) struct Query<'m, 'g> {
    pub model: &'m Model,
    /// Whether each state is a goal.
    pub goals: &'g Marks,
    pub start: u32,
    /// Whether the greatest or the least probability is asked for.
    pub dir: Dir,
    pub threshold: Frac,
    ghost goals_each: { length goals.now ≡ states_of model.now },
    ghost starts: { start < states_of model.now },
}
