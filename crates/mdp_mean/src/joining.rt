ghost use Rattle.std.specs.Prelude.{ℕ, [], ◌≡◌, ◌<◌, length, slice_index_or};
ghost use Rattle.mdp_ends.specs.Ends.{is_inside};
ghost use Rattle.mdp_spec.specs.{Mdp.{states_of, choices_at}, Tree.{IsPolicy}};
ghost use Rattle.mdp_parts.specs.FoundEnds.{inner_at};

use mdp_num::Frac;
use mdp_parts::Ends;
use mdp_rows::{Dir, Marks, Model};

/// What is joined: a policy of all states, the active ones, which are those whose node takes an exit, and for each state the gain of its node,
/// the greatest expected number of exits from its node, and the bias in its end component, 0 where it is in none.
#[derive(Clone, Copy)]
pub(crate) struct Joining<'a> {
    pub(crate) dir: Dir,
    pub(crate) model: &'a Model,
    pub(crate) name: u32,
    pub(crate) ends: &'a Ends,
    pub(crate) policy: &'a [u32],
    pub(crate) active: &'a Marks,
    pub(crate) gains: &'a [Frac],
    pub(crate) steps: &'a [Frac],
    pub(crate) inner: &'a [Frac],
    ghost named: { name < length model.now.names },
    ghost found: { length ends.now.inner ≡ states_of model.now },
    ghost width: { (s : ℕ) → s < states_of model.now → length (slice_index_or ends.now.inner s []) ≡ length (choices_at model.now s) },
    ghost inside: { (s c : ℕ) → s < states_of model.now → c < length (choices_at model.now s) → inner_at ends.now s c ≡ is_inside model.now ends.now.parts s c },
    ghost chosen: { IsPolicy model.now policy.now },
    ghost marks: { length active.now ≡ states_of model.now },
    ghost gain_each: { length gains.now ≡ states_of model.now },
    ghost steps_each: { length steps.now ≡ states_of model.now },
    ghost bias_each: { length inner.now ≡ states_of model.now },
}
