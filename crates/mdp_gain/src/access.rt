ghost use Rattle.std.specs.Prelude.{◌≡◌, ◌<◌, length, All};
ghost use Rattle.mdp_spec.specs.Row.{entries};
ghost use Rattle.mdp_unichain.specs.Component.{count, choices_at, choice_at, is_state};
ghost use Rattle.mdp_gain.specs.Code.{component_in};

use crate::component::EndComponent;
use mdp_num::Frac;
use mdp_rows::Row;

impl EndComponent<'_> {
    /// How many states the model has.
    pub(crate) fn count(&self) -> u32
        ensures { result ≡ count (component_in self.now) }
    {
        self.model.states()
    }

    /// Whether state `s` is one of the component.
    pub(crate) fn holds(&self, s: u32) -> bool
        requires state { s < count (component_in self.now) }
        ensures { result ≡ is_state (component_in self.now) s }
    {
        self.ends.of(s) == Some(self.number)
    }

    /// How many choices state `s` has.
    pub(crate) fn choices(&self, s: u32) -> u32
        requires state { s < count (component_in self.now) }
        ensures { result ≡ length (choices_at (component_in self.now) s) }
    {
        self.model.choices(s)
    }

    /// Whether choice `c` of state `s` is one of the component.
    pub(crate) fn is_inner(&self, s: u32, c: u32) -> bool
        requires state { s < count (component_in self.now) }
        requires choice { c < length (choices_at (component_in self.now) s) }
        ensures { result ≡ (choice_at (component_in self.now) s c).inner }
    {
        self.holds(s) && self.ends.inside(s, c)
    }

    /// What choice `c` of state `s` earns.
    pub(crate) fn reward(&self, s: u32, c: u32) -> Frac
        requires state { s < count (component_in self.now) }
        requires choice { c < length (choices_at (component_in self.now) s) }
        ensures { result ≡ (choice_at (component_in self.now) s c).reward }
    {
        self.model.reward(self.name, s, c)
    }

    /// The row of choice `c` of state `s`.
    pub(crate) fn row(&self, s: u32, c: u32) -> Row<'_>
        requires state { s < count (component_in self.now) }
        requires choice { c < length (choices_at (component_in self.now) s) }
        ensures row { entries result.targets.now result.probs.now ≡ (choice_at (component_in self.now) s c).row }
        ensures in_range { All (λ t. t < count (component_in self.now)) result.targets.now }
    {
        self.model.row(s, c)
    }
}
