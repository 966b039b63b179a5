ghost use Rattle.std.specs.Prelude.{◌≡◌, ◌<◌, length, false, slice_set};
ghost use Rattle.mdp_math.specs.Written.{written_compare};
ghost use Rattle.mdp_witness.specs.Trial.{trial_by, stays, is_wide};

use mdp_num::Frac;
use mdp_rows::Marks;
use std::cmp::Ordering;

/// What a trial says of its state.
#[derive(Clone, Copy)]
pub enum Trial {
    /// Without the state the value is still at least the threshold.
    Goes,
    /// Without it the value is below the threshold.
    Needed,
    /// A term is past width.
    PastWidth,
}

impl Trial {
    /// By the value of the set without the state.
    pub(crate) fn of(value: &Frac, threshold: &Frac) -> Trial
        ensures { result ≡ trial_by (written_compare value.now threshold.now) }
    {
        match value.compare(threshold) {
            Ok(Ordering::Less) => Trial::Needed,
            Ok(_) => Trial::Goes,
            Err(_) => Trial::PastWidth,
        }
    }

    /// Whether the state stays.
    fn stays(self) -> bool
        ensures { result ≡ stays self }
    {
        match self {
            Trial::Goes => false,
            Trial::Needed | Trial::PastWidth => true,
        }
    }

    /// Whether the state is marked as wide.
    fn is_wide(self) -> bool
        ensures { result ≡ is_wide self }
    {
        match self {
            Trial::Goes | Trial::Needed => false,
            Trial::PastWidth => true,
        }
    }

    /// Marks state `s` by its trial.
    pub(crate) fn mark(self, s: u32, kept: &mut Marks, wide: &mut Marks)
        requires kept { s < length kept.old }
        requires wide { s < length wide.old }
        ensures kept { kept.new ≡ slice_set kept.old s (stays self) }
        ensures wide { wide.new ≡ slice_set wide.old s (is_wide self) }
    {
        kept.set(s, self.stays());
        wide.set(s, self.is_wide());
    }
}
