ghost use Rattle.std.specs.Prelude.{◌≡◌, ◌<◌, length, slice_index_or};
ghost use Rattle.mdp_horizon.specs.{Scaled.{no_term}, BoundsCode.{plain_terms}};

use crate::choice::{Term, Terms};

impl Terms<'_> {
    /// How many there are.
    pub(crate) fn len(self) -> usize
        ensures { result ≡ length (plain_terms self.entry) }
    {
        match self {
            Terms::Short(short) => short.terms.len(),
            Terms::Wide(terms) => terms.len(),
        }
    }

    /// The one at place `i`.
    pub(crate) fn at(self, i: usize) -> Term
        requires { i < length (plain_terms self) }
        ensures { result ≡ slice_index_or (plain_terms self.entry) i no_term }
    {
        match self {
            Terms::Short(short) => Term {
                target: short.terms[i].target,
                weight: i128::from(short.terms[i].weight),
            },
            Terms::Wide(terms) => terms[i],
        }
    }
}
