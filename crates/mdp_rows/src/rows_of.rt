ghost use Rattle.std.specs.{Prelude.{◌≡◌, ◌<◌, List, [], length, slice_index_or}, List.{All}};
ghost use Rattle.mdp_spec.specs.{Mdp.{Entry}, Row.{entries, AreRows}};

use crate::row::Row;

/// One row per state.
pub trait RowsOf {
    // The rows, in the order of the states.
    ghost rows: { Self → List (List Entry) };

    /// What the rows keep: each is a distribution over their states.
    fn known(&self)
        ensures { AreRows (rows self.now) };

    /// How many states there are.
    fn count(&self) -> u32
        ensures { result ≡ length (rows self.now) };

    /// The row of state `s`.
    fn row(&self, s: u32) -> Row<'_>
        requires { s < length (rows self.now) }
        ensures row { entries result.targets.now result.probs.now ≡ slice_index_or (rows self.now) s [] }
        ensures in_range { All (λ t. t < length (rows self.now)) result.targets.now };
}
