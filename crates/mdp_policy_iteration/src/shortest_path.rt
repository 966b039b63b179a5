ghost use Rattle.std.specs.{Prelude.{◌≡◌, ◌<◌, true, length}, List.{All}, Result.{result_ok}};
ghost use Rattle.mdp_spec.specs.Row.{entries};
ghost use Rattle.mdp_policy_iteration.specs.Problem.{Problem, IsProblem, count, node_at, choices_at, choice_at, goes_on, amount, row_from};
ghost use Rattle.mdp_policy_iteration.specs.{Code.{CanTake, move_at, fits_at}, Reads.{Reads}};

use mdp_num::{Frac, Wide};
use mdp_rows::{Dir, Row};

/// A stochastic shortest path problem (Bertsekas and Tsitsiklis 1991): nodes numbered from 0, each with a value that is given, or with choices
/// numbered from 0. A choice stops with a value, or earns an amount and goes on by a row.
pub trait ShortestPath {
    // The problem, as contracts see it.
    ghost problem: { Self → Problem };

    /// What each problem keeps: its rows are distributions over its nodes, and what a choice is worth by written arithmetic it is worth exactly.
    fn known(&self)
        ensures { IsProblem (problem self.now) };

    /// Whether the greatest or the least values are meant.
    fn dir(&self) -> Dir
        ensures { result ≡ (problem self.now).dir };

    /// How many nodes there are.
    fn count(&self) -> u32
        ensures { result ≡ count (problem self.now) };

    /// How many choices node `s` has: none where its value is given.
    fn choices(&self, s: u32) -> u32
        requires { s < count (problem self.now) }
        ensures { result ≡ length (choices_at (problem self.now) s) };

    /// Whether a policy may take choice `c` of node `s`.
    fn is_candidate(&self, s: u32, c: u32) -> bool
        requires node { s < count (problem self.now) }
        requires choice { c < length (choices_at (problem self.now) s) }
        ensures { result ≡ (choice_at (problem self.now) s c).candidate };

    /// What choice `c` of node `s` is worth under values, one for each node; `Wide` where a written term is past width.
    fn worth(&self, s: u32, c: u32, values: &[Frac]) -> Result<Frac, Wide>
        requires node { s < count (problem self.now) }
        requires choice { c < length (choices_at (problem self.now) s) }
        requires values { length values.now ≡ count (problem self.now) }
        ensures { result_ok result ≡ (choice_at (problem self.now) s c).written values.now };

    /// The nodes that choice `c` of node `s` leads to, and on whose values its worth depends. Nodes whose value is given may be missing.
    fn reads(&self, s: u32, c: u32) -> &[u32]
        requires node { s < count (problem self.now) }
        requires choice { c < length (choices_at (problem self.now) s) }
        ensures { Reads (problem self.now) s c result.now };

    /// Whether choice `c` goes on from node `s`. A node whose value is given doesn't.
    fn goes_on(&self, s: u32, c: u32) -> bool
        requires node { s < count (problem self.now) }
        requires choice { CanTake (node_at (problem self.now) s) c }
        ensures { result ≡ goes_on (move_at (problem self.now) s c) };

    /// What the choice earns, or the value with which it stops.
    fn amount(&self, s: u32, c: u32) -> Frac
        requires node { s < count (problem self.now) }
        requires choice { CanTake (node_at (problem self.now) s) c }
        ensures { result ≡ amount (move_at (problem self.now) s c) };

    /// Whether the terms of the choice's row are in width.
    fn fits(&self, s: u32, c: u32) -> bool
        requires node { s < count (problem self.now) }
        requires choice { CanTake (node_at (problem self.now) s) c }
        ensures { result ≡ fits_at (problem self.now) s c };

    /// The row of a choice that goes on, where its terms are in width.
    fn row(&self, s: u32, c: u32) -> Row<'_>
        requires node { s < count (problem self.now) }
        requires choice { CanTake (node_at (problem self.now) s) c }
        requires goes_on { goes_on (move_at (problem self.now) s c) ≡ true }
        requires fits { fits_at (problem self.now) s c ≡ true }
        ensures row { entries result.targets.now result.probs.now ≡ row_from s (move_at (problem self.now) s c) }
        ensures in_range { All (λ t. t < count (problem self.now)) result.targets.now };
}
