ghost use Rattle.std.specs.{Prelude.{map, slice_index}, List.{range_with_len}};
ghost use Rattle.mdp_spec.specs.{Mdp.{states_of, row_at}, Tree.{IsPolicy}};

use crate::model::Model;
use crate::row::Row;
use crate::rows_of::RowsOf;

/// The rows of a policy's choices: one choice per state, each in range.
#[derive(Clone, Copy)]
pub struct PolicyRows<'a> {
    pub model: &'a Model,
    pub policy: &'a [u32],
    ghost chosen: { IsPolicy model.now policy.now },
}

impl RowsOf for PolicyRows<'_> {
    ghost rows = { λ p. map (λ s. row_at p.model.now s (slice_index p.policy.now s)) (range_with_len 0 (states_of p.model.now)) };

    fn known(&self) {
        self.model.known();
    }

    fn count(&self) -> u32 {
        self.model.states()
    }

    fn row(&self, s: u32) -> Row<'_> {
        self.model.row(s, self.policy[s as usize])
    }
}
