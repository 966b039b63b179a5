ghost use Rattle.mdp_quot.specs.Quotient.{IsChosen, chosen_rows};

use crate::quotient::Quotient;
use mdp_rows::{Row, RowsOf};

/// The rows of one exit of each node: `exits` has for each node the number of one of its exits, or 0 where the node has none. A node without exits
/// stays: its row is a loop of probability 1.
#[derive(Clone, Copy)]
pub struct ExitRows<'a, 'b> {
    pub quotient: &'a Quotient<'b>,
    pub exits: &'a [u32],
    ghost chosen: { IsChosen quotient.now exits.now },
}

impl RowsOf for ExitRows<'_, '_> {
    ghost rows = { λ r. chosen_rows r.quotient.now r.exits.now };

    fn known(&self) {
        self.quotient.known();
    }

    fn count(&self) -> u32 {
        self.quotient.known();
        self.quotient.nodes()
    }

    fn row(&self, s: u32) -> Row<'_> {
        self.quotient.known();
        self.quotient.node_row(s, self.exits[s as usize])
    }
}
