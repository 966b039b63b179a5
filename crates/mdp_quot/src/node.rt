use mdp_rows::{Pred, Row};

/// A node of a quotient: its end component, if it is one; its exits, and their rows over nodes. A node without exits has one row, its loop.
#[derive(Clone, Copy)]
pub(crate) struct Node<'b> {
    pub(crate) component: Option<u32>,
    pub(crate) exits: &'b [Pred],
    pub(crate) rows: &'b [Row<'b>],
}
