ghost use Rattle.mdp_quot.specs.Laws.{ExitRowsAreSelected, EverySelectionLeaves};

/// The exits of a quotient's nodes and their rows are those of its model, and the rows of a selection of exits are those of the selected exits: a node
/// without exits stays.
pub fn exit_rows_law()
    ensures { ExitRowsAreSelected }
{}

/// Every selection of exits leaves: no end component lies among the nodes that have exits, so from each node a node without exits is reached by the
/// selected rows.
pub fn selection_law()
    ensures { EverySelectionLeaves }
{}
