ghost use Rattle.mdp_rows.specs.Replay.{IsReplayed};

/// A model that is handed to a builder, state by state, comes out as it is.
pub fn replay_law()
    ensures { IsReplayed }
{}
