ghost use Rattle.mdp_drn.specs.Writing.{ReadsBack};

/// The text of a model reads as that model.
pub fn written_law()
    ensures reads_back { ReadsBack }
{}
