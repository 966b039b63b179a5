ghost use Rattle.mdp_gen.specs.Laws.{TextReads, TextIsShort, IsModelLayered, HasRows, HasStates, HasChoices};

use mdp_drn::written_law;

/// What the text of a layered model is: it is short and reads as that model, which has two choices at each state of a layer and distributions as
/// rows.
pub fn layered_law()
    ensures reads { TextReads }
    ensures short { TextIsShort }
    ensures model { IsModelLayered }
    ensures rows { HasRows }
    ensures states { HasStates }
    ensures choices { HasChoices }
{
    written_law();
}
