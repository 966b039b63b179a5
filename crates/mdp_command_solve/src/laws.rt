ghost use Rattle.mdp_command_solve.specs.Laws.{IsDueOnce, TextIsAccepted, TextIsAnswer, UntilTextIsAnswer, RewardTextIsAnswer, MeanTextIsAnswer};

/// Laws of `solve`: what is due to a query is one thing, and a text that is due spells an answer: it meets the rules of certificates, and its values
/// are the greatest, or the least, probabilities of reaching a state with the label, also by way of states with another label alone, rewards of the
/// name until such a state, or mean payoffs of the name, to within the spread. What is printed is accepted by `check`.
pub fn solve_law()
    ensures once { IsDueOnce }
    ensures accepted { TextIsAccepted }
    ensures answer { TextIsAnswer }
    ensures until { UntilTextIsAnswer }
    ensures reward { RewardTextIsAnswer }
    ensures mean { MeanTextIsAnswer }
{
    mdp_reach::query_law();
    mdp_reward::query_law();
    mdp_mean::mean_law();
}
