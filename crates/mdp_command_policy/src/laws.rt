ghost use Rattle.mdp_command_policy.specs.Laws.{IsDueOnce, TextIsValue};

use mdp_elim::solution_law;
use mdp_graph::along_law;
use mdp_policy::policy_text_law;

/// Laws of `policy`: one thing is due, and a text that is due spells the probabilities with which the policy reaches a goal; where it names no
/// change that raises one these are the greatest, and each change that it names is better.
pub fn policy_law()
    ensures once { IsDueOnce }
    ensures value { TextIsValue }
{
    along_law();
    solution_law();
    policy_text_law();
}
