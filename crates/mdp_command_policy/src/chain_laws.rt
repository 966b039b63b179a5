ghost use Rattle.mdp_command_policy.specs.ChainLaws.{IsDueOnce, SomethingIsDue, TextIsChain};

use mdp_drn::written_law;
use mdp_policy::chain_law;

/// Laws of `chain`: exactly one thing is due to each model and to whatever the second file holds, and a text that is due reads as the chain of the
/// policy that it names, each tree of which has what the policy's own tree has.
pub fn command_chain_law()
    ensures once { IsDueOnce }
    ensures some { SomethingIsDue }
    ensures text { TextIsChain }
{
    chain_law();
    written_law();
}
