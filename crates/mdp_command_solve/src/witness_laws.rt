ghost use Rattle.mdp_command_solve.specs.WitnessLaws.{IsDueOnce, TextIsAccepted, TextIsWitness, BelowIsBest};

use mdp_witness::witness_law;

/// Laws of `witness`: what is due is one thing. A text that is due spells a subsystem whose rules hold, on which some policy, or each, reaches the
/// threshold, from which no kept state that isn't marked as wide can go, and whose marks are exact. A value that is due as one below the threshold is
/// the best probability. What is printed is accepted by `check`.
pub fn witness_step_law()
    ensures once { IsDueOnce }
    ensures accepted { TextIsAccepted }
    ensures witness { TextIsWitness }
    ensures below { BelowIsBest }
{
    witness_law();
}
