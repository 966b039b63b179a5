ghost use Rattle.mdp_command_solve.specs.DrillLaws.{IsDueOnce, LineIsGreatest};

use mdp_gen::layered_law;
use mdp_reach::query_law;

/// Laws of `drill`: what is due is one thing, and a line that is due gives the greatest probability of reaching the goal from state 0.
pub fn drill_law()
    ensures once { IsDueOnce }
    ensures greatest { LineIsGreatest }
{
    layered_law();
    query_law();
}
