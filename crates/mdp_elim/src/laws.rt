ghost use Rattle.mdp_elim.specs.Laws.{HasOneSolution, HasPositivePivots, GivesSolutions, HasOneVisits, HasPositivePivotsTransposed, GivesVisits};

/// On a chain that leaves its active states the system of each column has exactly one solution. Elimination divides by numbers above 0 alone, and
/// where no term is past width it gives the solution.
pub fn solution_law()
    ensures one_solution { HasOneSolution }
    ensures pivots { HasPositivePivots }
    ensures solves { GivesSolutions }
{}

/// The same of the expected visits of the active states.
pub fn visits_law()
    ensures one_solution { HasOneVisits }
    ensures pivots { HasPositivePivotsTransposed }
    ensures solves { GivesVisits }
{}
