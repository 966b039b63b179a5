ghost use Rattle.mdp_parts.specs.Laws.{MaximalShareNone, EachWithinOne, MaximalAreParts, ComponentsAreOne, EndsAreOne, TowardArrives};

/// Two maximal end components share no state. Each end component lies in one of those that `end_components` finds, and they are all maximal
/// ones. What `components` and `end_components` answer is determined by the model. By the choices of `toward` each state of an end component
/// comes to a target with probability 1.
pub fn ends_law()
    ensures apart { MaximalShareNone }
    ensures within { EachWithinOne }
    ensures all { MaximalAreParts }
    ensures one_components { ComponentsAreOne }
    ensures one_ends { EndsAreOne }
    ensures arrives { TowardArrives }
{}
