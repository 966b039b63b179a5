use mdp_bounds::ReachBoundsCert;
use mdp_num::Frac;

/// How the best probability of the whole model stands to the threshold.
#[derive(Drop)]
pub(crate) enum Standing {
    /// It is at least that, by these bounds.
    Reaches(ReachBoundsCert),
    /// An upper value of the start, which is less.
    Below(Frac),
    /// A lower value of the start, which is less, and an upper one, which isn't.
    Between { lower: Frac, upper: Frac },
}

/// Whether it is known on which side of the threshold it is.
pub(crate) fn is_decided(standing: &Option<Standing>) -> bool {
    match standing {
        Some(Standing::Between { lower: _, upper: _ }) | None => false,
        Some(_) => true,
    }
}
