use mdp_num::Frac;
use mdp_rows::Dir;

/// What the line of a claim says, with the names lent from the text.
#[derive(Drop)]
pub(crate) enum ClaimWords<'a> {
    /// A bound on the probability of this label.
    Upper(&'a [u8]),
    /// The probability of this label.
    Reach(Dir, &'a [u8]),
    /// The probability of the second label by way of states with the first one.
    Until(Dir, &'a [u8], &'a [u8]),
    /// The reward of this name up to this label.
    Reward(Dir, &'a [u8], &'a [u8]),
    /// The mean payoff of the reward of this name.
    Mean(Dir, &'a [u8]),
    /// A subsystem for the second label and this threshold, by way of states with the first one where there is one.
    Witness(Dir, Option<&'a [u8]>, &'a [u8], Frac),
}
