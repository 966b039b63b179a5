use mdp_num::Frac;
use mdp_rows::Dir;

/// What a certificate says of a model. A label and the name of a reward model are names: 1 to 255 bytes without `"` and line feed. A threshold is
/// at least 0.
#[derive(Drop)]
pub enum Claim {
    /// The values bound the probability of reaching the label from above, under each policy.
    Upper {
        label: Vec<u8>,
    },
    /// The values are the greatest or the least probabilities of reaching the label.
    Reach {
        dir: Dir,
        label: Vec<u8>,
    },
    /// The values are the greatest or the least probabilities of reaching the label by way of states with the label `stay` alone.
    Until {
        dir: Dir,
        stay: Vec<u8>,
        label: Vec<u8>,
    },
    /// The values are the greatest or the least expected rewards of the reward model `name` until the label.
    Reward {
        dir: Dir,
        name: Vec<u8>,
        label: Vec<u8>,
    },
    /// The gains are the greatest or the least mean payoffs of the reward model `name`.
    Mean {
        dir: Dir,
        name: Vec<u8>,
    },
    /// On the kept states alone the greatest, or the least, probability of reaching the label from the initial state is at least the threshold, by
    /// way of states with the label `stay` alone where there is one.
    Witness {
        dir: Dir,
        stay: Option<Vec<u8>>,
        label: Vec<u8>,
        threshold: Frac,
    },
}
