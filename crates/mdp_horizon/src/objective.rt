use mdp_rows::Marks;

/// What is asked of each policy.
#[derive(Clone, Copy)]
pub enum Objective<'a> {
    /// The probability of coming to a goal by way of states that stay.
    Until(&'a Marks, &'a Marks),
    /// The total reward of the name of this place.
    Total(u32),
}
