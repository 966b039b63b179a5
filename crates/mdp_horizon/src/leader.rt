ghost use Rattle.std.specs.Prelude.{◌≡◌};
ghost use Rattle.mdp_horizon.specs.BoundsCode.{plain_leader};

/// The best sum of a state's choices so far, and the choice that has it.
#[derive(Clone, Copy)]
pub struct Leader {
    pub(crate) value: Option<i128>,
    pub(crate) choice: u32,
}

/// The same with a sum of 64 bits.
#[derive(Clone, Copy)]
pub(crate) struct ShortLeader {
    pub value: i64,
    pub choice: u32,
}

impl ShortLeader {
    /// The leader with its sum as a wider one.
    pub(crate) fn widened(self) -> Leader
        ensures { result ≡ plain_leader self }
    {
        Leader {
            value: Some(i128::from(self.value)),
            choice: self.choice,
        }
    }
}
