use crate::unfinished::Unfinished;

/// The part of a computation whose policies are evaluated.
#[derive(Clone, Copy)]
pub enum Part {
    /// All states of the model.
    Whole,
    /// The end component of this number.
    Inner(u32),
    /// The nodes of the quotient.
    Outer,
    /// The greatest expected number of exits from each node.
    Steps,
    /// The values of the parts, put together.
    Join,
    /// The expected visits of a subsystem.
    Flow,
    /// The values of a subsystem.
    Floor,
}

/// What was computed.
#[derive(Clone, Copy)]
pub enum Kind {
    /// The values of a policy.
    Evaluate,
    /// The comparison of a choice with the present value.
    Compare,
    /// The check of a certificate.
    Check,
}

/// Where a term is past width: the part, the round from 0, that round's policy, with one choice per state, what was computed, and the state and
/// choice where there is one.
#[derive(Drop)]
pub struct TooWide {
    pub part: Part,
    pub round: u64,
    pub policy: Vec<u32>,
    pub kind: Kind,
    pub state: Option<u32>,
    pub choice: Option<u32>,
}

/// Why a query isn't solved.
pub type SolveError = Unfinished<TooWide>;
