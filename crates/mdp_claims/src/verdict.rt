use crate::rule::Rule;

/// A rule that is false, and where: the state and the choice looked at, where the rule has them.
#[derive(Clone, Copy)]
pub struct Fault {
    pub rule: Rule,
    pub state: Option<u32>,
    pub choice: Option<u32>,
}

/// What the rules say of a certificate.
#[derive(Clone, Copy)]
pub enum Verdict {
    /// All rules hold.
    Yes,
    /// The first rule that is false.
    No(Fault),
    /// A written term is past width before any rule is false.
    Wide {
        state: Option<u32>,
        choice: Option<u32>,
    },
}

/// What stands against a certificate: it ends the walk over its rules.
#[derive(Clone, Copy)]
pub enum Objection {
    /// A rule is false.
    Broken(Fault),
    /// A written term is past width.
    PastWidth {
        state: Option<u32>,
        choice: Option<u32>,
    },
}
