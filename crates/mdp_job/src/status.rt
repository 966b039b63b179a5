ghost use Rattle.std.specs.Prelude.{◌≡◌};
ghost use Rattle.mdp_job.specs.Status.{code_of};

/// How a run ended. Its number is the exit status of the program.
#[derive(Clone, Copy)]
pub enum Status {
    /// The work was done.
    Done,
    /// A rule of the certificate is false.
    Denied,
    /// The words are no job.
    Words,
    /// The model's text was refused.
    Model,
    /// The certificate or the policy doesn't belong to the model, or a reward name or a label isn't in it, or it hasn't exactly one initial state, or
    /// a reward until a goal is below 0, or there are too many steps.
    Query,
    /// A written term of the check is past width.
    TooWide,
    /// A source failed.
    ReadFault,
    /// The sink failed.
    WriteFault,
    /// Memory was refused.
    Memory,
    /// The text of the certificate or of the policy was refused.
    CertText,
    /// A source gave more bytes than the limit.
    Long,
    /// The best probability is below the threshold.
    Below,
    /// The threshold lies between a lower and an upper value of the best probability.
    Undecided,
}

impl Status {
    /// The status's number.
    pub fn code(&self) -> u8
        ensures { result ≡ code_of self.now }
    {
        match self {
            Status::Done => 0,
            Status::Denied => 1,
            Status::Words => 2,
            Status::Model => 3,
            Status::Query => 4,
            Status::TooWide => 5,
            Status::ReadFault => 6,
            Status::WriteFault => 7,
            Status::Memory => 8,
            Status::CertText => 9,
            Status::Long => 10,
            Status::Below => 11,
            Status::Undecided => 12,
        }
    }
}
