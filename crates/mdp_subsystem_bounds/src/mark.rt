ghost use Rattle.std.specs.Prelude.{◌≡◌};
ghost use Rattle.mdp_subsystem_bounds.specs.{Cert.{is_kept}, Entries.{mark_text, mark_parse, same_mark}};

/// What a certificate of bounds of a subsystem says of a state.
#[derive(Clone, Copy)]
pub enum Mark {
    /// It isn't kept.
    Out,
    /// It is kept, and was shown to be needed.
    Kept,
    /// It is kept, and wasn't shown to be needed.
    Open,
}

impl Mark {
    /// Whether a state with this mark is kept.
    pub fn is_kept(self) -> bool
        ensures { result ≡ is_kept self }
    {
        match self {
            Mark::Out => false,
            Mark::Kept | Mark::Open => true,
        }
    }

    /// The word of the mark.
    pub(crate) fn word(self) -> &'static [u8]
        ensures { result.now ≡ mark_text self }
    {
        match self {
            Mark::Out => b"-",
            Mark::Kept => b"kept",
            Mark::Open => b"open",
        }
    }

    /// The mark that a word spells.
    pub(crate) fn of_word(word: &[u8]) -> Option<Mark>
        ensures { result ≡ mark_parse word.now }
    {
        if word == b"-".as_slice() {
            return Some(Mark::Out);
        }
        if word == b"kept".as_slice() {
            return Some(Mark::Kept);
        }
        if word == b"open".as_slice() {
            return Some(Mark::Open);
        }
        None
    }

    /// Whether two marks are the same.
    pub(crate) fn is_same_mark(self, other: Mark) -> bool
        ensures { result ≡ same_mark self other }
    {
        match (self, other) {
            (Mark::Out, Mark::Out) => true,
            (Mark::Kept, Mark::Kept) => true,
            (Mark::Open, Mark::Open) => true,
            _ => false,
        }
    }
}
