ghost use Rattle.std.specs.Prelude.{◌≡◌, ◌<◌, [], length, slice_index_or};
ghost use Rattle.mdp_graph.specs.Sets.{marked};
ghost use Rattle.mdp_ends.specs.Ends.{part_of, count_of};

use crate::allowed::Allowed;

/// The maximal end components of a model, numbered by their least states, and which choices are inside one.
#[derive(Drop)]
pub struct Ends {
    parts: Vec<Option<u32>>,
    inner: Allowed,
    count: u32,
}

impl std::marker::Model for Ends {
    ghost use Rattle.std.specs.Prelude.{◌≡◌};
    ghost use Rattle.mdp_ends.specs.Ends.{count_of};
    ghost use Rattle.mdp_parts.specs.FoundEnds.{FoundEnds};

    ghost Value = { FoundEnds };

    ghost view = { λ e. record { parts = e.parts.items; inner = e.inner } };

    ghost invariant = { λ e. e.count ≡ count_of e.parts.items };
}

impl Ends {
    /// What was found, with the number of end components.
    pub(crate) fn from_parts(parts: Vec<Option<u32>>, inner: Allowed, count: u32) -> Ends
        requires { count ≡ count_of parts.items }
        ensures { result ≡ record { parts = parts.items; inner = inner } }
    {
        Ends {
            parts,
            inner,
            count,
        }
    }

    /// Which choices are inside.
    pub(crate) fn choices(&self) -> &Allowed
        ensures { result.now ≡ self.now.inner }
    {
        &self.inner
    }

    /// How many maximal end components there are.
    pub fn count(&self) -> u32
        ensures { result ≡ count_of self.now.parts }
    {
        self.count
    }

    /// The number of the end component that holds state `s`; none where the state is in none.
    pub fn of(&self, s: u32) -> Option<u32>
        requires { s < length self.now.parts }
        ensures { result ≡ part_of self.now.parts s }
    {
        self.parts[s as usize]
    }

    /// Whether choice `c` of state `s` is inside: the state is in an end component, and so are all targets, in the same one.
    pub fn inside(&self, s: u32, c: u32) -> bool
        requires state { s < length self.now.inner }
        requires choice { c < length (slice_index_or self.now.inner s []) }
        ensures { result ≡ marked (slice_index_or self.now.inner s []) c }
    {
        self.inner.at(s, c)
    }
}
