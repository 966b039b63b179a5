ghost use Rattle.std.specs.Prelude.{◌≡◌, ◌<◌, ◌==◌, ◌++◌, List, length, slice_index_or, OnOk};
ghost use Rattle.mdp_text.specs.{Answer.{Keeps}, Words.{words}};
ghost use Rattle.mdp_cert.specs.{Runs.{Columns}, Spelling.{entry_text}};

use mdp_num::Memory;

/// What the words behind a state's number say. A claim with a line for each state gives one: how many words there are, how they are read and
/// how they are spelled.
pub trait Entry: Copy + Drop {
    ghost columns: { Columns Self };

    /// Whether so many words stand behind the numbers of states.
    fn has_width(count: usize) -> bool
        ensures width { result ≡ (count == columns.width) }
        ensures some { 0 < columns.width };

    /// What these words say, where each is the number due.
    fn read(text: &[u8]) -> Option<Self>
        requires { length (words text.now) ≡ columns.width }
        ensures { result ≡ columns.parse (words text.now) };

    /// Appends the words, with a blank between each two.
    fn push_words(&self, out: &mut Vec<u8>) -> Result<(), Memory>
        ensures text { OnOk result (out.new.items ≡ out.old.items ++ entry_text columns self.now) }
        ensures some { 0 < length (columns.words self.now) }
        ensures front { Keeps out.old.items out.new.items };

    /// Whether two states say the same.
    fn is_same(&self, other: &Self) -> bool
        ensures { result ≡ columns.same self.now other.now };
}

/// The lists in which the body of a claim keeps the entries of its states.
pub trait Lists {
    type Item: Entry;

    ghost entries: { Self → List Self.Item };

    /// The entry of a state.
    fn entry(&self, state: u32) -> Self::Item
        requires { state < length (entries self.now) }
        ensures { result ≡ slice_index_or (entries self.now) state result };
}
