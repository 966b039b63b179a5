/// The version of a certificate's text, which its first line names.
#[derive(Clone, Copy)]
pub enum Version {
    /// `mdp-certificate 1`: a line for each state.
    One,
    /// `mdp-certificate 2`: a line for each longest run of states with the same words.
    Two,
}
