use mdp_num::Frac;

/// A part of a line.
#[derive(Clone, Copy)]
pub enum Part<'a> {
    /// These bytes.
    Bytes(&'a [u8]),
    /// A whole number, in decimal.
    Whole(u64),
    /// A fraction.
    Fraction(Frac),
}
