/// Why words are no job. The first of these whose condition holds is answered.
#[derive(Clone, Copy)]
pub enum WordsError {
    /// There is no word, or the first one is no command.
    Command = 1,
    /// The command has another number of words.
    Number = 2,
    /// The row rule is neither `exact` nor `scaled`.
    Rows = 3,
    /// The direction is neither `max` nor `min`.
    Direction = 4,
    /// `solve` or `bounds` has another objective than `reach`, `reward` and `mean`, or `policy` another than `reach`.
    Objective = 5,
    /// The threshold of `witness` isn't a numeral.
    Threshold = 6,
    /// A number of `drill` isn't in range.
    Drill = 7,
    /// The number of steps of `horizon` isn't 1 to 7 digits.
    Steps = 8,
    /// The factor of `discount` isn't a numeral below 1.
    Factor = 9,
    /// The digits of `bounds` aren't a whole number from 1 to 30, without leading zeros.
    Digits = 10,
    /// A word isn't UTF-8. It is answered before all others.
    Encoding = 11,
}
