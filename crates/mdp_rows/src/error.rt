/// Why a builder refuses. States and choices are numbered from 0; a choice is numbered within its state.
#[derive(Clone, Copy)]
pub enum RowsError {
    /// The row's values don't add to 1, or under `Scaled` differ from 1 by more than 1/1000.
    RowSum { state: u32, choice: u32 },
    /// The least common denominator of the row's values is above 10^36, or under `Scaled` that of the values divided by their sum.
    RowWide { state: u32, choice: u32 },
    /// The open row has an entry to this target already.
    Twice,
    /// The state has no choice.
    NoChoice { state: u32 },
    /// Past a limit: 64 calls of `label` for one state, 1,024 labels, 2^22 choices, 2^24 entries.
    TooMany,
    /// The target isn't below the number of states.
    Target,
    /// The sum of a state's and a choice's reward has a written term past width, or a lowest term of magnitude above 10^36.
    Large,
    /// Another number of states than announced.
    Count,
    /// Memory was refused.
    Memory,
}
