//! The limits of a model's numbers.

/// The greatest common denominator of a row, and the greatest magnitude of a term of a summed reward: 10^36.
pub const MAX_TERM: u128 = 1_000_000_000_000_000_000_000_000_000_000_000_000;

/// The most states, 2^20.
pub const MAX_STATES: u32 = 1_048_576;

/// The most choices, 2^22.
pub const MAX_CHOICES: u32 = 4_194_304;

/// The most entries, 2^24, those of value 0 among them.
pub const MAX_ENTRIES: u32 = 16_777_216;

/// The most label names.
pub const MAX_LABELS: u32 = 1024;

/// The most calls of `label` for one state.
pub const MAX_LABEL_CALLS: u32 = 64;
