ghost use Rattle.std.specs.Prelude.{pos, ◌<ℤ◌};

use crate::short_terms::ShortTerms;
use bumpalo::Bump;

/// An entry of a row in whole numbers: its probability times the row's common denominator.
#[derive(Clone, Copy)]
pub struct Term {
    pub(crate) target: u32,
    pub(crate) weight: i128,
}

/// The same with a weight of 64 bits.
#[derive(Clone, Copy)]
pub struct ShortTerm {
    pub(crate) target: u32,
    pub(crate) weight: i64,
}

/// The entries of a row: short ones, unless a weight is too wide for that.
#[derive(Clone, Copy)]
pub enum Terms<'b> {
    Short(ShortTerms<'b>),
    Wide(&'b [Term]),
}

/// A common denominator of a row and of what is earned at once, and the latter in units times it; 0 where one of these is too wide.
#[derive(Clone, Copy)]
pub struct Scale {
    pub(crate) common: i128,
    pub(crate) start: i128,
}

/// What is earned at once in units, rounded down and up; none where it is too wide.
#[derive(Clone, Copy)]
pub struct RoundedStart {
    pub(crate) low: Option<i128>,
    pub(crate) high: Option<i128>,
}

/// A choice in whole numbers: its row and what it earns at once. The latter in units lies apart, since only sums that are too wide need it.
#[derive(Clone, Copy)]
pub struct ScaledChoice<'b> {
    pub(crate) scale: Scale,
    pub(crate) terms: Terms<'b>,
    pub(crate) rounded: &'b RoundedStart,
}

/// The same in numbers of 64 bits.
#[derive(Clone, Copy)]
pub(crate) struct ShortChoice<'b> {
    pub start: i64,
    pub common: i64,
    pub terms: ShortTerms<'b>,
    pub rounded: &'b RoundedStart,
    ghost positive: { pos 0 <ℤ common },
}

/// The choices of a state: in numbers of 64 bits, unless one isn't.
#[derive(Drop)]
pub(crate) enum Choices<'b> {
    Short(Vec<ShortChoice<'b>>),
    Wide(Vec<ScaledChoice<'b>>),
}

/// The arenas of choices: one for terms, which each step reads, and one for starts in units.
#[derive(Clone, Copy)]
pub struct Arenas<'b> {
    pub terms: &'b Bump,
    pub starts: &'b Bump,
}
