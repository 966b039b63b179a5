ghost use Rattle.std.specs.Prelude.{◌≡◌, ◌<◌, length, map, slice_index_or, IfOk, IfSome};
ghost use Rattle.mdp_horizon.specs.{Columns.{no_scaled}, BoundsCode.{plain_choice, plain_short, plain_choices}};

use crate::choice::{Choices, Scale, ScaledChoice, ShortChoice, Terms};
use std::alloc::{AllocError, Global};

impl<'b> ScaledChoice<'b> {
    /// The choice in numbers of 64 bits; none where one is wider, or there is no common denominator.
    fn short(&self) -> Option<ShortChoice<'b>>
        ensures { IfSome result (λ short. plain_short short ≡ plain_choice self.now) }
    {
        let start = i64::try_from(self.scale.start).ok()?;
        let common = i64::try_from(self.scale.common).ok()?;
        if common <= 0 {
            return None;
        }
        match self.terms {
            Terms::Short(terms) => Some(ShortChoice {
                start,
                common,
                terms,
                rounded: self.rounded,
            }),
            Terms::Wide(_) => None,
        }
    }
}

impl<'b> ShortChoice<'b> {
    /// The choice in wider numbers.
    fn widened(&self) -> ScaledChoice<'b>
        ensures { plain_choice result ≡ plain_short self.now }
    {
        let scale = Scale {
            common: i128::from(self.common),
            start: i128::from(self.start),
        };
        ScaledChoice {
            scale,
            terms: Terms::Short(self.terms),
            rounded: self.rounded,
        }
    }
}

/// The choices in numbers of 64 bits; none where one of them isn't.
fn short_choices<'b>(
    alloc: Global,
    choices: &[ScaledChoice<'b>],
) -> Result<Option<Vec<ShortChoice<'b>>>, AllocError>
    ensures { IfOk result (λ found. IfSome found (λ short. map plain_short short.items ≡ map plain_choice choices.now)) }
{
    let mut found = Vec::with_capacity(alloc, choices.len())?;
    for c in 0..choices.len() {
        let Some(choice) = choices[c].short() else {
            return Ok(None);
        };
        found.push(choice)?;
    }
    Ok(Some(found))
}

impl<'b> Choices<'b> {
    /// The choices, in numbers of 64 bits where each of them is.
    pub(crate) fn from_scaled(
        alloc: Global,
        choices: Vec<ScaledChoice<'b>>,
    ) -> Result<Choices<'b>, AllocError>
        ensures { IfOk result (λ made. plain_choices made ≡ map plain_choice choices.entry.items) }
    {
        match short_choices(alloc, &choices)? {
            Some(short) => Ok(Choices::Short(short)),
            None => Ok(Choices::Wide(choices)),
        }
    }

    /// How many there are.
    pub(crate) fn len(&self) -> usize
        ensures { result ≡ length (plain_choices self.now) }
    {
        match self {
            Choices::Short(choices) => choices.len(),
            Choices::Wide(choices) => choices.len(),
        }
    }

    /// The one at place `c`.
    pub(crate) fn at(&self, c: usize) -> ScaledChoice<'b>
        requires { c < length (plain_choices self.now) }
        ensures { plain_choice result ≡ slice_index_or (plain_choices self.now) c no_scaled }
    {
        match self {
            Choices::Short(choices) => choices[c].widened(),
            Choices::Wide(choices) => choices[c],
        }
    }
}
