ghost use Rattle.std.specs.Prelude.{◌<◌, ◌^◌};
ghost use Rattle.mdp_horizon.specs.Short.{weights_of};

use crate::choice::ShortTerm;

/// Short entries whose weights make less than 2^63 together: so a sum of values of 64 bits by these weights has at most 127 bits.
#[derive(Clone, Copy)]
pub struct ShortTerms<'b> {
    pub(crate) terms: &'b [ShortTerm],
    ghost room: { weights_of terms.now < 2 ^ 63 },
}
