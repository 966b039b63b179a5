ghost use Rattle.std.specs.Prelude.{◌≡◌, ◌<◌, List, length};
ghost use Rattle.mdp_math.specs.Rational.{ℚ};
ghost use Rattle.mdp_spec.specs.Mdp.{value_at};

use mdp_num::Frac;

/// One value per state.
pub trait ValuesOf {
    // The values, in the order of the states.
    ghost values: { Self → List ℚ };

    /// The value of state `t`.
    fn value_of(&self, t: u32) -> Frac
        requires { t < length (values self.now) }
        ensures { result ≡ value_at (values self.now) t };
}

/// Values of which each is given.
#[derive(Clone, Copy)]
pub(crate) struct GivenValues<'a> {
    pub(crate) values: &'a [Frac],
}

impl ValuesOf for GivenValues<'_> {
    ghost values = { λ v. v.values.now };

    fn value_of(&self, t: u32) -> Frac {
        self.values[t as usize]
    }
}
