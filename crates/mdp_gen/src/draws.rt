ghost use Rattle.std.specs.Prelude.{◌≡◌, ◌<◌, ◌%◌};
ghost use Rattle.mdp_gen.specs.Draws.{next, draw};

/// What draws are taken modulo.
const MODULUS: u32 = 65537;

/// Where the draws of a number start.
#[tactic(auto, unfolding(crate::specs::Draws::draw))]
pub(crate) fn start_of(number: u64) -> u32
    ensures start { result ≡ draw number 0 }
    ensures small { result < 65537 }
{
    (number % MODULUS as u64) as u32
}

/// The draw behind `x`: a linear congruential generator (Lehmer 1951).
pub(crate) fn next_draw(x: u32) -> u32
    requires { x < 65537 }
    ensures next { result ≡ next x }
    ensures small { result < 65537 }
{
    (75 * x + 74) % MODULUS
}
