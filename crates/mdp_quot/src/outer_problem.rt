ghost use Rattle.std.specs.Prelude.{◌≡◌, ◌<◌, length};
ghost use Rattle.mdp_quot.specs.{Sizes.{HasFewExits}, Problem.{component_of, gain_of, outer_problem}, Outer.{HasGains}};

use crate::quotient::Quotient;
use mdp_num::{Frac, Wide};
use mdp_policy_iteration::ShortestPath;
use mdp_rows::{Dir, Row};

/// The best gain that can be come to as a shortest path problem: by choice 0 a node that is an end component stops with its gain, by choice `1 + i` a
/// node goes on by its exit `i` and earns nothing.
#[derive(Clone, Copy)]
pub(crate) struct OuterProblem<'a, 'b, 'g> {
    pub(crate) dir: Dir,
    pub(crate) quotient: &'a Quotient<'b>,
    pub(crate) gains: &'g [Frac],
    ghost few: { HasFewExits quotient.now },
    ghost each: { HasGains quotient.now gains.now },
}

impl OuterProblem<'_, '_, '_> {
    /// The gain of node `s`; 0 where it is no end component.
    fn gain(&self, s: u32) -> Frac
        requires { s < length self.now.quotient.now.exits }
        ensures { result ≡ gain_of self.now.gains.now (component_of self.now.quotient.now s) }
    {
        match self.quotient.component(s) {
            Some(component) => self.gains[component as usize],
            None => Frac::whole(0),
        }
    }
}

impl ShortestPath for OuterProblem<'_, '_, '_> {
    ghost problem = { λ p. outer_problem p.dir p.quotient.now p.gains.now };

    fn known(&self) {
        self.quotient.known();
    }

    fn dir(&self) -> Dir {
        self.dir
    }

    fn count(&self) -> u32 {
        self.quotient.nodes()
    }

    fn choices(&self, s: u32) -> u32 {
        self.quotient.exits(s).len() as u32 + 1
    }

    fn is_candidate(&self, s: u32, c: u32) -> bool {
        c > 0 || self.quotient.component(s).is_some()
    }

    fn worth(&self, s: u32, c: u32, values: &[Frac]) -> Result<Frac, Wide> {
        if c == 0 {
            Ok(self.gain(s))
        } else {
            let row = self.quotient.row(s, c - 1);
            row.sum(&Frac::whole(0), values)
        }
    }

    fn reads(&self, s: u32, c: u32) -> &[u32] {
        if c == 0 {
            &[]
        } else {
            self.quotient.row(s, c - 1).targets
        }
    }

    fn goes_on(&self, _s: u32, c: u32) -> bool {
        c > 0
    }

    fn amount(&self, s: u32, c: u32) -> Frac {
        if c == 0 { self.gain(s) } else { Frac::whole(0) }
    }

    fn fits(&self, _s: u32, _c: u32) -> bool {
        true
    }

    fn row(&self, s: u32, c: u32) -> Row<'_> {
        self.quotient.row(s, c - 1)
    }
}
