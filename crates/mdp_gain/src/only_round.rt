ghost use Rattle.std.specs.{Prelude.{ℕ, ◌≡◌, ◌<◌, length}, Result.{result_ok}};
ghost use Rattle.mdp_wide.specs.declared.too_wide.Kind.TheVariants.{Evaluate};
ghost use Rattle.mdp_unichain.specs.{Component.{count, choices_at, choice_at, IsInner}, Written.{written_values, written_improved}};
ghost use Rattle.mdp_policy_iteration.specs.Faults.{placed_at, Answers};
ghost use Rattle.mdp_gain.specs.{Code.{component_in, HasEnds}, Only.{Makes}, OnlyTerms.{ratio_of}, Policies.{policy_by, values_by}};

use crate::only_state::Only;
use mdp_num::{Frac, Wide};
use mdp_policy_iteration::{NodePlace, RoundError, at_choice};
use mdp_wide::Kind;

/// The last choice of the path at the only state, and its gain.
#[derive(Drop)]
pub(crate) struct Settled {
    pub(crate) choice: u32,
    pub(crate) gain: Frac,
}

/// What a round makes.
#[derive(Drop)]
pub(crate) enum Turn {
    /// No choice is better.
    Done(Settled),
    /// The next choice.
    Next(u32),
}

/// A step of the evaluation of choice `c` of state `s`.
fn at_evaluation(step: Result<Frac, Wide>, s: u32, c: u32) -> Result<Frac, RoundError>
    ensures { result ≡ placed_at Evaluate s c step }
{
    match step {
        Ok(value) => Ok(value),
        Err(Wide) => Err(RoundError::TooWide(NodePlace {
            kind: Kind::Evaluate,
            node: s,
            choice: c,
        })),
    }
}

impl Only<'_> {
    /// What choice `c` earns on a way from the state back to it, by the number of its steps.
    fn ratio(&self, c: u32) -> Result<Frac, Wide>
        requires { c < length (choices_at (component_in self.now.component) self.now.s) }
        ensures { result_ok result ≡ ratio_of (count (component_in self.now.component)) (choice_at (component_in self.now.component) self.now.s c) }
    {
        let row = self.component.row(self.s, c);
        let reward = self.component.reward(self.s, c);
        let earned = row.sum_over(&reward, self)?;
        let steps = row.sum_over(&Frac::whole(1), self)?;
        earned.div(&steps)
    }

    /// The gain of choice `c`; its bias is 0.
    fn gain(&self, c: u32) -> Result<Frac, RoundError>
        requires { IsInner (component_in self.now.component) self.now.s c }
        ensures { Answers (values_by self.now) result (written_values (component_in self.now.component) (policy_by self.now c) self.now.s) }
    {
        at_evaluation(self.ratio(c), self.s, c)
    }

    /// The choice that improves choice `c`, which has this gain.
    fn improved(&self, c: u32, gain: &Frac) -> Result<u32, RoundError>
        ensures { Answers (policy_by self.now) result
            (written_improved (component_in self.now.component) (policy_by self.now c) (values_by self.now gain.now)) }
    {
        let present = at_choice(gain.add(&Frac::whole(0)), self.s, c)?;
        self.component.choice_over(self, self.s, c, present)
    }

    /// One round of choice `c`: its gain, and the choice that improves it.
    pub(crate) fn round(&self, c: u32) -> Result<Turn, RoundError>
        requires given { HasEnds self.now.component }
        requires inner { IsInner (component_in self.now.component) self.now.s c }
        ensures { (n : ℕ) → Makes (component_in self.now.component) self.now.s n c result }
    {
        let gain = self.gain(c)?;
        let next = self.improved(c, &gain)?;
        if next == c {
            return Ok(Turn::Done(Settled { choice: c, gain }));
        }
        Ok(Turn::Next(next))
    }
}
