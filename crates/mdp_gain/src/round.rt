ghost use Rattle.std.specs.Prelude.{ℕ, ◌≡◌, ◌≢◌, true, false};
ghost use Rattle.mdp_unichain.specs.{Chain.{IsReference}, Component.{is_state, row_by}};
ghost use Rattle.mdp_gain.specs.{Code.{component_in, Makes, HasBiases, HasEnds}, Policies.{under}};

use crate::chosen::Chosen;
use crate::comparison::Valued;
use crate::referred::Referred;
use crate::values::Values;
use mdp_policy_iteration::RoundError;
use std::alloc::Global;

/// What a round makes.
#[derive(Drop)]
pub(crate) enum RoundEnd {
    /// No choice is better: the gain and the biases of the policy, and its reference.
    Done(Values, u32),
    /// The next policy.
    Next(Vec<u32>),
}

/// Whether two policies are the same.
fn is_same(policy: &[u32], other: &[u32]) -> bool
    ensures same { result ≡ true → policy.now ≡ other.now }
    ensures other { result ≡ false → policy.now ≢ other.now }
{
    policy == other
}

impl Chosen<'_> {
    /// One round, where `t` is the policy's reference: its gain and biases, and the choices that improve it.
    pub(crate) fn round(&self, alloc: Global, t: u32) -> Result<RoundEnd, RoundError>
        requires given { HasEnds self.now.component }
        requires reference { IsReference (is_state (component_in self.now.component)) (under self.now row_by) t }
        ensures made { (n : ℕ) → Makes (component_in self.now.component) n self.now.policy.now result }
        ensures biases { HasBiases (component_in self.now.component) result }
    {
        let referred = Referred { chosen: *self, t };
        let values = referred.evaluate(alloc)?;
        let valued = Valued {
            chosen: *self,
            values: &values,
        };
        let improved = valued.improved(alloc)?;
        if is_same(&improved, self.policy) {
            return Ok(RoundEnd::Done(values, t));
        }
        Ok(RoundEnd::Next(self.next_policy(alloc, improved)?))
    }
}
