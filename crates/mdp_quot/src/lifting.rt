ghost use Rattle.std.specs.Prelude.{◌≡◌, ◌<◌, length, slice_index, IfOk};
ghost use Rattle.mdp_spec.specs.Mdp.{states_of};
ghost use Rattle.mdp_ends.specs.Toward.{IsOuter, lifted_choice, lifted};
ghost use Rattle.mdp_parts.specs.FoundEnds.{AreEndsOf};
ghost use Rattle.mdp_quot.specs.{Quotient.{IsQuotient}, Lifting.{IsInner, AreTaken, AreWays}};

use crate::quotient::Quotient;
use mdp_num::Memory;
use mdp_parts::{Ends, toward_targets};
use mdp_rows::{Marks, Model};
use std::alloc::{AllocError, Global};

impl Quotient<'_> {
    /// The states of the exits that are taken.
    fn exit_states(
        &self,
        alloc: Global,
        model: &Model,
        ends: &Ends,
        outer: &[u32],
    ) -> Result<Marks, Memory>
        requires ends { AreEndsOf model.now ends.now }
        requires quotient { IsQuotient model.now ends.now.parts self.now }
        requires outer { IsOuter model.now ends.now.parts self.now.nodes outer.now }
        ensures { IfOk result (λ states. AreTaken model.now ends.now.parts self.now.nodes outer.now (length self.now.exits) states) }
    {
        let mut states = Marks::empty(alloc, model.states())?;
        for q in 0..self.nodes() {
            let taken = outer[q as usize];
            if taken > 0 {
                let exits = self.exits(q);
                let exit = exits[taken as usize - 1];
                states.set(exit.state, true);
            }
        }
        Ok(states)
    }

    /// At each state of an end component that takes an exit the choice toward the exit's state.
    fn ways(
        &self,
        alloc: Global,
        model: &Model,
        ends: &Ends,
        outer: &[u32],
    ) -> Result<Vec<u32>, Memory>
        requires ends { AreEndsOf model.now ends.now }
        requires quotient { IsQuotient model.now ends.now.parts self.now }
        requires outer { IsOuter model.now ends.now.parts self.now.nodes outer.now }
        ensures { IfOk result (λ ways. AreWays model.now ends.now.parts self.now.nodes outer.now (length self.now.exits) ways.items) }
    {
        model.known();
        let states = self.exit_states(alloc, model, ends, outer)?;
        let pass = toward_targets(alloc, model, ends, &states)?;
        Ok(pass.choices)
    }

    /// The choice of the lifted policy at state `s` of this model and these end components.
    fn lifted_at(
        &self,
        model: &Model,
        ends: &Ends,
        s: u32,
        outer: &[u32],
        inner: u32,
        ways: &[u32],
    ) -> u32
        requires ends { AreEndsOf model.now ends.now }
        requires quotient { IsQuotient model.now ends.now.parts self.now }
        requires outer { IsOuter model.now ends.now.parts self.now.nodes outer.now }
        requires ways { AreWays model.now ends.now.parts self.now.nodes outer.now (length self.now.exits) ways.now }
        requires state { s < states_of model.now }
        ensures { result ≡ lifted_choice model.now ends.now.parts self.now.nodes s inner (slice_index outer.now (slice_index self.now.nodes s)) }
    {
        let q = self.node_of(s);
        let taken = outer[q as usize];
        if taken == 0 {
            return inner;
        }
        let exits = self.exits(q);
        let exit = exits[taken as usize - 1];
        if exit.state == s {
            exit.choice
        } else {
            ways[s as usize]
        }
    }

    /// The lifted policy, by the choices toward the exits' states.
    fn lifted_by(
        &self,
        alloc: Global,
        model: &Model,
        ends: &Ends,
        outer: &[u32],
        inner: &[u32],
        ways: &[u32],
    ) -> Result<Vec<u32>, AllocError>
        requires ends { AreEndsOf model.now ends.now }
        requires quotient { IsQuotient model.now ends.now.parts self.now }
        requires outer { IsOuter model.now ends.now.parts self.now.nodes outer.now }
        requires ways { AreWays model.now ends.now.parts self.now.nodes outer.now (length self.now.exits) ways.now }
        requires inner { length inner.now ≡ states_of model.now }
        ensures { IfOk result (λ policy. policy.items ≡ lifted model.now ends.now.parts self.now.nodes outer.now inner.now) }
    {
        let mut policy = Vec::with_capacity(alloc, model.states() as usize)?;
        for s in 0..model.states() {
            policy.push(self.lifted_at(model, ends, s, outer, inner[s as usize], ways))?;
        }
        Ok(policy)
    }

    /// The policy of the model that a policy of the nodes makes. `outer` has for each node 0, where it stops, or 1 and the number of the exit that it
    /// takes. `inner` has inner choices at the states of end components. At a node that stops it is `inner`; at a node that takes an exit, the
    /// exit's state takes its choice, and each other state the least inner choice with a successor of smaller rank to that state. One pass finds the
    /// choices of all end components, so the time grows with the entries.
    pub fn lift(
        &self,
        alloc: Global,
        model: &Model,
        ends: &Ends,
        outer: &[u32],
        inner: &[u32],
    ) -> Result<Vec<u32>, Memory>
        requires ends { AreEndsOf model.now ends.now }
        requires quotient { IsQuotient model.now ends.now.parts self.now }
        requires outer { IsOuter model.now ends.now.parts self.now.nodes outer.now }
        requires inner { IsInner model.now ends.now.parts inner.now }
        ensures { IfOk result (λ policy. policy.items ≡ lifted model.now ends.now.parts self.now.nodes outer.now inner.now) }
    {
        let ways = self.ways(alloc, model, ends, outer)?;
        Ok(self.lifted_by(alloc, model, ends, outer, inner, &ways)?)
    }
}
