ghost use Rattle.std.specs.Prelude.{◌≡◌, ◌<◌, ◌^◌, length, slice_index, if◌then◌else◌, IfOk};
ghost use Rattle.mdp_graph.specs.Sets.{marked};
ghost use Rattle.mdp_unichain.specs.{Component.{count, IsPolicy}, Next.{IsPicked, IsExactNext}};
ghost use Rattle.mdp_gain.specs.Code.{component_in, joined, HasEnds};

use crate::chosen::Chosen;
use mdp_num::Memory;
use mdp_parts::toward;
use mdp_rows::Marks;
use std::alloc::{AllocError, Global};

/// One list at a marked state, another elsewhere.
fn joined_at(marks: &Marks, inside: &[u32], outside: &[u32], s: usize) -> u32
    requires marks { s < length marks.now }
    requires inside { s < length inside.now }
    requires outside { s < length outside.now }
    requires few { s < 2 ^ 32 }
    ensures { result ≡ (if marked marks.now s then slice_index inside.now s else slice_index outside.now s) }
{
    if marks.at(s as u32) {
        inside[s]
    } else {
        outside[s]
    }
}

/// One list at the marked states, another at the others.
fn joined(
    alloc: Global,
    marks: &Marks,
    inside: &[u32],
    outside: &[u32],
) -> Result<Vec<u32>, AllocError>
    requires marks { length marks.now ≡ length outside.now }
    requires inside { length inside.now ≡ length outside.now }
    requires few { length outside.now < 2 ^ 32 }
    ensures { IfOk result (λ both. both.items ≡ joined marks.now inside.now outside.now) }
{
    let mut both = Vec::new(alloc);
    for s in 0..outside.len() {
        both.push(joined_at(marks, inside, outside, s))?;
    }
    Ok(both)
}

impl Chosen<'_> {
    /// The policy that keeps its choices on a closed class, which was picked for them against another policy; the other states of the component go
    /// toward it.
    fn toward_class(&self, alloc: Global, policy: &[u32], class: &Marks) -> Result<Vec<u32>, Memory>
        requires given { HasEnds self.now.component }
        requires picked { IsPicked (component_in self.now.component) policy.now self.now.policy.now (marked class.now) }
        requires count { length class.now ≡ count (component_in self.now.component) }
        ensures { IfOk result (λ next. IsExactNext (component_in self.now.component) policy.now self.now.policy.now next.items) }
    {
        let component = &self.component;
        let pass = toward(
            alloc,
            component.model,
            component.ends,
            component.number,
            class,
        )?;
        Ok(joined(alloc, class, self.policy, &pass.choices)?)
    }

    /// The next policy: the improved one where none of its closed classes holds a state where it differs; else one such class keeps its choices, and
    /// the other states go toward it.
    pub(crate) fn next_policy(&self, alloc: Global, improved: Vec<u32>) -> Result<Vec<u32>, Memory>
        requires given { HasEnds self.now.component }
        requires improved { IsPolicy (component_in self.now.component) improved.items }
        ensures { IfOk result (λ next. IsExactNext (component_in self.now.component) self.now.policy.now improved.items next.items) }
    {
        let better = Chosen {
            component: self.component,
            policy: &improved,
        };
        match better.picked(alloc, self.policy)? {
            Some(class) => better.toward_class(alloc, self.policy, &class),
            None => Ok(improved),
        }
    }
}
