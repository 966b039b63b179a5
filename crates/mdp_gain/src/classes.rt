ghost use Rattle.std.specs.{Prelude.{ℕ, ◌==◌, not, ◌≡◌, ◌<◌, ◌^◌, length, map, slice_index, IfOk}, List.{All, list_any, find, range_with_len}};
ghost use Rattle.mdp_parts.specs.Allowed.{AreChoices};
ghost use Rattle.mdp_spec.specs.Mdp.{states_of};
ghost use Rattle.mdp_graph.specs.Sets.{marked};
ghost use Rattle.mdp_unichain.specs.{Chain.{IsReference}, Component.{count, is_state, row_by, IsPolicy}, Path.{IsStart}};
ghost use Rattle.mdp_unichain.specs.Classes.{takes, leaves, differs, has_flag, shares_part, Picks};
ghost use Rattle.mdp_gain.specs.{Code.{component_in, numbers_of, part_has, HasEnds}, Classes.{TakesAt, TakesAll}};
ghost use Rattle.mdp_gain.specs.Policies.{under, AreClassesOf, in_class, in_changed_class};

use crate::chosen::Chosen;
use crate::component::EndComponent;
use mdp_num::Memory;
use mdp_parts::{Allowed, components};
use mdp_rows::Marks;
use std::alloc::{AllocError, Global};

/// The parts of a policy's chain, and which of them it leaves. A part that it doesn't leave is a closed class.
#[derive(Drop)]
struct Classes {
    parts: Vec<u32>,
    left: Marks,
}

/// Whether one of these states is in another part.
fn has_other(targets: &[u32], parts: &[u32], part: u32) -> bool
    requires { All (λ t. t < length parts.now) targets.now }
    ensures { result ≡ list_any (λ t. not (slice_index parts.now t == part)) targets.now }
{
    for t in targets {
        if is_other(part, parts[*t as usize]) {
            return true;
        }
    }
    false
}

/// Whether two numbers differ.
pub(crate) fn is_other(number: u32, other: u32) -> bool
    ensures { result ≡ not (other == number) }
{
    other != number
}

/// For each state whether two policies differ there.
fn differing(alloc: Global, policy: &[u32], improved: &[u32]) -> Result<Vec<bool>, AllocError>
    requires { length improved.now ≡ length policy.now }
    ensures { IfOk result (λ flags. flags.items ≡ map (differs policy.now improved.now) (range_with_len 0 (length policy.now))) }
{
    let mut flags = Vec::new(alloc);
    for s in 0..policy.len() {
        flags.push(is_other(policy[s], improved[s]))?;
    }
    Ok(flags)
}

/// For each number whether the part of this number has a flagged state.
fn flagged_parts(alloc: Global, flags: &[bool], parts: &[u32]) -> Result<Marks, Memory>
    requires flags { length flags.now ≡ length parts.now }
    requires parts { All (λ k. k < length parts.now) parts.now }
    requires few { length parts.now < 2 ^ 32 }
    ensures count { IfOk result (λ marks. length marks ≡ length parts.now) }
    ensures flagged { IfOk result (λ marks. (k : ℕ) → k < length parts.now → marked marks k ≡ has_flag flags.now parts.now (length parts.now) k) }
{
    let mut marks = Marks::empty(alloc, parts.len() as u32)?;
    for s in 0..parts.len() {
        if flags[s] {
            marks.set(parts[s], true);
        }
    }
    Ok(marks)
}

impl EndComponent<'_> {
    /// Whether state `s` of the component is in the part of state `t`.
    fn shares_part(&self, parts: &[u32], t: u32, s: u32) -> bool
        requires parts { length parts.now ≡ count (component_in self.now) }
        requires target { t < count (component_in self.now) }
        requires state { s < count (component_in self.now) }
        ensures { result ≡ shares_part (component_in self.now) parts.now t s }
    {
        self.holds(s) && parts[s as usize] == parts[t as usize]
    }

    /// The states of the component in the part of state `t`.
    fn class_of(&self, alloc: Global, parts: &[u32], t: u32) -> Result<Marks, AllocError>
        requires parts { length parts.now ≡ count (component_in self.now) }
        requires state { t < count (component_in self.now) }
        ensures { IfOk result (λ class. class ≡ map (shares_part (component_in self.now) parts.now t) (numbers_of (component_in self.now).states)) }
    {
        let mut class = Vec::new(alloc);
        for s in 0..self.count() {
            class.push(self.shares_part(parts, t, s))?;
        }
        Ok(Marks::from_values(class))
    }
}

impl Chosen<'_> {
    /// Whether choice `c` of state `s` is the policy's, at a state of the component.
    fn takes(&self, s: u32, c: u32) -> bool
        requires { s < count (component_in self.now.component) }
        ensures { result ≡ under self.now takes s c }
    {
        self.component.holds(s) && c == self.policy[s as usize]
    }

    /// Allows the policy's choice of state `s`, where it is one of the component, and forbids its other choices.
    fn allow_at(&self, allowed: &mut Allowed, s: u32)
        requires state { s < states_of self.now.component.model.now }
        requires sizes { AreChoices self.now.component.model.now allowed.old }
        ensures { TakesAt self.now.component.model.now (component_in self.now.component) self.now.policy.now s allowed.old allowed.new }
    {
        for c in 0..self.component.model.choices(s) {
            allowed.set(s, c, self.takes(s, c));
        }
    }

    /// The policy's choices at the states of the component.
    fn choices(&self, alloc: Global) -> Result<Allowed, Memory>
        ensures sizes { IfOk result (λ allowed. AreChoices self.now.component.model.now allowed) }
        ensures taken { IfOk result (λ allowed. TakesAll self.now.component.model.now (component_in self.now.component) self.now.policy.now allowed) }
    {
        let mut allowed = Allowed::all(alloc, self.component.model)?;
        for s in 0..self.component.count() {
            self.allow_at(&mut allowed, s);
        }
        Ok(allowed)
    }

    /// Whether the policy leads from state `s` of the component to another part.
    fn leaves(&self, parts: &[u32], s: u32) -> bool
        requires parts { length parts.now ≡ count (component_in self.now.component) }
        requires state { s < count (component_in self.now.component) }
        ensures { result ≡ under self.now leaves parts.now s }
    {
        let row = self.component.row(s, self.policy[s as usize]);
        let other = has_other(row.targets, parts, parts[s as usize]);
        self.component.holds(s) && other
    }

    /// For each state whether it leaves its part.
    fn leaving(&self, alloc: Global, parts: &[u32]) -> Result<Vec<bool>, AllocError>
        requires { length parts.now ≡ count (component_in self.now.component) }
        ensures { IfOk result (λ flags. flags.items ≡ map (under self.now leaves parts.now) (numbers_of (component_in self.now.component).states)) }
    {
        let mut flags = Vec::new(alloc);
        for s in 0..self.component.count() {
            flags.push(self.leaves(parts, s))?;
        }
        Ok(flags)
    }

    /// For each number whether the policy leaves the part of this number.
    fn left(&self, alloc: Global, parts: &[u32]) -> Result<Marks, Memory>
        requires parts { length parts.now ≡ count (component_in self.now.component) }
        requires below { All (λ k. k < length parts.now) parts.now }
        ensures count { IfOk result (λ marks. length marks ≡ count (component_in self.now.component)) }
        ensures left { IfOk result (λ marks. (k : ℕ) → k < count (component_in self.now.component) → marked marks k
            ≡ part_has (component_in self.now.component) (under self.now leaves parts.now) parts.now k) }
    {
        let flags = self.leaving(alloc, parts)?;
        flagged_parts(alloc, &flags, parts)
    }

    /// The parts of the policy's chain.
    fn classes(&self, alloc: Global) -> Result<Classes, Memory>
        requires given { HasEnds self.now.component }
        ensures { IfOk result (λ classes. AreClassesOf self.now classes) }
    {
        let allowed = self.choices(alloc)?;
        let parts = components(alloc, self.component.model, &allowed)?;
        let left = self.left(alloc, &parts)?;
        Ok(Classes { parts, left })
    }

    /// Whether state `s` is in a closed class.
    fn in_class(&self, classes: &Classes, s: u32) -> bool
        requires are { AreClassesOf self.now classes.now }
        requires state { s < count (component_in self.now.component) }
        ensures { result ≡ in_class self.now classes.now s }
    {
        self.component.holds(s) && !classes.left.at(classes.parts[s as usize])
    }

    /// The least state of a closed class.
    fn least_in_class(&self, classes: &Classes) -> Option<u32>
        requires { AreClassesOf self.now classes.now }
        ensures { result ≡ find (in_class self.now classes.now) (numbers_of (component_in self.now.component).states) }
    {
        for s in 0..self.component.count() {
            if self.in_class(classes, s) {
                return Some(s);
            }
        }
        None
    }

    /// Whether state `s` is in a closed class with a changed state.
    fn in_changed_class(&self, classes: &Classes, changed: &Marks, s: u32) -> bool
        requires are { AreClassesOf self.now classes.now }
        requires changed { length changed.now ≡ count (component_in self.now.component) }
        requires state { s < count (component_in self.now.component) }
        ensures { result ≡ in_changed_class self.now classes.now changed.now s }
    {
        self.in_class(classes, s) && changed.at(classes.parts[s as usize])
    }

    /// The least state of a closed class with a changed state.
    fn least_changed(&self, classes: &Classes, changed: &Marks) -> Option<u32>
        requires are { AreClassesOf self.now classes.now }
        requires changed { length changed.now ≡ count (component_in self.now.component) }
        ensures { result ≡ find (in_changed_class self.now classes.now changed.now) (numbers_of (component_in self.now.component).states) }
    {
        for s in 0..self.component.count() {
            if self.in_changed_class(classes, changed, s) {
                return Some(s);
            }
        }
        None
    }

    /// For each number whether the part of this number has a state where the policy differs from another one.
    fn changed(&self, alloc: Global, classes: &Classes, policy: &[u32]) -> Result<Marks, Memory>
        requires are { AreClassesOf self.now classes.now }
        requires policy { IsPolicy (component_in self.now.component) policy.now }
        ensures count { IfOk result (λ changed. length changed ≡ count (component_in self.now.component)) }
        ensures changed { IfOk result (λ changed. (s : ℕ) → s < count (component_in self.now.component)
            → marked changed (slice_index classes.now.parts.items s)
            ≡ part_has (component_in self.now.component) (differs policy.now self.now.policy.now) classes.now.parts.items
            (slice_index classes.now.parts.items s)) }
    {
        let flags = differing(alloc, policy, self.policy)?;
        flagged_parts(alloc, &flags, &classes.parts)
    }

    /// Of the closed classes that hold a state where the policy differs from another one, the one with the least state.
    pub(crate) fn picked(&self, alloc: Global, policy: &[u32]) -> Result<Option<Marks>, Memory>
        requires given { HasEnds self.now.component }
        requires policy { IsPolicy (component_in self.now.component) policy.now }
        ensures { IfOk result (λ class. Picks (component_in self.now.component) policy.now self.now.policy.now class) }
    {
        let classes = self.classes(alloc)?;
        let changed = self.changed(alloc, &classes, policy)?;
        match self.least_changed(&classes, &changed) {
            Some(t) => Ok(Some(self.component.class_of(alloc, &classes.parts, t)?)),
            None => Ok(None),
        }
    }
}

impl EndComponent<'_> {
    /// The reference of a policy with one closed class: the least state of this class.
    pub(crate) fn reference(&self, alloc: Global, policy: &[u32]) -> Result<u32, Memory>
        requires given { HasEnds self.now }
        requires start { IsStart (component_in self.now) policy.now }
        ensures { IfOk result (λ t. IsReference (is_state (component_in self.now)) (row_by (component_in self.now) policy.now) t) }
    {
        let chosen = Chosen {
            component: *self,
            policy,
        };
        let classes = chosen.classes(alloc)?;
        Ok(chosen.least_in_class(&classes).unwrap_or(0))
    }
}
