ghost use Rattle.std.specs.{Prelude.{◌≡◌, ◌<◌, ◌&&◌, ◌==◌, ℕ, [], false, not, length, replicate, slice_index_or, IfOk, OnOk}, List.{All}};
ghost use Rattle.mdp_rows.specs.Preds.{is_among};
ghost use Rattle.mdp_policy_iteration.specs.{Changes.{Ascend}, Dependents.{AreComingTo, AreWithDependents}};
ghost use Rattle.mdp_policy_iteration.specs.Marked.{is_taker, has_one, depends_on_one, AreMarked, AreAdded};

use crate::dependents::Dependents;
use mdp_rows::{Marks, Pred};
use std::alloc::{AllocError, Global};

/// Finds node `s`, unless it has a mark.
fn add(marks: &mut Marks, found: &mut Vec<u32>, s: u32) -> Result<(), AllocError>
    requires node { s < length marks.old }
    requires marked { AreMarked marks.old found.old.items }
    ensures { OnOk result (AreAdded (λ x. s == x) marks.old marks.new found.old.items found.new.items) }
{
    if !marks.at(s) {
        found.push(s)?;
        marks.set(s, true);
    }
    Ok(())
}

/// Finds each of these nodes.
fn add_each(marks: &mut Marks, found: &mut Vec<u32>, nodes: &[u32]) -> Result<(), AllocError>
    requires nodes { All (λ s. s < length marks.old) nodes.now }
    requires marked { AreMarked marks.old found.old.items }
    ensures { OnOk result (AreAdded (λ s. is_among s nodes.now) marks.old marks.new found.old.items found.new.items) }
{
    for s in nodes {
        add(marks, found, *s)?;
    }
    Ok(())
}

/// Finds the nodes whose choice by the policy is one of these.
fn add_takers(
    marks: &mut Marks,
    found: &mut Vec<u32>,
    policy: &[u32],
    choices: &[Pred],
) -> Result<(), AllocError>
    requires policy { length policy.now ≡ length marks.old }
    requires choices { All (λ p. p.state < length marks.old) choices.now }
    requires marked { AreMarked marks.old found.old.items }
    ensures { OnOk result (AreAdded (is_taker policy.now choices.now) marks.old marks.new found.old.items found.new.items) }
{
    for pred in choices {
        if policy[pred.state as usize] == pred.choice {
            add(marks, found, pred.state)?;
        }
    }
    Ok(())
}

/// Finds the nodes of these choices.
fn add_all(marks: &mut Marks, found: &mut Vec<u32>, choices: &[Pred]) -> Result<(), AllocError>
    requires choices { All (λ p. p.state < length marks.old) choices.now }
    requires marked { AreMarked marks.old found.old.items }
    ensures { OnOk result (AreAdded (has_one choices.now) marks.old marks.new found.old.items found.new.items) }
{
    for pred in choices {
        add(marks, found, pred.state)?;
    }
    Ok(())
}

/// Takes the marks of these nodes away.
fn clear(marks: &mut Marks, nodes: &[u32])
    requires { All (λ s. s < length marks.old) nodes.now }
    ensures count { length marks.new ≡ length marks.old }
    ensures cleared { (s : ℕ) → slice_index_or marks.new s false ≡ (slice_index_or marks.old s false && not (is_among s nodes.now)) }
{
    for s in nodes {
        marks.set(*s, false);
    }
}

/// The nodes found in ascending order, without their marks.
fn finish(marks: &mut Marks, mut found: Vec<u32>) -> Vec<u32>
    requires { AreMarked marks.old found.items }
    ensures same { (s : ℕ) → is_among s result.items ≡ is_among s found.items }
    ensures in_range { All (λ s. s < length marks.old) result.items }
    ensures ascend { Ascend result.items }
    ensures marks { marks.new ≡ replicate (length marks.old) false }
{
    found.sort_unstable();
    clear(marks, &found);
    found
}

impl Dependents {
    /// Finds the nodes that come to those found by the policy.
    fn add_coming(
        &self,
        policy: &[u32],
        marks: &mut Marks,
        found: &mut Vec<u32>,
    ) -> Result<(), AllocError>
        requires policy { length policy.now ≡ length self.now }
        requires dependents { (t : ℕ) → All (λ p. p.state < length self.now) (slice_index_or self.now t []) }
        requires count { length marks.old ≡ length self.now }
        requires marked { AreMarked marks.old found.old.items }
        ensures count { OnOk result (length marks.new ≡ length marks.old) }
        ensures marked { OnOk result (AreMarked marks.new found.new.items) }
        ensures coming { OnOk result (AreComingTo self.now policy.now found.old.items found.new.items) }
    {
        let mut next = 0;
        while next < found.len() {
            let t = found[next];
            add_takers(marks, found, policy, self.of(t))?;
            next += 1;
        }
        Ok(())
    }

    /// Finds the nodes with a choice that depends on the value of one of these.
    fn add_dependents(
        &self,
        nodes: &[u32],
        marks: &mut Marks,
        found: &mut Vec<u32>,
    ) -> Result<(), AllocError>
        requires dependents { (t : ℕ) → All (λ p. p.state < length self.now) (slice_index_or self.now t []) }
        requires nodes { All (λ s. s < length self.now) nodes.now }
        requires count { length marks.old ≡ length self.now }
        requires marked { AreMarked marks.old found.old.items }
        ensures { OnOk result (AreAdded (depends_on_one self.now nodes.now) marks.old marks.new found.old.items found.new.items) }
    {
        for t in nodes {
            add_all(marks, found, self.of(*t))?;
        }
        Ok(())
    }

    /// The nodes that come to one of the changed ones by a policy with one choice for each node: the changed ones, and with a node each one whose
    /// choice depends on its value. They ascend. No mark may stand, and none does behind it; where memory is refused some may.
    pub(crate) fn coming_to(
        &self,
        alloc: Global,
        policy: &[u32],
        changed: &[u32],
        marks: &mut Marks,
    ) -> Result<Vec<u32>, AllocError>
        requires policy { length policy.now ≡ length self.now }
        requires dependents { (t : ℕ) → All (λ p. p.state < length self.now) (slice_index_or self.now t []) }
        requires changed { All (λ s. s < length self.now) changed.now }
        requires marks { marks.old ≡ replicate (length self.now) false }
        ensures found { IfOk result (λ found. AreComingTo self.now policy.now changed.now found.items) }
        ensures in_range { IfOk result (λ found. All (λ s. s < length self.now) found.items) }
        ensures ascend { IfOk result (λ found. Ascend found.items) }
        ensures marks { OnOk result (marks.new ≡ marks.old) }
    {
        let mut found = Vec::new(alloc);
        add_each(marks, &mut found, changed)?;
        self.add_coming(policy, marks, &mut found)?;
        Ok(finish(marks, found))
    }

    /// These nodes, and those with a choice that depends on the value of one of them. They ascend. No mark may stand, and none does behind it; where
    /// memory is refused some may.
    pub(crate) fn with_dependents(
        &self,
        alloc: Global,
        nodes: &[u32],
        marks: &mut Marks,
    ) -> Result<Vec<u32>, AllocError>
        requires dependents { (t : ℕ) → All (λ p. p.state < length self.now) (slice_index_or self.now t []) }
        requires nodes { All (λ s. s < length self.now) nodes.now }
        requires marks { marks.old ≡ replicate (length self.now) false }
        ensures found { IfOk result (λ found. AreWithDependents self.now nodes.now found.items) }
        ensures in_range { IfOk result (λ found. All (λ s. s < length self.now) found.items) }
        ensures ascend { IfOk result (λ found. Ascend found.items) }
        ensures marks { OnOk result (marks.new ≡ marks.old) }
    {
        let mut found = Vec::new(alloc);
        add_each(marks, &mut found, nodes)?;
        self.add_dependents(nodes, marks, &mut found)?;
        Ok(finish(marks, found))
    }
}
