ghost use Rattle.std.specs.{Prelude.{ℕ, ◌≡◌, ◌≢◌, ◌<◌, ◌≤◌, ◌++◌, ◌∷◌, [], length, map, slice_index, slice_set, None, IfOk, OnOk, pos}, List.{All}};
ghost use Rattle.mdp_math.specs.{Rational.{of_int, ◌+ℚ◌}, Written.{written_add}};
ghost use Rattle.mdp_num.specs.Numeral.{limit};
ghost use Rattle.mdp_spec.specs.{Mdp.{value_at}, Row.{entries}, Unit.{row_den}};
ghost use Rattle.mdp_ends.specs.Quotient.{merged};
ghost use Rattle.mdp_quot.specs.Sums.{AreSums, IsClear};

use bumpalo::Bump;
use mdp_num::Frac;
use mdp_rows::Row;
use std::alloc::{AllocError, Global};

/// The sum of a row's entries to each node, 0 where there is none, and the nodes whose sum is above 0.
#[derive(Drop)]
pub(crate) struct Sums {
    pub(crate) sums: Vec<Frac>,
    pub(crate) seen: Vec<u32>,
}

/// The sums at these nodes.
fn sums_at(alloc: Global, sums: &[Frac], nodes: &[u32]) -> Result<Vec<Frac>, AllocError>
    requires { All (λ q. q < length sums.now) nodes.now }
    ensures { IfOk result (λ probs. probs.items ≡ map (value_at sums.now) nodes.now) }
{
    let mut probs = Vec::with_capacity(alloc, nodes.len())?;
    for q in nodes {
        probs.push(sums[*q as usize])?;
    }
    Ok(probs)
}

impl Sums {
    /// No entries yet, over so many nodes.
    pub(crate) fn new(alloc: Global, nodes: u32) -> Result<Sums, AllocError>
        ensures { IfOk result (λ s. IsClear nodes s.sums.items s.seen.items) }
    {
        Ok(Sums {
            sums: vec![in alloc; Frac::whole(0); nodes as usize]?,
            seen: Vec::new(alloc),
        })
    }

    /// Adds an entry to a node.
    fn add(&mut self, node: u32, prob: &Frac) -> Result<(), AllocError>
        requires node { node < length self.old.sums.items }
        requires fits { written_add (value_at self.old.sums.items node) prob.now ≢ None }
        ensures sums { OnOk result (self.new.sums.items ≡ slice_set self.old.sums.items node (value_at self.old.sums.items node +ℚ prob.now)) }
        ensures first { OnOk result (value_at self.old.sums.items node ≡ of_int (pos 0) → self.new.seen.items ≡ self.old.seen.items ++ node ∷ []) }
        ensures later { OnOk result (value_at self.old.sums.items node ≢ of_int (pos 0) → self.new.seen.items ≡ self.old.seen.items) }
    {
        let sum = self.sums[node as usize];
        if sum == Frac::whole(0) {
            self.seen.push(node)?;
        }
        self.sums[node as usize] = sum.add(prob).unwrap();
        Ok(())
    }

    /// Adds each entry of a row, by the node of its target.
    fn add_row(&mut self, nodes: &[u32], row: Row<'_>) -> Result<(), AllocError>
        requires clear { IsClear (length self.old.sums.items) self.old.sums.items self.old.seen.items }
        requires targets { All (λ t. t < length nodes.now) row.targets.now }
        requires nodes { All (λ q. q < length self.old.sums.items) nodes.now }
        requires width { row_den (entries row.targets.now row.probs.now) ≤ limit }
        ensures { OnOk result (AreSums (length self.old.sums.items) (slice_index nodes.now)
            (entries row.entry.targets.now row.entry.probs.now) self.new.sums.items self.new.seen.items) }
    {
        for i in 0..row.targets.len() {
            self.add(nodes[row.targets[i] as usize], &row.probs[i])?;
        }
        Ok(())
    }

    /// Makes all sums 0.
    fn clear(&mut self)
        requires { All (λ q. q < length self.old.sums.items) self.old.seen.items }
        ensures none { self.new.seen.items ≡ [] }
        ensures count { length self.new.sums.items ≡ length self.old.sums.items }
        ensures cleared { (k : ℕ) → k < length self.old.seen.items → value_at self.new.sums.items (slice_index self.old.seen.items k)
            ≡ of_int (pos 0) }
        ensures same { (q : ℕ) → value_at self.old.sums.items q ≡ of_int (pos 0) → value_at self.new.sums.items q ≡ of_int (pos 0) }
    {
        for i in 0..self.seen.len() {
            self.sums[self.seen[i] as usize] = Frac::whole(0);
        }
        self.seen.clear();
    }

    /// The row over nodes that a row of the model makes, in the arena: at each node the sum of the entries to its states. There are no entries before
    /// and after it.
    pub(crate) fn merge<'b>(
        &mut self,
        alloc: Global,
        arena: &'b Bump,
        nodes: &[u32],
        row: Row<'_>,
    ) -> Result<Row<'b>, AllocError>
        requires clear { IsClear (length self.old.sums.items) self.old.sums.items self.old.seen.items }
        requires targets { All (λ t. t < length nodes.now) row.targets.now }
        requires nodes { All (λ q. q < length self.old.sums.items) nodes.now }
        requires width { row_den (entries row.targets.now row.probs.now) ≤ limit }
        ensures row { IfOk result (λ r. entries r.targets.now r.probs.now
            ≡ merged (length self.old.sums.items) (slice_index nodes.now) (entries row.entry.targets.now row.entry.probs.now)) }
        ensures clear { OnOk result (IsClear (length self.old.sums.items) self.new.sums.items self.new.seen.items) }
        ensures in_range { IfOk result (λ r. All (λ q. q < length self.old.sums.items) r.targets.now) }
    {
        self.add_row(nodes, row)?;
        self.seen.sort()?;
        let probs = sums_at(alloc, &self.sums, &self.seen)?;
        let targets = arena.try_alloc_slice_copy(&self.seen)?;
        let probs = arena.try_alloc_slice_copy(&probs)?;
        self.clear();
        Ok(Row { targets, probs })
    }
}
