ghost use Rattle.std.specs.Prelude.{◌≡◌, ◌≤◌, ◌<◌, ◌++◌, ◌∷◌, ◌-◌, ℕ, [], true, false, length, slice_index, slice_set, replicate, IfOk, OnOk};
ghost use Rattle.std.specs.Prelude.{MatchOption};
ghost use Rattle.std.specs.List.{All};
ghost use Rattle.mdp_graph.specs.{Sets.{marked}, Edges.{AreEdges}};
ghost use Rattle.mdp_parts.specs.Searched.{AreMet, IsFirstUnmet, IsSearch, IsOrder, work_left};

use mdp_graph::Predecessors;
use mdp_rows::Marks;
use std::alloc::{AllocError, Global};

/// The first place from `from` on whose target wasn't met.
fn first_unmet(targets: &[u32], from: usize, met: &Marks) -> Option<usize>
    requires from { from ≤ length targets.now }
    requires in_range { All (λ t. t < length met.now) targets.now }
    ensures { MatchOption result (AreMet met.now targets.now from (length targets.now)) (λ i. IsFirstUnmet met.now targets.now from i) }
{
    for k in from..targets.len() {
        if !met.at(targets[k]) {
            return Some(k);
        }
    }
    None
}

/// A search in depth.
#[derive(Drop)]
struct Search {
    /// The states on the way from the root to the one that is looked at.
    pub way: Vec<u32>,
    /// For each state how many of its edges were looked at.
    pub next: Vec<usize>,
    /// The states that were met.
    pub met: Marks,
    /// The states that are done with, in that order.
    pub done: Vec<u32>,
}

impl Search {
    /// Nothing was met.
    fn new(alloc: Global, states: u32) -> Result<Search, AllocError>
        ensures way { IfOk result (λ search. search.way.items ≡ []) }
        ensures next { IfOk result (λ search. search.next.items ≡ replicate states 0) }
        ensures met { IfOk result (λ search. search.met ≡ replicate states false) }
        ensures done { IfOk result (λ search. search.done.items ≡ []) }
    {
        Ok(Search {
            way: Vec::new(alloc),
            next: vec![in alloc; 0; states as usize]?,
            met: Marks::from_values(vec![in alloc; false; states as usize]?),
            done: Vec::new(alloc),
        })
    }

    /// State `s` is met, and put on the way.
    fn enter(&mut self, s: u32) -> Result<(), AllocError>
        requires { s < length self.old.met }
        ensures way { OnOk result (self.new.way.items ≡ self.old.way.items ++ s ∷ []) }
        ensures next { self.new.next.items ≡ self.old.next.items }
        ensures met { self.new.met ≡ slice_set self.old.met s true }
        ensures done { self.new.done.items ≡ self.old.done.items }
    {
        self.met.set(s, true);
        self.way.push(s)?;
        Ok(())
    }

    /// Goes on with the last state on the way: to the first of its targets that wasn't met; where there is none, the state is done with.
    fn go_on(&mut self, edges: &Predecessors, top: u32) -> Result<(), AllocError>
        requires edges { AreEdges (length edges.now) edges.now }
        requires some { 0 < length self.old.way.items }
        requires last { top ≡ slice_index self.old.way.items (length self.old.way.items - 1) }
        requires search { IsSearch edges.now self.old.way.items self.old.next.items self.old.met self.old.done.items }
        ensures search { OnOk result (IsSearch edges.now self.new.way.items self.new.next.items self.new.met self.new.done.items) }
        ensures less { OnOk result (work_left self.new.way.items self.new.met < work_left self.old.way.items self.old.met) }
        ensures kept { OnOk result ((s : ℕ) → marked self.old.met s ≡ true → marked self.new.met s ≡ true) }
    {
        let targets = edges.of(top);
        match first_unmet(targets, self.next[top as usize], &self.met) {
            Some(k) => {
                self.enter(targets[k])?;
                self.next[top as usize] = k + 1;
            }
            None => {
                let _ = self.way.pop();
                self.done.push(top)?;
            }
        }
        Ok(())
    }

    /// Searches from `root` until nothing is left that it leads to and that wasn't met. The way is a stack on the heap.
    fn explore(&mut self, edges: &Predecessors, root: u32) -> Result<(), AllocError>
        requires edges { AreEdges (length edges.now) edges.now }
        requires root { root < length edges.now }
        requires unmet { marked self.old.met root ≡ false }
        requires begun { self.old.way.items ≡ [] }
        requires search { IsSearch edges.now self.old.way.items self.old.next.items self.old.met self.old.done.items }
        ensures ended { OnOk result (self.new.way.items ≡ []) }
        ensures search { OnOk result (IsSearch edges.now self.new.way.items self.new.next.items self.new.met self.new.done.items) }
        ensures met { OnOk result (marked self.new.met root ≡ true) }
        ensures kept { OnOk result ((s : ℕ) → marked self.old.met s ≡ true → marked self.new.met s ≡ true) }
    {
        self.enter(root)?;
        while !self.way.is_empty() {
            let top = self.way[self.way.len() - 1];
            self.go_on(edges, top)?;
        }
        Ok(())
    }
}

/// The states in the order in which a search in depth is done with them.
pub(crate) fn depth_order(
    alloc: Global,
    edges: &Predecessors,
    states: u32,
) -> Result<Vec<u32>, AllocError>
    requires states { length edges.now ≡ states }
    requires edges { AreEdges (length edges.now) edges.now }
    ensures { IfOk result (λ order. IsOrder edges.now order.items) }
{
    let mut search = Search::new(alloc, states)?;
    for root in 0..states {
        if !search.met.at(root) {
            search.explore(edges, root)?;
        }
    }
    Ok(search.done)
}
