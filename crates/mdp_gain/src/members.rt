ghost use Rattle.std.specs.Prelude.{◌≡◌, ◌<◌, ◌^◌, ◌++◌, ◌∷◌, [], Ok, length, replicate, IfOk, OnOk};
ghost use Rattle.mdp_parts.specs.FoundEnds.{AreEndsOf};
ghost use Rattle.mdp_gain.specs.FoundMembers.{list_of, with_state, HasRoom, AreMembersOf};

use mdp_parts::Ends;
use mdp_rows::Model;
use std::alloc::{AllocError, Global};

/// States, in the order in which they were added.
#[derive(Drop)]
struct States {
    items: Vec<u32>,
}

impl std::marker::Model for States {
    ghost use Rattle.std.specs.Prelude.{ℕ, List};

    ghost Value = { List ℕ };

    ghost view = { λ x. x.items.items };
}

impl States {
    fn none(alloc: Global) -> States
        ensures { result ≡ [] }
    {
        States {
            items: Vec::new(alloc),
        }
    }

    /// Adds a state, and gives its place.
    fn push(&mut self, s: u32) -> Result<u32, AllocError>
        requires { length self.old < 2 ^ 32 }
        ensures place { IfOk result (λ place. place ≡ length self.old) }
        ensures pushed { OnOk result (self.new ≡ self.old ++ s ∷ []) }
    {
        let place = self.items.len() as u32;
        self.items.push(s)?;
        Ok(place)
    }

    fn as_slice(&self) -> &[u32]
        ensures { result.now ≡ self.now }
    {
        self.items.as_slice()
    }
}

/// The states of each end component, ascending, and for each state its place among those of its end component: 0 for a state in none.
#[derive(Drop)]
pub struct Members {
    lists: Vec<States>,
    places: Vec<u32>,
}

impl std::marker::Model for Members {
    ghost use Rattle.mdp_gain.specs.FoundMembers.{FoundMembers};

    ghost Value = { FoundMembers };

    ghost view = { λ x. record { lists = x.lists.items; places = x.places.items } };
}

/// So many empty lists.
fn empty_lists(alloc: Global, count: u32) -> Result<Vec<States>, AllocError>
    ensures { IfOk result (λ lists. lists.items ≡ replicate count []) }
{
    let mut lists = Vec::with_capacity(alloc, count as usize)?;
    for _ in 0..count {
        lists.push(States::none(alloc))?;
    }
    Ok(lists)
}

impl Members {
    /// The states of end component `i`, ascending.
    pub fn of(&self, i: u32) -> &[u32]
        requires { i < length self.now.lists }
        ensures { result.now ≡ list_of self.now i }
    {
        self.lists[i as usize].as_slice()
    }

    /// For each state its place among those of its end component.
    pub fn places(&self) -> &[u32]
        ensures { result.now ≡ self.now.places }
    {
        self.places.as_slice()
    }

    /// So many end components, no state yet.
    fn none(alloc: Global, parts: u32, states: u32) -> Result<Members, AllocError>
        ensures { IfOk result (λ x. x ≡ record { lists = replicate parts []; places = [] }) }
    {
        Ok(Members {
            lists: empty_lists(alloc, parts)?,
            places: Vec::with_capacity(alloc, states as usize)?,
        })
    }

    /// Adds the next state, one of this end component where there is one.
    fn add(&mut self, s: u32, part: Option<u32>) -> Result<(), AllocError>
        requires { HasRoom self.old part }
        ensures { OnOk result (self.new ≡ with_state self.old s part) }
    {
        let place = match part {
            Some(i) => self.lists[i as usize].push(s)?,
            None => 0,
        };
        self.places.push(place)?;
        Ok(())
    }
}

/// Sorts the states of a model into its end components, by one pass over the states.
pub fn members_of(alloc: Global, model: &Model, ends: &Ends) -> Result<Members, AllocError>
    requires { AreEndsOf model.now ends.now }
    ensures { IfOk result (λ found. AreMembersOf model.now ends.now.parts found) }
{
    model.known();
    let mut members = Members::none(alloc, ends.count(), model.states())?;
    for s in 0..model.states() {
        members.add(s, ends.of(s))?;
    }
    Ok(members)
}
