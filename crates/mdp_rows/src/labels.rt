ghost use Rattle.std.specs.{Prelude.{◌≡◌, ◌+◌, ◌-◌, ◌<◌, ◌≤◌, ◌^◌, length, sum_by, [], ◌∷◌, ◌++◌, IfOk, OnOk, OnErr}, List.{position_or_len}};
ghost use Rattle.std.specs.Str.{bytes_eq};
ghost use Rattle.mdp_rows.specs.Draft.{with_name};

use crate::state_labels::StateLabels;
use indexmap::IndexSet;
use std::alloc::{AllocError, Global};
use std::marker::Model;

/// The labels of the states while a model is made: names in order of first sight, and for each state the places of its labels, ascending.
#[derive(Drop)]
pub struct Labels {
    names: IndexSet<Vec<u8>>,
    starts: Vec<u32>,
    places: Vec<u32>,
    alloc: Global,
}

impl Model for Labels {
    ghost use Rattle.mdp_rows.specs.{Code.{labels_code}, Labelling.{Labelling}};

    ghost Value = { Labelling };

    ghost coded = { labels_code };

    ghost use Rattle.mdp_rows.specs.FlatLabels.{labels_in, AreLabels};

    ghost view = { labels_in };

    ghost invariant = { AreLabels };
}

impl Labels {
    /// No names and no states yet.
    pub fn new(alloc: Global) -> Result<Labels, AllocError>
        ensures { IfOk result (λ labels. labels ≡ record { names = []; of_state = [] }) }
    {
        let starts = vec![in alloc; 0]?;
        Ok(Labels {
            names: IndexSet::new(alloc),
            starts,
            places: Vec::new(alloc),
            alloc,
        })
    }

    /// Appends a state with the labels of these places. On `Err` the labels are as before.
    pub fn push_state(&mut self, places: &[u32]) -> Result<(), AllocError>
        requires few_states { length self.old.of_state < 2 ^ 32 - 2 }
        requires few_places { sum_by length self.old.of_state + length places.now < 2 ^ 32 }
        ensures appended { OnOk result (self.new ≡ record { names = self.old.names; of_state = self.old.of_state ++ places.now ∷ [] }) }
        ensures unchanged { OnErr result (self.new ≡ self.old) }
    {
        self.starts.reserve(1)?;
        self.places.extend_from_slice(places)?;
        self.starts.push(self.places.len() as u32)?;
        Ok(())
    }

    /// How many names there are with this one.
    pub fn names_with(&self, name: &[u8]) -> u32
        ensures { result ≡ length (with_name self.now.names name.now) }
    {
        let count = self.names.len() as u32;
        match self.names.get_index_of(name) {
            Some(_) => count,
            None => count + 1,
        }
    }

    /// The place of a name, which goes last where it is new. On `Err` the labels are as before.
    pub fn see_name(&mut self, name: &[u8]) -> Result<u32, AllocError>
        requires { length (with_name self.old.names name.now) ≤ 2 ^ 10 }
        ensures place { IfOk result (λ place. place ≡ position_or_len (bytes_eq name.now) self.old.names) }
        ensures seen { OnOk result (self.new ≡ record { names = with_name self.old.names name.now; of_state = self.old.of_state }) }
        ensures unchanged { OnErr result (self.new ≡ self.old) }
    {
        if let Some(place) = self.names.get_index_of(name) {
            return Ok(place as u32);
        }
        let (place, _) = self.names.insert_full(Vec::from_slice(self.alloc, name)?)?;
        Ok(place as u32)
    }

    /// How many states have their labels here.
    pub fn states(&self) -> u32
        ensures { result ≡ length self.now.of_state }
    {
        (self.starts.len() - 1) as u32
    }

    /// The same labels for a model, which looks names up without an index.
    pub fn into_state_labels(self) -> Result<StateLabels, AllocError>
        ensures { IfOk result (λ labels. labels ≡ self) }
    {
        let names = self.names.into_iter().collect(self.alloc)?;
        Ok(StateLabels {
            names,
            starts: self.starts,
            places: self.places,
        })
    }
}
