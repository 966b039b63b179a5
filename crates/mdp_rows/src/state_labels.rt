ghost use Rattle.std.specs.Prelude.{◌≡◌, ◌<◌, [], length, slice_index_or};
ghost use Rattle.mdp_spec.specs.Labels.{place_of};

use crate::choices::place_in;
use std::marker::Model;

/// The labels of a model's states: names in order of first sight, at most 1,024, and for each state the places of its labels, ascending.
#[derive(Drop)]
pub struct StateLabels {
    pub(crate) names: Vec<Vec<u8>>,
    pub(crate) starts: Vec<u32>,
    pub(crate) places: Vec<u32>,
}

impl Model for StateLabels {
    ghost use Rattle.mdp_rows.specs.{Code.{labels_code}, Labelling.{Labelling}};

    ghost Value = { Labelling };

    ghost coded = { labels_code };

    ghost use Rattle.mdp_rows.specs.FlatStateLabels.{state_labels_in, AreStateLabels};

    ghost view = { state_labels_in };

    ghost invariant = { AreStateLabels };
}

impl StateLabels {
    /// How many names there are.
    pub fn names(&self) -> u32
        ensures { result ≡ length self.now.names }
    {
        self.names.len() as u32
    }

    /// The name of place `l`.
    pub fn name(&self, l: u32) -> &[u8]
        requires { l < length self.now.names }
        ensures { result.now ≡ slice_index_or self.now.names l [] }
    {
        &self.names[l as usize]
    }

    /// The place of a name.
    pub fn place(&self, name: &[u8]) -> Option<u32>
        ensures { result ≡ place_of name.now self.now.names }
    {
        let place = place_in(&self.names, name)?;
        Some(place as u32)
    }

    /// The places of the labels of state `s`, ascending.
    pub fn labels_of(&self, s: u32) -> &[u32]
        requires { s < length self.now.of_state }
        ensures { result.now ≡ slice_index_or self.now.of_state s [] }
    {
        let start = self.starts[s as usize] as usize;
        let end = self.starts[s as usize + 1] as usize;
        let places = self.places.as_slice();
        &places[start..end]
    }
}
