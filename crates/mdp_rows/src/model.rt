ghost use Rattle.std.specs.{Prelude.{◌≡◌, ◌<◌, [], length, sum_by, slice_index_or, IfOk, codes}, List.{All}};
ghost use Rattle.mdp_spec.specs.{Mdp.{states_of, state_at, choices_at, row_at, has_label, no_choice}, Unit.{reward_of}, Row.{entries, IsMdp}};
ghost use Rattle.mdp_spec.specs.Labels.{place_of, marks_of, initial_of};
ghost use Rattle.mdp_rows.specs.{Limits.{IsModel}, Negative.{any_negative, has_negative}};

use crate::choices::Choices;
use crate::marks::Marks;
use crate::row::Row;
use crate::state_labels::StateLabels;
use mdp_num::{Frac, Memory};
use std::alloc::{AllocError, Global};

/// A Markov decision process. States are numbered from 0, and so are the choices of each state.
#[derive(Drop)]
pub struct Model {
    pub(crate) choices: Choices,
    pub(crate) starts: Vec<u32>,
    pub(crate) labels: StateLabels,
}

impl std::marker::Model for Model {
    ghost use Rattle.mdp_spec.specs.Mdp.{Mdp};
    ghost use Rattle.mdp_rows.specs.Code.{mdp_code};

    ghost Value = { Mdp };

    ghost coded = { mdp_code };

    ghost use Rattle.mdp_rows.specs.FlatModel.{mdp_in, IsFlat};

    ghost view = { mdp_in };

    ghost invariant = { IsFlat };
}

impl Model {
    /// What each model keeps.
    pub fn known(&self)
        ensures mdp { IsMdp self.now }
        ensures model { IsModel self.now }
    {
        self.choices.known();
    }

    /// How many states there are.
    pub fn states(&self) -> u32
        ensures { result ≡ states_of self.now }
    {
        (self.starts.len() - 1) as u32
    }

    /// How many choices state `s` has.
    pub fn choices(&self, s: u32) -> u32
        requires { s < states_of self.now }
        ensures { result ≡ length (choices_at self.now s) }
    {
        self.starts[s as usize + 1] - self.starts[s as usize]
    }

    /// How many choices all states have together.
    pub fn all_choices(&self) -> u32
        ensures { result ≡ sum_by (λ x. length x.choices) self.now.states }
    {
        self.choices.len()
    }

    /// The row of choice `c` at state `s`.
    pub fn row(&self, s: u32, c: u32) -> Row<'_>
        requires state { s < states_of self.now }
        requires choice { c < length (choices_at self.now s) }
        ensures row { entries result.targets.now result.probs.now ≡ row_at self.now s c }
        ensures in_range { All (λ t. t < states_of self.now) result.targets.now }
    {
        self.choices.row(self.starts[s as usize] + c)
    }

    /// How many reward names there are.
    pub fn names(&self) -> u32
        ensures { result ≡ length self.now.names }
    {
        self.choices.names()
    }

    /// The reward name of place `m`.
    pub fn name(&self, m: u32) -> &[u8]
        requires { m < length self.now.names }
        ensures { result.now ≡ slice_index_or self.now.names m [] }
    {
        self.choices.name(m)
    }

    /// The place of a reward name, by its bytes.
    pub fn reward_named(&self, name: &[u8]) -> Option<u32>
        ensures { result ≡ place_of name.now self.now.names }
    {
        self.choices.place(name)
    }

    /// The reward of state `s` and its choice `c` together, under the reward name of place `m`.
    pub fn reward(&self, m: u32, s: u32, c: u32) -> Frac
        requires name { m < length self.now.names }
        requires state { s < states_of self.now }
        requires choice { c < length (choices_at self.now s) }
        ensures { result ≡ reward_of (slice_index_or (choices_at self.now s) c no_choice) m }
    {
        self.choices.reward(m, self.starts[s as usize] + c)
    }

    /// Whether a choice of state `s` has a reward below 0 under the name of place `m`.
    fn is_negative_at(&self, m: u32, s: u32) -> bool
        requires name { m < length self.now.names }
        requires state { s < states_of self.now }
        ensures { result ≡ any_negative m (choices_at self.now s) }
    {
        for c in 0..self.choices(s) {
            if self.reward(m, s, c).sign() < 0 {
                return true;
            }
        }
        false
    }

    /// Whether some choice has a reward below 0 under the reward name of place `m`. It looks at each choice once at most.
    pub fn negative(&self, m: u32) -> bool
        requires { m < length self.now.names }
        ensures { result ≡ has_negative self.now m }
    {
        for s in 0..self.states() {
            if self.is_negative_at(m, s) {
                return true;
            }
        }
        false
    }

    /// How many labels there are.
    pub fn labels(&self) -> u32
        ensures { result ≡ length self.now.labels }
    {
        self.labels.names()
    }

    /// The label of place `l`, in the order of first sight.
    pub fn label_name(&self, l: u32) -> &[u8]
        requires { l < length self.now.labels }
        ensures { result.now ≡ slice_index_or self.now.labels l [] }
    {
        self.labels.name(l)
    }

    /// The place of a label in the order of first sight, by the bytes of its name.
    pub fn label(&self, name: &[u8]) -> Option<u32>
        ensures { result ≡ place_of name.now self.now.labels }
    {
        self.labels.place(name)
    }

    /// The places of the labels of state `s`, ascending.
    pub fn labels_of(&self, s: u32) -> &[u32]
        requires { s < states_of self.now }
        ensures { result.now ≡ (state_at self.now s).labels }
    {
        self.labels.labels_of(s)
    }

    /// Whether state `s` has the label of place `l`.
    pub fn has(&self, l: u32, s: u32) -> bool
        requires { s < states_of self.now }
        ensures { result ≡ has_label self.now l s }
    {
        self.labels_of(s).contains(&l)
    }

    /// The one state with the label `init`; none where there isn't exactly one.
    pub fn initial(&self) -> Option<u32>
        ensures { result ≡ initial_of self.now }
    {
        let init = self.label(b"init")?;
        let mut first = None;
        let mut more = false;
        for s in 0..self.states() {
            if self.has(init, s) {
                if first.is_some() {
                    more = true;
                } else {
                    first = Some(s);
                }
            }
        }
        if more { None } else { first }
    }

    /// Which states have the label of place `l`.
    pub fn marks_of(&self, alloc: Global, l: u32) -> Result<Marks, Memory>
        ensures { IfOk result (λ marks. marks ≡ marks_of self.now l) }
    {
        Ok(Marks::from_values(self.values_of(alloc, l)?))
    }

    fn values_of(&self, alloc: Global, l: u32) -> Result<Vec<bool>, AllocError>
        ensures { IfOk result (λ values. values.items ≡ marks_of self.now l) }
    {
        let mut values = Vec::with_capacity(alloc, self.states() as usize)?;
        for s in 0..self.states() {
            values.push(self.has(l, s))?;
        }
        Ok(values)
    }
}
