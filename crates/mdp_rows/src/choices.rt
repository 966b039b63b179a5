ghost use Rattle.std.specs.Prelude.{◌≡◌, ◌+◌, ◌<◌, ◌-◌, ◌^◌, ◌++◌, ◌∷◌, [], length, map, sum_by, slice_index_or, IfOk, OnOk, OnErr};
ghost use Rattle.std.specs.List.{All, position};
ghost use Rattle.std.specs.Str.{bytes_eq};
ghost use Rattle.mdp_rows.specs.{ChoiceTable.{IsChoice}, Draft.{kept}, Given.{row_of}, Name.{AreRewardNames}};
ghost use Rattle.mdp_spec.specs.{Labels.{place_of}, Mdp.{no_choice}, Row.{entries, IsDistribution}, Unit.{reward_of}};

use crate::given::Given;
use crate::row::Row;
use crate::rows::Rows;
use mdp_num::Frac;
use std::alloc::{AllocError, Global};
use std::marker::Model;

/// The place of a name among these.
pub(crate) fn place_in(names: &[Vec<u8>], name: &[u8]) -> Option<usize>
    ensures { result ≡ position (λ v. bytes_eq name.now v.items) names.now }
{
    for m in 0..names.len() {
        if name == names[m].as_slice() {
            return Some(m);
        }
    }
    None
}

/// The choices of all states one after the other: their rows, and the rewards of all of them in one vector, one for each name.
#[derive(Drop)]
pub struct Choices {
    names: Vec<Vec<u8>>,
    rows: Rows,
    rewards: Vec<Frac>,
}

impl Model for Choices {
    ghost use Rattle.mdp_rows.specs.{ChoiceTable.{ChoiceTable}, Code.{table_code}};

    ghost Value = { ChoiceTable };

    ghost coded = { table_code };

    ghost use Rattle.mdp_rows.specs.FlatChoices.{table_in, AreChoices};

    ghost view = { table_in };

    ghost invariant = { AreChoices };
}

impl Choices {
    /// No choices yet, under these reward names.
    pub fn new(alloc: Global, names: Vec<Vec<u8>>) -> Result<Choices, AllocError>
        requires { AreRewardNames (map (λ n. n.items) names.items) }
        ensures { IfOk result (λ choices. choices ≡ record { names = map (λ n. n.items) names.items; choices = [] }) }
    {
        Ok(Choices {
            names,
            rows: Rows::new(alloc)?,
            rewards: Vec::new(alloc),
        })
    }

    /// Appends a choice: its row, without its entries of value 0, and its rewards. On `Err` the choices are as before.
    pub fn push(&mut self, row: &[Given], rewards: &[Frac]) -> Result<(), AllocError>
        requires distribution { IsDistribution (kept (row_of row.now)) }
        requires one_each { length rewards.now ≡ length self.old.names }
        requires few_rows { length self.old.choices < 2 ^ 32 - 2 }
        requires few_entries { sum_by (λ c. length c.row) self.old.choices + length row.now < 2 ^ 32 }
        ensures appended { OnOk result (self.new ≡ record {
          names = self.old.names;
          choices = self.old.choices
              ++ record { row = kept (row_of row.now); rewards = rewards.now } ∷ [];
        }) }
        ensures unchanged { OnErr result (self.new ≡ self.old) }
    {
        self.rewards.reserve(rewards.len())?;
        self.rows.push_row(row)?;
        self.rewards.extend_from_slice(rewards)?;
        Ok(())
    }

    /// What the choices keep.
    pub fn known(&self)
        ensures names { AreRewardNames self.now.names }
        ensures choices { All (IsChoice (length self.now.names)) self.now.choices }
    {
        self.rows.known();
    }

    /// How many choices there are.
    pub fn len(&self) -> u32
        ensures { result ≡ length self.now.choices }
    {
        self.rows.len()
    }

    /// The row of choice `i`.
    pub fn row(&self, i: u32) -> Row<'_>
        requires { i < length self.now.choices }
        ensures { entries result.targets.now result.probs.now ≡ (slice_index_or self.now.choices i no_choice).row }
    {
        self.rows.row(i)
    }

    /// The reward of choice `i` under the name of place `m`.
    pub fn reward(&self, m: u32, i: u32) -> Frac
        requires name { m < length self.now.names }
        requires choice { i < length self.now.choices }
        ensures { result ≡ reward_of (slice_index_or self.now.choices i no_choice) m }
    {
        self.rewards[i as usize * self.names.len() + m as usize]
    }

    /// How many reward names there are.
    pub fn names(&self) -> u32
        ensures { result ≡ length self.now.names }
    {
        self.names.len() as u32
    }

    /// The reward name of place `m`.
    pub fn name(&self, m: u32) -> &[u8]
        requires { m < length self.now.names }
        ensures { result.now ≡ slice_index_or self.now.names m [] }
    {
        &self.names[m as usize]
    }

    /// The place of a reward name.
    pub fn place(&self, name: &[u8]) -> Option<u32>
        ensures { result ≡ place_of name.now self.now.names }
    {
        let place = place_in(&self.names, name)?;
        Some(place as u32)
    }
}
