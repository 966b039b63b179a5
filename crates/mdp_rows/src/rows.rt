ghost use Rattle.std.specs.{Prelude.{◌≡◌, ◌+◌, ◌-◌, ◌<◌, ◌^◌, ◌++◌, ◌∷◌, [], length, map, sum_by, slice_index_or, IfOk, OnOk, OnErr}, List.{All}};
ghost use Rattle.mdp_rows.specs.{Draft.{kept}, Given.{row_of, kept_given}};
ghost use Rattle.mdp_spec.specs.Row.{entries, IsDistribution};

use crate::given::Given;
use crate::row::Row;
use crate::terms::num_of;
use mdp_num::Frac;
use std::alloc::{AllocError, Global};
use std::marker::Model;

/// Appends the entries whose values aren't 0. On `Err` both vectors are as before.
fn append_kept(
    targets: &mut Vec<u32>,
    probs: &mut Vec<Frac>,
    row: &[Given],
) -> Result<(), AllocError>
    ensures targets { OnOk result (targets.new.items ≡ targets.old.items ++ map (λ g. g.target) (kept_given row.now)) }
    ensures probs { OnOk result (probs.new.items ≡ probs.old.items ++ map (λ g. g.value) (kept_given row.now)) }
    ensures unchanged { OnErr result ((targets.new.items ≡ targets.old.items) × (probs.new.items ≡ probs.old.items)) }
{
    targets.reserve(row.len())?;
    probs.reserve(row.len())?;
    for given in row {
        if num_of(&given.value) != 0 {
            targets.push(given.target)?;
            probs.push(given.value)?;
        }
    }
    Ok(())
}

/// Rows one after the other: the targets and the probabilities of all of them in a vector each, and where each row starts.
#[derive(Drop)]
pub struct Rows {
    starts: Vec<u32>,
    targets: Vec<u32>,
    probs: Vec<Frac>,
}

impl Model for Rows {
    ghost use Rattle.std.specs.Prelude.{List};
    ghost use Rattle.mdp_spec.specs.Mdp.{Entry};
    ghost use Rattle.mdp_rows.specs.Code.{rows_code};

    ghost Value = { List (List Entry) };

    ghost coded = { rows_code };

    ghost use Rattle.mdp_rows.specs.FlatRows.{rows_in, AreRows};

    ghost view = { rows_in };

    ghost invariant = { AreRows };
}

impl Rows {
    /// No rows yet.
    pub fn new(alloc: Global) -> Result<Rows, AllocError>
        ensures { IfOk result (λ rows. rows ≡ []) }
    {
        Ok(Rows {
            starts: vec![in alloc; 0]?,
            targets: Vec::new(alloc),
            probs: Vec::new(alloc),
        })
    }

    /// Appends a row, without its entries of value 0. On `Err` the rows are as before.
    pub fn push_row(&mut self, row: &[Given]) -> Result<(), AllocError>
        requires distribution { IsDistribution (kept (row_of row.now)) }
        requires few_rows { length self.old < 2 ^ 32 - 2 }
        requires few_entries { sum_by length self.old + length row.now < 2 ^ 32 }
        ensures appended { OnOk result (self.new ≡ self.old ++ kept (row_of row.now) ∷ []) }
        ensures unchanged { OnErr result (self.new ≡ self.old) }
    {
        self.starts.reserve(1)?;
        append_kept(&mut self.targets, &mut self.probs, row)?;
        self.starts.push(self.targets.len() as u32)?;
        Ok(())
    }

    /// What each row keeps.
    pub fn known(&self)
        ensures { All IsDistribution self.now }
    {
        let _ = &self.starts;
    }

    /// How many rows there are.
    pub fn len(&self) -> u32
        ensures { result ≡ length self.now }
    {
        (self.starts.len() - 1) as u32
    }

    /// Row `i`.
    pub fn row(&self, i: u32) -> Row<'_>
        requires { i < length self.now }
        ensures { entries result.targets.now result.probs.now ≡ slice_index_or self.now i [] }
    {
        let start = self.starts[i as usize] as usize;
        let end = self.starts[i as usize + 1] as usize;
        let targets = self.targets.as_slice();
        let probs = self.probs.as_slice();
        Row {
            targets: &targets[start..end],
            probs: &probs[start..end],
        }
    }
}
