ghost use Rattle.std.specs.Prelude.{◌<◌};
ghost use Rattle.mdp_spec.specs.Mdp.{states_of};

use mdp_rows::Model;

/// How many entries of rows attempts may still look at.
#[derive(Clone, Copy)]
pub(crate) struct Room {
    entries: u64,
}

/// How many entries the rows of a state have.
fn entries_at(model: &Model, s: u32) -> u64
    requires { s < states_of model.now }
{
    let mut entries = 0u64;
    for c in 0..model.choices(s) {
        entries = entries.saturating_add(model.row(s, c).targets.len() as u64);
    }
    entries
}

/// How many entries the rows of a model have.
fn entries_of(model: &Model) -> u64 {
    let mut entries = 0u64;
    for s in 0..model.states() {
        entries = entries.saturating_add(entries_at(model, s));
    }
    entries
}

impl Room {
    /// Room for so many entries, and for those of a model so many times.
    pub(crate) fn of(model: &Model, entries: u64, passes: u64) -> Room {
        let more = entries_of(model).saturating_mul(passes);
        Room {
            entries: entries.saturating_add(more),
        }
    }

    /// No room.
    pub(crate) fn none() -> Room {
        Room { entries: 0 }
    }

    /// Whether there is none left.
    pub(crate) fn is_spent(&self) -> bool {
        self.entries == 0
    }

    /// Takes the room of an attempt on a model.
    pub(crate) fn take(&mut self, model: &Model) {
        self.entries = self.entries.saturating_sub(entries_of(model));
    }
}
