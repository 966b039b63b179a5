ghost use Rattle.std.specs.Prelude.{◌<◌, length};
ghost use Rattle.mdp_spec.specs.Row.{IsMdp};
ghost use Rattle.mdp_ends.specs.Ends.{count_of};
ghost use Rattle.mdp_parts.specs.FoundEnds.{AreEndsOf};

use mdp_parts::Ends;
use mdp_rows::{Dir, Model};

/// One maximal end component of a model, the reward name of place `name`, and whether the greatest or the least gain is meant.
#[derive(Clone, Copy)]
pub(crate) struct EndComponent<'a> {
    pub(crate) dir: Dir,
    pub(crate) model: &'a Model,
    pub(crate) ends: &'a Ends,
    pub(crate) number: u32,
    pub(crate) name: u32,
    pub(crate) ghost mdp: { IsMdp model.now },
    pub(crate) ghost found: { ∥ AreEndsOf model.now ends.now ∥₁ },
    pub(crate) ghost below: { number < count_of ends.now.parts },
    pub(crate) ghost named: { name < length model.now.names },
}
