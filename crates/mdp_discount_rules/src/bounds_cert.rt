ghost use Rattle.std.specs.Prelude.{◌≡◌, ◌<◌, ◌≤◌, ◌^◌, length, IsTrue};
ghost use Rattle.mdp_rows.specs.Name.{is_name};
ghost use Rattle.mdp_discount_rules.specs.Rules.{IsFactor};
ghost use Rattle.mdp_discount_rules.specs.BoundsCert.{is_init};

use crate::bounds::DiscountBounds;
use crate::bounds_init::InitialBounds;
use mdp_num::Frac;
use mdp_rows::Dir;

/// A certificate of bounds of the discounted reward: that the greatest, or the least, rewards of the reward model `name`, where a step later counts
/// `factor` times as much, lie between the values, and those of the policy too; with two values and a choice for each state, from 1 to 2^20 of
/// them. The factor is at least 0 and below 1; the name has 1 to 255 bytes without `"` and line feed; the initial state is one of the states,
/// and there is none where the model has none or more than one.
#[derive(Drop)]
pub struct DiscountBoundsCert {
    pub dir: Dir,
    pub name: Vec<u8>,
    pub factor: Frac,
    pub init: Option<InitialBounds>,
    pub bounds: DiscountBounds,
    pub ghost some: { 0 < length bounds.lower.items },
    pub ghost limit: { length bounds.lower.items ≤ 2 ^ 20 },
    pub ghost one_above: { length bounds.upper.items ≡ length bounds.lower.items },
    pub ghost one_each: { length bounds.choices.items ≡ length bounds.lower.items },
    pub ghost named: { IsTrue (is_name name.items) },
    pub ghost discount: { IsFactor factor },
    pub ghost inside: { IsTrue (is_init (length bounds.lower.items) init) },
}
