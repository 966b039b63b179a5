ghost use Rattle.std.specs.Prelude.{◌≡◌, ◌<◌, ◌≤◌, ◌^◌, length, IsTrue};
ghost use Rattle.mdp_rows.specs.Name.{is_name};
ghost use Rattle.mdp_discount_rules.specs.{Rules.{IsFactor}, Cert.{is_init}};

use mdp_num::Frac;
use mdp_rows::Dir;
use mdp_text::Init;

/// A certificate of the discounted reward: that these are the greatest, or the least, rewards of the reward model `name` where a step later counts
/// `factor` times as much, with a value and a choice for each state, from 1 to 2^20 of them. After n steps no policy is better than the values by
/// more than `remainder` times `factor` to the n. The factor is at least 0 and below 1; the name has 1 to 255 bytes without `"` and line feed; the
/// initial state is one of the states, and its value isn't infinite.
#[derive(Drop)]
pub struct DiscountCert {
    pub dir: Dir,
    pub name: Vec<u8>,
    pub factor: Frac,
    pub init: Init,
    pub remainder: Frac,
    pub values: Vec<Frac>,
    pub choices: Vec<u32>,
    pub ghost some: { 0 < length values.items },
    pub ghost limit: { length values.items ≤ 2 ^ 20 },
    pub ghost one_each: { length choices.items ≡ length values.items },
    pub ghost named: { IsTrue (is_name name.items) },
    pub ghost discount: { IsFactor factor },
    pub ghost inside: { IsTrue (is_init (length values.items) init) },
}
