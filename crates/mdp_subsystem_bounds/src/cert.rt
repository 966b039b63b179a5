ghost use Rattle.std.specs.Prelude.{◌≡◌, ◌<◌, ◌≤◌, ◌^◌, length, IsTrue, All, option_map};
ghost use Rattle.std.proofs.Math.ListN.{replicate};
ghost use Rattle.mdp_rows.specs.declared.dir.Dir.TheVariants.{Min};
ghost use Rattle.mdp_cert.specs.Cert.{witness, are_names, is_at_least_zero};
ghost use Rattle.mdp_farkas.specs.Compare.{1ℚ};

use crate::lists::SubsystemBounds;
use mdp_num::Frac;
use mdp_rows::Dir;
use mdp_text::{all_narrow, all_short};

/// A certificate of bounds of a subsystem: on the kept states alone the greatest, or the least, probability of reaching the label from the initial
/// state `start` is at least the threshold, by way of states with the label `stay` alone where there is one. There are 1 to 2^20 states with one of
/// each list; the names have 1 to 255 bytes without `"` and line feed; the threshold is at least 0, and the initial state is one of the states.
#[derive(Drop)]
pub struct SubsystemBoundsCert {
    pub dir: Dir,
    pub stay: Option<Vec<u8>>,
    pub label: Vec<u8>,
    pub threshold: Frac,
    pub start: u32,
    pub lists: SubsystemBounds,
    pub ghost some: { 0 < length lists.bounds.lower.items },
    pub ghost limit: { length lists.bounds.lower.items ≤ 2 ^ 20 },
    pub ghost ones: { lists.bounds.upper.items ≡ replicate (length lists.bounds.lower.items) 1ℚ },
    pub ghost choice_each: { length lists.bounds.choices.items ≡ length lists.bounds.lower.items },
    pub ghost rank_each: { length lists.bounds.ranks.items ≡ length lists.bounds.lower.items },
    pub ghost mark_each: { length lists.marks.items ≡ length lists.bounds.lower.items },
    pub ghost names: { IsTrue (are_names (witness dir (option_map (λ name. name.items) stay) label.items threshold)) },
    pub ghost at_least_zero: { IsTrue (is_at_least_zero threshold) },
    pub ghost inside: { start < length lists.bounds.lower.items },
    pub ghost named: { dir ≡ Min → All (λ c. c ≡ 0) lists.bounds.choices.items },
}

impl SubsystemBoundsCert {
    ghost use Rattle.mdp_subsystem_bounds.specs.{Cert.{Fits}, Plain.{plain}};

    /// What each certificate keeps: it has a text, and `subsystem_bounds_text_law` says that this is read as the certificate.
    pub fn known(&self)
        ensures fits { Fits (plain self.now) }
    {
        all_narrow(&self.lists.bounds.lower);
        all_short(&self.lists.bounds.choices);
        all_short(&self.lists.bounds.ranks);
        self.threshold.num();
    }
}
