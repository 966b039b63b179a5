ghost use Rattle.std.specs.{Prelude.{◌≡◌, ◌<◌, ◌^◌, length, pos, Some, IsTrue}, List.{All}};
ghost use Rattle.mdp_math.specs.Rational.{◌≤ℚ◌, of_int};
ghost use Rattle.mdp_num.specs.Value.{IsNarrow};
ghost use Rattle.mdp_spec.specs.{Labels.{initial_of}, Mdp.{states_of}};
ghost use Rattle.mdp_rows.specs.declared.dir.Dir.TheVariants.{Min};
ghost use Rattle.mdp_cert.specs.Cert.{are_names};
ghost use Rattle.mdp_subsystem_bounds.specs.{Cert.{plain_claim, Fits}, Plain.{plain, plain_lists}};
ghost use Rattle.mdp_command_bounds_search.specs.{WitnessDue.{claim_by, owned_name}, WitnessMarks.{HasSizes, certificate_of}};

use mdp_num::Frac;
use mdp_rows::{Dir, Model};
use mdp_subsystem_bounds::{SubsystemBounds, SubsystemBoundsCert};
use mdp_text::{all_narrow, all_short};

/// The numbers of bounds of a subsystem are in width.
fn lists_narrow(lists: &SubsystemBounds)
    ensures lower { All IsNarrow lists.now.bounds.lower.items }
    ensures choices { All (λ c. c < 2 ^ 32) lists.now.bounds.choices.items }
    ensures ranks { All (λ r. r < 2 ^ 32) lists.now.bounds.ranks.items }
{
    all_narrow(&lists.bounds.lower);
    all_short(&lists.bounds.choices);
    all_short(&lists.bounds.ranks);
}

/// The certificate of a subsystem that was found, which has a text.
pub(crate) fn certificate_of(
    model: &Model,
    dir: Dir,
    stay: Option<Vec<u8>>,
    label: Vec<u8>,
    threshold: Frac,
    start: u32,
    lists: SubsystemBounds,
) -> SubsystemBoundsCert
    requires names { IsTrue (are_names (plain_claim (claim_by dir (owned_name stay) label.items threshold))) }
    requires start { initial_of model.now ≡ Some start }
    requires threshold { of_int (pos 0) ≤ℚ threshold }
    requires sizes { HasSizes (states_of model.now) lists }
    requires least { dir ≡ Min → All (λ c. c ≡ 0) lists.bounds.choices.items }
    ensures certificate { plain result ≡ certificate_of (claim_by dir (owned_name stay) label.items threshold) start (plain_lists lists) }
    ensures fits { Fits (plain result) }
{
    model.known();
    lists_narrow(&lists);
    threshold.num();
    SubsystemBoundsCert {
        dir,
        stay,
        label,
        threshold,
        start,
        lists,
    }
}
