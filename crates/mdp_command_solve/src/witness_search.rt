ghost use Rattle.std.specs.Prelude.{◌≡◌, ◌⊎◌, Some, Err, IfOk, pos};
ghost use Rattle.mdp_command.specs.Prelude.{no_memory, plain_refusal, said};
ghost use Rattle.mdp_math.specs.Rational.{◌≤ℚ◌, of_int};
ghost use Rattle.mdp_spec.specs.Labels.{marks_of, initial_of};
ghost use Rattle.mdp_check.specs.Check.{way_by};
ghost use Rattle.mdp_command_solve.specs.{Ways.{name_of, place_on_way, goals_by}, WitnessCode.{refusal_of}};
ghost use Rattle.mdp_command_solve.specs.{WitnessDue.{IsEndDue, IsWitnessDue}, WitnessShown.{IsWitnessPrinted}};

use crate::ways::{cut_of, owned, place_on_way, way_in};
use crate::witness_certificate::certificate_of;
use mdp_cert::text_law;
use mdp_command::certificate_text;
use mdp_job::Refusal;
use mdp_num::Frac;
use mdp_rows::{Dir, Marks, Model};
use mdp_witness::{WitnessError, witness};
use std::alloc::Global;

/// What the words of the command ask for, beside the model.
#[derive(Clone, Copy)]
struct Asked<'a> {
    dir: Dir,
    stay: Option<&'a [u8]>,
    label: &'a [u8],
    threshold: Frac,
}

/// What is said where there is no subsystem.
fn refusal_of(error: WitnessError) -> Refusal
    ensures { plain_refusal result ≡ refusal_of error }
{
    match error {
        WitnessError::Below(value) => Refusal::Below(value),
        WitnessError::TooWide(wide) => Refusal::TooWide(wide),
        WitnessError::Memory => Refusal::Memory,
    }
}

impl Asked<'_> {
    /// The text of a witness from this start to these goals on what is left of the model for the way, or its refusal.
    fn on_way(
        &self,
        alloc: Global,
        model: &Model,
        way: &Model,
        goals: &Marks,
        start: u32,
    ) -> Result<Vec<u8>, Refusal>
        requires way { way.now ≡ way_by model.now goals.now (name_of self.now.stay) }
        requires goals { goals_by model.now (name_of self.now.stay) self.now.label.now ≡ Some goals.now }
        requires initial { initial_of model.now ≡ Some start }
        requires threshold { of_int (pos 0) ≤ℚ self.now.threshold }
        ensures due { (said result ≡ Err no_memory) ⊎
            IsEndDue self.now.dir (name_of self.now.stay) self.now.label.now self.now.threshold model.now goals.now start (said result) }
        ensures printed { IfOk (said result) (IsWitnessPrinted self.now.dir (name_of self.now.stay) self.now.label.now self.now.threshold model.now) }
    {
        model.known();
        text_law();
        let found = match witness(alloc, way, goals, start, self.dir, self.threshold) {
            Ok(found) => found,
            Err(error) => return Err(refusal_of(error)),
        };
        let Ok(stay) = owned(alloc, self.stay) else {
            return Err(Refusal::Memory);
        };
        let Ok(label) = self.label.to_vec(alloc) else {
            return Err(Refusal::Memory);
        };
        let cert = certificate_of(model, stay, label, self.threshold, start, found);
        certificate_text(alloc, &cert)
    }

    /// The text of a witness from this start to the states with the label of this place, or its refusal.
    fn from_start(
        &self,
        alloc: Global,
        model: &Model,
        place: u32,
        start: u32,
    ) -> Result<Vec<u8>, Refusal>
        requires named { place_on_way model.now (name_of self.now.stay) self.now.label.now ≡ Some place }
        requires initial { initial_of model.now ≡ Some start }
        requires threshold { of_int (pos 0) ≤ℚ self.now.threshold }
        ensures due { (said result ≡ Err no_memory) ⊎
            IsEndDue self.now.dir (name_of self.now.stay) self.now.label.now self.now.threshold model.now (marks_of model.now place) start (said result) }
        ensures printed { IfOk (said result) (IsWitnessPrinted self.now.dir (name_of self.now.stay) self.now.label.now self.now.threshold model.now) }
    {
        let goals = match model.marks_of(alloc, place) {
            Ok(goals) => goals,
            Err(_) => return Err(Refusal::Memory),
        };
        let cut = match cut_of(alloc, model, &goals, self.stay) {
            Ok(cut) => cut,
            Err(_) => return Err(Refusal::Memory),
        };
        self.on_way(alloc, model, way_in(model, &cut), &goals, start)
    }
}

/// The text of the certificate of a subsystem on which the best probability, in the direction, of reaching a state with the label from the one
/// initial state, by way of states with the label `stay` alone where there is one, is still at least the threshold; or its refusal: the label is
/// looked up first, and that of the states on the way, then the one initial state.
pub fn witness_query(
    alloc: Global,
    model: &Model,
    dir: Dir,
    stay: Option<&[u8]>,
    label: &[u8],
    threshold: Frac,
) -> Result<Vec<u8>, Refusal>
    requires { of_int (pos 0) ≤ℚ threshold }
    ensures due { (said result ≡ Err no_memory) ⊎ IsWitnessDue dir (name_of stay.entry) label.now threshold model.now (said result) }
    ensures printed { IfOk (said result) (IsWitnessPrinted dir (name_of stay.entry) label.now threshold model.now) }
{
    let asked = Asked {
        dir,
        stay,
        label,
        threshold,
    };
    let Some(place) = place_on_way(model, stay, label) else {
        return Err(Refusal::QueryLabel);
    };
    let Some(start) = model.initial() else {
        return Err(Refusal::QueryInit);
    };
    asked.from_start(alloc, model, place, start)
}
