ghost use Rattle.std.specs.{Prelude.{◌≡◌, ◌⊎◌, Some, Ok, Err, IfOk, IsTrue, pos}, List.{All}};
ghost use Rattle.mdp_math.specs.Rational.{◌≤ℚ◌, of_int};
ghost use Rattle.mdp_spec.specs.{Labels.{initial_of}, Mdp.{states_of}};
ghost use Rattle.mdp_rows.specs.declared.dir.Dir.TheVariants.{Min};
ghost use Rattle.mdp_cert.specs.Cert.{are_names};
ghost use Rattle.mdp_check.specs.Check.{marks_by, way_by};
ghost use Rattle.mdp_subsystem_bounds.specs.{Cert.{plain_claim, Fits}, Plain.{plain}, Spelling.{text_of}};
ghost use Rattle.mdp_command.specs.Prelude.{no_memory, plain_refusal, said};
ghost use Rattle.mdp_command_bounds_search.specs.WitnessDue.{name_of, owned_name, claim_by, refusal_of, IsEndDue, IsBoundsWitnessDue};
ghost use Rattle.mdp_command_bounds_search.specs.WitnessMarks.{IsSized, lists_of, certificate_of};
ghost use Rattle.mdp_command_bounds_search.specs.WitnessShown.{IsBoundsWitnessPrinted};

use crate::witness_certificate::certificate_of;
use crate::witness_marks::marks_of;
use mdp_check::{goals_on_way, way_by};
use mdp_job::Refusal;
use mdp_num::Frac;
use mdp_rows::{Dir, Marks, Model};
use mdp_subsystem_bounds::{
    SubsystemBounds, SubsystemBoundsCert, subsystem_bounds_law, subsystem_bounds_text_law,
    write_subsystem_bounds,
};
use mdp_subsystem_search::{Subsystem, Unshown, search_subsystem};
use std::alloc::{AllocError, Global};

/// What is said where there is no subsystem.
fn refusal_of(error: Unshown) -> Refusal
    ensures { plain_refusal result ≡ refusal_of error }
{
    match error {
        Unshown::Below(value) => Refusal::Below(value),
        Unshown::Undecided { lower, upper } => Refusal::Undecided { lower, upper },
        Unshown::Memory => Refusal::Memory,
    }
}

/// The text of a certificate.
fn certificate_text(alloc: Global, cert: &SubsystemBoundsCert) -> Result<Vec<u8>, Refusal>
    ensures { (said result ≡ Err no_memory) ⊎ (said result ≡ Ok (text_of (plain cert.now))) }
{
    let mut text = Vec::new(alloc);
    write_subsystem_bounds(cert, &mut text)?;
    Ok(text)
}

/// What the words of the command ask for, beside the model.
#[derive(Clone, Copy)]
struct Asked<'a> {
    dir: Dir,
    stay: Option<&'a [u8]>,
    label: &'a [u8],
    threshold: Frac,
}

/// A name that may be there, copied.
fn owned(alloc: Global, name: Option<&[u8]>) -> Result<Option<Vec<u8>>, AllocError>
    ensures { IfOk result (λ own. owned_name own ≡ name_of name.entry) }
{
    match name {
        Some(name) => Ok(Some(name.to_vec(alloc)?)),
        None => Ok(None),
    }
}

impl Asked<'_> {
    /// The certificate of a subsystem that was found.
    fn certificate(
        &self,
        alloc: Global,
        model: &Model,
        start: u32,
        found: Subsystem,
    ) -> Result<SubsystemBoundsCert, AllocError>
        requires names { IsTrue (are_names (plain_claim (claim_by self.now.dir (name_of self.now.stay) self.now.label.now self.now.threshold))) }
        requires start { initial_of model.now ≡ Some start }
        requires threshold { of_int (pos 0) ≤ℚ self.now.threshold }
        requires found { IsSized (states_of model.now) found }
        requires least { self.now.dir ≡ Min → All (λ c. c ≡ 0) found.bounds.choices.items }
        ensures certificate { IfOk result (λ cert. plain cert ≡ certificate_of
            (claim_by self.now.dir (name_of self.now.stay) self.now.label.now self.now.threshold) start
            (lists_of (states_of model.now) found)) }
        ensures fits { IfOk result (λ cert. Fits (plain cert)) }
    {
        let marks = marks_of(alloc, model.states(), &found.kept, &found.needed)?;
        let stay = owned(alloc, self.stay)?;
        let label = self.label.to_vec(alloc)?;
        let lists = SubsystemBounds {
            bounds: found.bounds,
            marks,
        };
        Ok(certificate_of(model, self.dir, stay, label, self.threshold, start, lists))
    }

    /// The text of a subsystem from this start to these goals on what is left of the model for the way, or its refusal.
    fn on_way(
        &self,
        alloc: Global,
        model: &Model,
        way: &Model,
        goals: &Marks,
        start: u32,
    ) -> Result<Vec<u8>, Refusal>
        requires way { way.now ≡ way_by model.now goals.now (name_of self.now.stay) }
        requires goals { marks_by model.now (name_of self.now.stay) self.now.label.now ≡ Some goals.now }
        requires initial { initial_of model.now ≡ Some start }
        requires threshold { of_int (pos 0) ≤ℚ self.now.threshold }
        ensures due { (said result ≡ Err no_memory) ⊎
            IsEndDue (claim_by self.now.dir (name_of self.now.stay) self.now.label.now self.now.threshold) model.now goals.now start (said result) }
        ensures printed { IfOk (said result) (IsBoundsWitnessPrinted (claim_by self.now.dir
            (name_of self.now.stay) self.now.label.now self.now.threshold) model.now) }
    {
        model.known();
        subsystem_bounds_law();
        subsystem_bounds_text_law();
        let found = match search_subsystem(alloc, way, goals, start, self.dir, self.threshold) {
            Ok(found) => found,
            Err(error) => return Err(refusal_of(error)),
        };
        let cert = self.certificate(alloc, model, start, found)?;
        certificate_text(alloc, &cert)
    }
}

/// Searches a subsystem on which the best probability, in the direction, of reaching a state with the label from the one initial state, by way of
/// states with the label `stay` alone where there is one, is still at least the threshold. Gives the text of a certificate that shows it by lower
/// values, or the first refusal: the labels are looked up first, then the one initial state.
pub fn bounds_witness_query(
    alloc: Global,
    model: &Model,
    dir: Dir,
    stay: Option<&[u8]>,
    label: &[u8],
    threshold: Frac,
) -> Result<Vec<u8>, Refusal>
    requires { of_int (pos 0) ≤ℚ threshold }
    ensures due { (said result ≡ Err no_memory) ⊎ IsBoundsWitnessDue (claim_by dir (name_of stay.entry) label.now threshold) model.now (said result) }
    ensures printed { IfOk (said result) (IsBoundsWitnessPrinted (claim_by dir (name_of stay.entry) label.now threshold) model.now) }
{
    let Some(goals) = goals_on_way(alloc, model, stay, label)? else {
        return Err(Refusal::QueryLabel);
    };
    let Some(start) = model.initial() else {
        return Err(Refusal::QueryInit);
    };
    let asked = Asked {
        dir,
        stay,
        label,
        threshold,
    };
    match way_by(alloc, model, &goals, stay)? {
        Some(way) => asked.on_way(alloc, model, &way, &goals, start),
        None => asked.on_way(alloc, model, model, &goals, start),
    }
}
