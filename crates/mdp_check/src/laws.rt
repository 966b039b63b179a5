ghost use Rattle.mdp_check.specs.Laws.{YesIsAccepted, AcceptedIsBound, InitIsChecked, NoOfInit};
ghost use Rattle.mdp_check.specs.BoundsLaws.{YesAcceptsBounds, AcceptedBoundsAreTrue, BoundsNoOfInit};

/// Laws of checking: yes is answered exactly where a certificate is accepted, and the claim of an accepted certificate is true of the model.
pub fn checking_law()
    ensures accepted { YesIsAccepted }
    ensures bound { AcceptedIsBound }
{}

/// Laws of checking certificates of bounds: of a model yes is answered exactly where one is accepted, and the claim of an accepted one is true of the
/// model.
pub fn bounds_checking_law()
    ensures accepted { YesAcceptsBounds }
    ensures bound { AcceptedBoundsAreTrue }
{}

/// What a no at rule 1 means: what the line `init` says of the model's initial state is false. Where that is false and the answer is no, it is at no
/// other rule. So of certificates, whose body is their claim's.
pub fn start_law()
    ensures checked { InitIsChecked }
    ensures init { NoOfInit }
{
    mdp_farkas::refuted_law();
    mdp_subsystem_rules::refuted_law();
}

/// The same of certificates of bounds.
pub fn bounds_start_law()
    ensures { BoundsNoOfInit }
{
    mdp_bounds::refuted_law();
}
