ghost use Rattle.mdp_subsystem_bounds.specs.Laws.{RulesReach, YesIsAccepted, AcceptedIsBound, IsReadFromText, IsReadBack, IsOneText, AreSameWords};

/// Laws of bounds of subsystems: what meets the rules reaches the threshold on the kept states; yes is answered exactly where a certificate is
/// accepted, and the claim of an accepted certificate is true of the model.
pub fn subsystem_bounds_law()
    ensures rules { RulesReach }
    ensures accepted { YesIsAccepted }
    ensures bound { AcceptedIsBound }
{}

/// What is read is the certificate of which the bytes are the text; the text of a certificate is read back; and no two certificates have the same
/// text. States say the same exactly where their words are the same.
pub fn subsystem_bounds_text_law()
    ensures read { IsReadFromText }
    ensures back { IsReadBack }
    ensures one { IsOneText }
    ensures words { AreSameWords }
{}
