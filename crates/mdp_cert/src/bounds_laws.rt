ghost use Rattle.mdp_cert.specs.BoundsLaws.{IsReadFromText, IsReadBack, IsOneText, AreSameWords};

/// What is read is the certificate of bounds of which the bytes are the text; the text of a certificate is read back; and no two certificates have
/// the same text. States say the same exactly where their words are the same.
pub fn bounds_text_law()
    ensures read { IsReadFromText }
    ensures back { IsReadBack }
    ensures one { IsOneText }
    ensures words { AreSameWords }
{}
