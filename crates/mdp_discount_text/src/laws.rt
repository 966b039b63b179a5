ghost use Rattle.mdp_discount_text.specs.Laws.{IsReadFromText, IsReadBack};

/// What is read is the certificate of which the bytes are the text, and the text of a certificate is read back.
pub fn discount_text_law()
    ensures read { IsReadFromText }
    ensures back { IsReadBack }
{}
