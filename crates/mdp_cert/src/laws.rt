ghost use Rattle.mdp_cert.specs.Laws.{IsReadFromText, IsReadBack, IsOneText, AreSameWords, IsReadOrRefused, IsNotBoth, IsFirstBroken};

/// What is read is the certificate of which the bytes are one of the two texts; both texts are read back; and no two texts are the same, of
/// whichever certificates and versions. States say the same exactly where their words are the same.
pub fn text_law()
    ensures read { IsReadFromText }
    ensures back { IsReadBack }
    ensures one { IsOneText }
    ensures words { AreSameWords }
{}

/// Bytes are a text of a certificate or they are refused, and not both. A refusal names the first line that breaks a rule: the lines before it break
/// none, and the bytes behind it change nothing.
pub fn refusal_law()
    ensures covered { IsReadOrRefused }
    ensures apart { IsNotBoth }
    ensures first { IsFirstBroken }
{}
