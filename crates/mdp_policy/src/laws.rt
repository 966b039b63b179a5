ghost use Rattle.mdp_policy.specs.{Laws.{HasOneValue, HasAnEnd}, Text.{IsReadFromText, IsReadBack}};

/// A policy has one list of values at most. Their computation has an end for each model and policy: an answer, or a term past width.
pub fn value_law()
    ensures one_value { HasOneValue }
    ensures ends { HasAnEnd }
{}

/// What is read is what the bytes are the text of, and the text of a policy is read back.
pub fn policy_text_law()
    ensures read { IsReadFromText }
    ensures back { IsReadBack }
{}
