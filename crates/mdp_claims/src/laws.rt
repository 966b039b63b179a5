ghost use Rattle.mdp_claims.specs.RuleNumber.{OneRuleEach, NumbersFromOne};

/// Each rule has a number of its own, and the numbers are those from 1 to 28.
pub fn numbers_law()
    ensures one_each { OneRuleEach }
    ensures all { NumbersFromOne }
{}
