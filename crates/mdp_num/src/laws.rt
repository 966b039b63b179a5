ghost use Rattle.mdp_num.specs.{Grammar.{IsSound, IsComplete}, Meaning.{IsMeant, IsRefusedByShape, IsSplit, HasNoZero}};
ghost use Rattle.mdp_num.specs.Canonical.{IsSpelled, IsReadBack, IsOneSpelling};

/// The parts of a numeral are those that its grammar gives it.
pub fn grammar_law()
    ensures sound { IsSound }
    ensures complete { IsComplete }
{}

/// A numeral that is read has the value that its parts mean, and `Shape` comes exactly where a text spells no parts. The digits of a decimal are a
/// number without a zero at its end, times a power of ten.
pub fn value_law()
    ensures meant { IsMeant }
    ensures shape { IsRefusedByShape }
    ensures split { IsSplit }
    ensures no_zero { HasNoZero }
{}

/// What is read as canonical is a spelling, each spelling is read back, and no two numbers have the same one.
pub fn spelling_law()
    ensures spelled { IsSpelled }
    ensures read_back { IsReadBack }
    ensures one { IsOneSpelling }
{}
