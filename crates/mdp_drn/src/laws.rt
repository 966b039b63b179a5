ghost use Rattle.mdp_drn.specs.Laws.{RefusedAtFirst, DependsOnNothingBehind, NamesNoLaterLine, NamesLineOfText, DropsBlanks, IsReadByContents};
ghost use Rattle.mdp_drn.specs.Laws.{IsMovedByComment, ListsLabelsBySight, ReadsAsModel};

/// What a reader of the profile may rely on, of any text. A refusal is that of the first line that breaks a rule, or of the end; nothing behind that
/// line counts, and the line that is named isn't behind it. Comments, blanks and tabs at the ends of lines and a CR change no model and no kind.
/// Labels come in the order of first sight.
pub fn reading_law()
    ensures first { RefusedAtFirst }
    ensures behind { DependsOnNothingBehind }
    ensures found { NamesNoLaterLine }
    ensures within { NamesLineOfText }
    ensures blanks { DropsBlanks }
    ensures contents { IsReadByContents }
    ensures comment { IsMovedByComment }
    ensures sight { ListsLabelsBySight }
{}

/// What a text reads as is a model: it keeps all that each model keeps.
pub fn model_law()
    ensures { ReadsAsModel }
{}
