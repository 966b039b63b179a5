ghost use Rattle.std.specs.Prelude.{◌≡◌, ◌⊎◌, false, Ok, Err};
ghost use Rattle.mdp_job.specs.Refusal.{no_memory};
ghost use Rattle.mdp_command.specs.{Answered.{yes_text, said_of}, Read.{is_of_model}, Said.{said}};

use mdp_check::Answer;
use mdp_job::Refusal;
use std::alloc::Global;

/// The text of a certificate that holds.
fn yes(alloc: Global) -> Result<Vec<u8>, Refusal>
    ensures { (said result ≡ Err no_memory) ⊎ (said result ≡ Ok yes_text) }
{
    Ok(b"yes\n".to_vec(alloc)?)
}

/// What a checker says, as the text of a run or its refusal.
pub fn answer_text(alloc: Global, answer: Answer) -> Result<Vec<u8>, Refusal>
    ensures due { (said result ≡ Err no_memory) ⊎ (said result ≡ said_of answer) }
    ensures memory { said result ≡ Err no_memory → (answer ≡ Answer.Yes) ⊎ (answer ≡ Answer.Memory) }
    ensures not_of_model { is_of_model (said result) ≡ false }
{
    match answer {
        Answer::Yes => yes(alloc),
        Answer::No(fault) => Err(Refusal::Denied(fault)),
        Answer::Wide { state, choice } => Err(Refusal::CheckWide { state, choice }),
        Answer::NoReward => Err(Refusal::QueryReward),
        Answer::NoLabel => Err(Refusal::QueryLabel),
        Answer::Size => Err(Refusal::QuerySize),
        Answer::Memory => Err(Refusal::Memory),
    }
}
