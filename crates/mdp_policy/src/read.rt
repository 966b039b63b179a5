ghost use Rattle.std.specs.Prelude.{◌≡◌, ◌+◌, ◌<◌, ◌≤◌, ◌^◌, Ok, IfOk, IfErr, MatchResult};
ghost use Rattle.mdp_text.specs.{Answer.{Refuses}, Lines.{place, nothing_behind}, Heads.{states_at}};
ghost use Rattle.mdp_policy.specs.Text.{choose_at, choices_from, policy_outcome};

use mdp_text::{
    CertError, CertKind, Refusal, cut_word, is_line, next_line, nothing_behind, only_word,
    refuse_if, states_at, whole_at, words_behind,
};
use std::alloc::Global;

/// The choice in the line `choose S C`, where S is the state that is due.
#[tactic(auto, unfolding(crate::specs::Text::choose_at))]
fn choose_at(due: u32, line: u64, text: &[u8]) -> Result<u32, Refusal>
    ensures { result ≡ choose_at due line text.now }
{
    let behind = words_behind(line, text, b"choose", 2)?;
    let (word, behind) = cut_word(behind);
    let state = whole_at(line, word)?;
    let choice = whole_at(line, only_word(behind))?;
    refuse_if(CertKind::Count, line, state != due)?;
    Ok(choice)
}

/// Reads the lines of so many states, the first of which has this number, and gives their choices, the number of the line behind them and the
/// bytes from there on.
fn choices_from(
    alloc: Global,
    states: u32,
    line: u64,
    bytes: &[u8],
) -> Result<(Vec<u32>, u64, &[u8]), CertError>
    requires { line < 2 ^ 32 }
    ensures said { let read = choices_from states 0 (place line bytes.now) in
        MatchResult result (λ p. read ≡ Ok (p.0.items, place p.1 p.2.now)) (λ e. Refuses e read) }
    ensures lines { IfOk result (λ p. p.1 ≤ line + states) }
{
    let mut choices = Vec::new(alloc);
    let mut next = line;
    let mut rest = bytes;
    for s in 0..states {
        let (text, behind) = next_line(next, rest)?;
        let choice = choose_at(s, next, text)?;
        choices.push(choice)?;
        next += 1;
        rest = behind;
    }
    Ok((choices, next, rest))
}

/// Reads the text of a policy: the choices of which the bytes are the text, one for each state, or the first line that breaks a rule.
#[tactic(auto, unfolding(crate::specs::Text::policy_outcome))]
pub fn read_policy(alloc: Global, bytes: &[u8]) -> Result<Vec<u32>, CertError>
    ensures read { IfOk result (λ choices. policy_outcome bytes.now ≡ Ok choices.items) }
    ensures refused { IfErr result (λ e. Refuses e (policy_outcome bytes.now)) }
{
    let (text, rest) = next_line(1, bytes)?;
    is_line(CertKind::Version, b"mdp-policy 1", 1, text)?;
    let (text, rest) = next_line(2, rest)?;
    let states = states_at(2, text)?;
    let (choices, line, rest) = choices_from(alloc, states, 3, rest)?;
    let (text, rest) = next_line(line, rest)?;
    is_line(CertKind::Shape, b"end", line, text)?;
    nothing_behind(line + 1, rest)?;
    Ok(choices)
}
