ghost use Rattle.std.specs.{Prelude.{◌≡◌, Ok, Some, None, MatchResult, MatchOption}, Option.{option_map}};
ghost use Rattle.mdp_text.specs.Answer.{Refuses};
ghost use Rattle.mdp_discount_text.specs.Text.{is_factor, factor_of, claim_front, claim_names, claim_to, claim_of, claim_at};
ghost use Rattle.mdp_discount_text.specs.Code.{said_claim, plain_claim};

use mdp_num::{Frac, read_canonical};
use mdp_rows::Dir;
use mdp_text::{CertError, CertKind, name_and_rest};
use std::alloc::Global;

/// What the line of the claim says.
#[derive(Drop)]
pub struct ClaimLine {
    pub dir: Dir,
    pub name: Vec<u8>,
    pub factor: Frac,
}

/// The same, with the name lent from the text.
#[derive(Drop)]
struct ClaimWords<'a> {
    dir: Dir,
    name: &'a [u8],
    factor: Frac,
}

/// Whether a fraction is a discount factor: at least 0 and below 1.
fn is_factor(factor: &Frac) -> bool
    ensures { result ≡ is_factor factor.now }
{
    if factor.sign() < 0 {
        return false;
    }
    if factor.num() >= factor.den() {
        return false;
    }
    true
}

/// The discount factor that a word spells.
fn factor_of(word: &[u8]) -> Option<Frac>
    ensures { result ≡ factor_of word.now }
{
    let factor = read_canonical(word)?;
    if is_factor(&factor) {
        Some(factor)
    } else {
        None
    }
}

/// What stands before the name in the claim of this direction.
pub(crate) fn claim_front(dir: Dir) -> &'static [u8]
    ensures { result.now ≡ claim_front dir }
{
    match dir {
        Dir::Max => b"claim max discount \"",
        Dir::Min => b"claim min discount \"",
    }
}

/// The name in the claim of this direction, and the word of the factor.
fn claim_names(dir: Dir, text: &[u8]) -> Option<(&[u8], &[u8])>
    ensures { MatchOption result (claim_names dir text.now ≡ None) (λ p. claim_names dir text.now ≡ Some (p.0.now, p.1.now)) }
{
    name_and_rest(text.strip_prefix(claim_front(dir))?)
}

/// The claim of this direction in this line, where it has one.
#[tactic(auto, unfolding(crate::specs::Text::claim_to))]
fn claim_to(dir: Dir, text: &[u8]) -> Option<ClaimWords<'_>>
    ensures { option_map said_claim result ≡ claim_to dir text.now }
{
    let (name, word) = claim_names(dir, text)?;
    let factor = factor_of(word)?;
    Some(ClaimWords { dir, name, factor })
}

/// The claim of this line, where it has one.
#[tactic(auto, unfolding(crate::specs::Text::claim_of))]
fn claim_of(text: &[u8]) -> Option<ClaimWords<'_>>
    ensures { option_map said_claim result ≡ claim_of text.now }
{
    if let Some(claim) = claim_to(Dir::Max, text) {
        return Some(claim);
    }
    claim_to(Dir::Min, text)
}

/// The claim of this line.
#[tactic(auto, unfolding(crate::specs::Text::claim_at))]
pub fn claim_at(alloc: Global, line: u64, text: &[u8]) -> Result<ClaimLine, CertError>
    ensures { MatchResult result (λ c. claim_at line text.now ≡ Ok (plain_claim c)) (λ e. Refuses e (claim_at line text.now)) }
{
    match claim_of(text) {
        Some(said) => Ok(ClaimLine {
            dir: said.dir,
            name: Vec::from_slice(alloc, said.name)?,
            factor: said.factor,
        }),
        None => Err(CertError::At {
            line,
            kind: CertKind::Claim,
        }),
    }
}
