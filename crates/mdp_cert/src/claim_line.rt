ghost use Rattle.std.specs.Prelude.{◌≡◌, Ok, Some, None, IfOk, MatchResult, MatchOption, option_and_then, option_map};
ghost use Rattle.mdp_rows.specs.Name.{is_name};
ghost use Rattle.mdp_cert.specs.{Cert.{plain_claim}, Reading.{closed_name, name_behind, two_names, upper_claim, reach_front}};
ghost use Rattle.mdp_cert.specs.Reading.{reach_claim, until_front, until_claim, reward_front, reward_claim, mean_front, mean_claim, threshold_of};
ghost use Rattle.mdp_cert.specs.Reading.{name_and_threshold, witness_front, witness_claim, claim_to, claim_of, claim_at};
ghost use Rattle.mdp_cert.specs.Reading.{names_and_threshold, witness_until_front, witness_until_claim, subsystem_claim};
ghost use Rattle.mdp_cert.specs.Answer.{said_claim};
ghost use Rattle.mdp_text.specs.{Words.{behind, name_and_rest}, Answer.{Refuses}};

use crate::claim::Claim;
use crate::claim_words::ClaimWords;
use mdp_num::{Frac, read_canonical};
use mdp_rows::Dir;
use mdp_text::{CertError, CertKind, cut_name, is_name, name_and_rest};
use std::alloc::{AllocError, Global};

/// The name that stands before the quote at the text's end.
fn closed_name(text: &[u8]) -> Option<&[u8]>
    ensures { MatchOption result (closed_name text.now ≡ None) (λ name. closed_name text.now ≡ Some name.now) }
{
    let name = text.strip_suffix(b"\"")?;
    if is_name(name) { Some(name) } else { None }
}

/// The name that stands between this front and a quote at the text's end.
fn name_behind<'a>(front: &[u8], text: &'a [u8]) -> Option<&'a [u8]>
    ensures { MatchOption result (name_behind front.now text.now ≡ None) (λ name. name_behind front.now text.now ≡ Some name.now) }
{
    closed_name(text.strip_prefix(front)?)
}

/// The name before the first quote, and the name between `" "` there and the quote at the text's end.
fn two_names(text: &[u8]) -> Option<(&[u8], &[u8])>
    ensures { MatchOption result (two_names text.now ≡ None) (λ names. two_names text.now ≡ Some (names.0.now, names.1.now)) }
{
    let (name, rest) = cut_name(text)?;
    let label = name_behind(b"\" \"", rest)?;
    Some((name, label))
}

/// The claim `upper reach` of this line.
fn upper_claim(text: &[u8]) -> Option<ClaimWords<'_>>
    ensures { option_map said_claim result ≡ upper_claim text.now }
{
    let label = name_behind(b"claim upper reach \"", text)?;
    Some(ClaimWords::Upper(label))
}

/// What stands before the label in the claim `DIR reach`.
pub(crate) fn reach_front(dir: Dir) -> &'static [u8]
    ensures { result.now ≡ reach_front dir }
{
    match dir {
        Dir::Max => b"claim max reach \"",
        Dir::Min => b"claim min reach \"",
    }
}

/// The claim `DIR reach` of this line.
fn reach_claim(dir: Dir, text: &[u8]) -> Option<ClaimWords<'_>>
    ensures { option_map said_claim result ≡ reach_claim dir text.now }
{
    let label = name_behind(reach_front(dir), text)?;
    Some(ClaimWords::Reach(dir, label))
}

/// What stands before the names in the claim `DIR until`.
pub(crate) fn until_front(dir: Dir) -> &'static [u8]
    ensures { result.now ≡ until_front dir }
{
    match dir {
        Dir::Max => b"claim max until \"",
        Dir::Min => b"claim min until \"",
    }
}

/// The claim `DIR until` of this line.
fn until_claim(dir: Dir, text: &[u8]) -> Option<ClaimWords<'_>>
    ensures { option_map said_claim result ≡ until_claim dir text.now }
{
    let (stay, label) = two_names(text.strip_prefix(until_front(dir))?)?;
    Some(ClaimWords::Until(dir, stay, label))
}

/// What stands before the names in the claim `DIR reward`.
pub(crate) fn reward_front(dir: Dir) -> &'static [u8]
    ensures { result.now ≡ reward_front dir }
{
    match dir {
        Dir::Max => b"claim max reward \"",
        Dir::Min => b"claim min reward \"",
    }
}

/// The claim `DIR reward` of this line.
fn reward_claim(dir: Dir, text: &[u8]) -> Option<ClaimWords<'_>>
    ensures { option_map said_claim result ≡ reward_claim dir text.now }
{
    let (name, label) = two_names(text.strip_prefix(reward_front(dir))?)?;
    Some(ClaimWords::Reward(dir, name, label))
}

/// What stands before the name in the claim `DIR mean`.
pub(crate) fn mean_front(dir: Dir) -> &'static [u8]
    ensures { result.now ≡ mean_front dir }
{
    match dir {
        Dir::Max => b"claim max mean \"",
        Dir::Min => b"claim min mean \"",
    }
}

/// The claim `DIR mean` of this line.
fn mean_claim(dir: Dir, text: &[u8]) -> Option<ClaimWords<'_>>
    ensures { option_map said_claim result ≡ mean_claim dir text.now }
{
    let name = name_behind(mean_front(dir), text)?;
    Some(ClaimWords::Mean(dir, name))
}

/// The fraction from 0 on that a word spells.
fn threshold_of(word: &[u8]) -> Option<Frac>
    ensures { result ≡ threshold_of word.now }
{
    let threshold = read_canonical(word)?;
    if threshold.num() >= 0 {
        Some(threshold)
    } else {
        None
    }
}

/// The name before the first quote, and the threshold behind `" ` there.
fn name_and_threshold(text: &[u8]) -> Option<(&[u8], Frac)>
    ensures { MatchOption result (name_and_threshold text.now ≡ None) (λ said. name_and_threshold text.now ≡ Some (said.0.now, said.1)) }
{
    let (name, word) = name_and_rest(text)?;
    let threshold = threshold_of(word)?;
    Some((name, threshold))
}

/// What stands before the label in the claim `DIR witness`.
pub(crate) fn witness_front(dir: Dir) -> &'static [u8]
    ensures { result.now ≡ witness_front dir }
{
    match dir {
        Dir::Max => b"claim max witness \"",
        Dir::Min => b"claim min witness \"",
    }
}

/// The claim `DIR witness` of this line.
fn witness_claim(dir: Dir, text: &[u8]) -> Option<ClaimWords<'_>>
    ensures { option_map said_claim result ≡ witness_claim dir text.now }
{
    match name_and_threshold(text.strip_prefix(witness_front(dir))?) {
        Some((label, threshold)) => Some(ClaimWords::Witness(dir, None, label, threshold)),
        None => None,
    }
}

/// The name before the first quote, and the name and the threshold behind `" "` there.
fn names_and_threshold(text: &[u8]) -> Option<(&[u8], &[u8], Frac)>
    ensures { MatchOption result (names_and_threshold text.now ≡ None) (λ said. names_and_threshold text.now
        ≡ Some (said.0.now, said.1.now, said.2)) }
{
    let (stay, rest) = cut_name(text)?;
    match name_and_threshold(rest.strip_prefix(b"\" \"")?) {
        Some((label, threshold)) => Some((stay, label, threshold)),
        None => None,
    }
}

/// What stands before the names in the claim `DIR witness until`.
pub(crate) fn witness_until_front(dir: Dir) -> &'static [u8]
    ensures { result.now ≡ witness_until_front dir }
{
    match dir {
        Dir::Max => b"claim max witness until \"",
        Dir::Min => b"claim min witness until \"",
    }
}

/// The claim `DIR witness until` of this line.
fn witness_until_claim(dir: Dir, text: &[u8]) -> Option<ClaimWords<'_>>
    ensures { option_map said_claim result ≡ witness_until_claim dir text.now }
{
    match names_and_threshold(text.strip_prefix(witness_until_front(dir))?) {
        Some((stay, label, threshold)) => {
            Some(ClaimWords::Witness(dir, Some(stay), label, threshold))
        }
        None => None,
    }
}

/// The claim of a subsystem in this direction.
fn subsystem_claim(dir: Dir, text: &[u8]) -> Option<ClaimWords<'_>>
    ensures { option_map said_claim result ≡ subsystem_claim dir text.now }
{
    if let Some(claim) = witness_claim(dir, text) {
        return Some(claim);
    }
    witness_until_claim(dir, text)
}

/// The claim of this direction in this line.
#[tactic(auto, unfolding(crate::specs::Reading::claim_to))]
fn claim_to(dir: Dir, text: &[u8]) -> Option<ClaimWords<'_>>
    ensures { option_map said_claim result ≡ claim_to dir text.now }
{
    if let Some(claim) = reach_claim(dir, text) {
        return Some(claim);
    }
    if let Some(claim) = until_claim(dir, text) {
        return Some(claim);
    }
    if let Some(claim) = reward_claim(dir, text) {
        return Some(claim);
    }
    if let Some(claim) = mean_claim(dir, text) {
        return Some(claim);
    }
    subsystem_claim(dir, text)
}

/// The claim of this line, where it has one.
#[tactic(auto, unfolding(crate::specs::Reading::claim_of))]
fn claim_of(text: &[u8]) -> Option<ClaimWords<'_>>
    ensures { option_map said_claim result ≡ claim_of text.now }
{
    if let Some(claim) = upper_claim(text) {
        return Some(claim);
    }
    if let Some(claim) = claim_to(Dir::Max, text) {
        return Some(claim);
    }
    claim_to(Dir::Min, text)
}

/// A name that may be there, copied.
fn owned_name(alloc: Global, name: &Option<&[u8]>) -> Result<Option<Vec<u8>>, AllocError>
    ensures { IfOk result (λ owned. option_map (λ xs. xs.items) owned ≡ option_map (λ xs. xs.now) name.now) }
{
    match name {
        Some(name) => Ok(Some(Vec::from_slice(alloc, name)?)),
        None => Ok(None),
    }
}

/// The claim that these words say, with its names copied.
fn owned_claim(alloc: Global, said: &ClaimWords<'_>) -> Result<Claim, AllocError>
    ensures { IfOk result (λ c. plain_claim c ≡ said_claim said.now) }
{
    match said {
        ClaimWords::Upper(label) => {
            let label = Vec::from_slice(alloc, label)?;
            Ok(Claim::Upper { label })
        }
        ClaimWords::Reach(dir, label) => {
            let label = Vec::from_slice(alloc, label)?;
            Ok(Claim::Reach { dir: *dir, label })
        }
        ClaimWords::Until(dir, stay, label) => {
            let stay = Vec::from_slice(alloc, stay)?;
            let label = Vec::from_slice(alloc, label)?;
            Ok(Claim::Until {
                dir: *dir,
                stay,
                label,
            })
        }
        ClaimWords::Reward(dir, name, label) => {
            let name = Vec::from_slice(alloc, name)?;
            let label = Vec::from_slice(alloc, label)?;
            Ok(Claim::Reward {
                dir: *dir,
                name,
                label,
            })
        }
        ClaimWords::Mean(dir, name) => {
            let name = Vec::from_slice(alloc, name)?;
            Ok(Claim::Mean { dir: *dir, name })
        }
        ClaimWords::Witness(dir, stay, label, threshold) => {
            let stay = owned_name(alloc, stay)?;
            let label = Vec::from_slice(alloc, label)?;
            Ok(Claim::Witness {
                dir: *dir,
                stay,
                label,
                threshold: *threshold,
            })
        }
    }
}

/// The claim of this line.
#[tactic(auto, unfolding(crate::specs::Reading::claim_at))]
pub fn claim_at(alloc: Global, line: u64, text: &[u8]) -> Result<Claim, CertError>
    ensures { MatchResult result (λ c. claim_at line text.now ≡ Ok (plain_claim c)) (λ e. Refuses e (claim_at line text.now)) }
{
    match claim_of(text) {
        Some(said) => Ok(owned_claim(alloc, &said)?),
        None => Err(CertError::At {
            line,
            kind: CertKind::Claim,
        }),
    }
}
