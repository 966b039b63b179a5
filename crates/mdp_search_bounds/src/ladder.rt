//! The order in which bounds are tried until the rules say yes: one for every objective.

ghost use Rattle.std.specs.Prelude.{◌≡◌, ℕ, ◌↔◌, ◌⊎◌, true, IfOk, IfSome, IfNone};
ghost use Rattle.mdp_search_bounds.specs.{Gap.{ShowsNear}, Tried.{IsVain, FewerAreVain, AllAreVain}};

use crate::few::{FEW_STATES, few_flags, few_state};
use crate::gap::Gap;
use mdp_num::Memory;
use mdp_proposals::MOST_DIGITS;
use mdp_rows::Model;
use std::alloc::Global;

/// How many digits more than were asked for are tried where bounds with the most digits aren't near enough: values have less room before the point
/// with these.
const SPARE_DIGITS: u32 = 6;

/// How many numbers of digits are tried where more of them came to nothing that meets the rules: 12, 9, 6, 3 and 0.
const FEWER_DIGITS: u32 = 5;

/// A search for bounds of one model, under one objective and direction.
pub(crate) trait Search {
    /// What the search proposes.
    type Proposal: Drop;

    /// A certificate of such bounds.
    type Cert: Drop;

    // The certificate has one item of each list for each state.
    ghost is_sized: { Self → Self.Cert → Type 0 };

    // The certificate has, it meets the rules, and no term of their check is past width.
    ghost is_held: { Self → Self.Cert → Type 0 };

    // The lower and the upper values of the certificate are as near as so many digits say.
    ghost is_near: { Self → ℕ → Self.Cert → Type 0 };

    // The exact query ends with a term past width, or with an answer of which a check of the rules does.
    ghost is_wide: { Self → Type 0 };

    // The proposal was made with so many digits.
    ghost is_made: { Self → ℕ → Self.Proposal → Type 0 };

    // The certificate has the bounds of a proposal that was made with so many digits.
    ghost is_proposed: { Self → ℕ → Self.Cert → Type 0 };

    // The certificate is what the search came to: the bounds of a proposal, the simplest fractions between them, or the exact answer.
    ghost is_found: { Self → Self.Cert → Type 0 };

    /// The model.
    fn model(&self) -> &Model;

    /// With how many digits the search begins, where so few come as near as `digits` say as a rule: of a large model more of them take long.
    fn first_digits(&self, digits: u32) -> Option<u32>;

    /// What the search proposes with so many digits.
    fn propose(&self, alloc: Global, digits: u32) -> Result<Self::Proposal, Memory>
        ensures { IfOk result (is_made self.now digits) };

    /// The bounds that it proposed.
    fn proposed(&self, alloc: Global, near: &Self::Proposal) -> Result<Self::Cert, Memory>
        ensures sized { IfOk result (is_sized self.now) }
        ensures proposed { (digits : ℕ) → is_made self.now digits near.now → IfOk result (is_proposed self.now digits) }
        ensures found { IfOk result (is_found self.now) };

    /// The simplest fractions between the bounds that it proposed, as exact values, at the flagged states.
    fn simplest(
        &self,
        alloc: Global,
        near: &Self::Proposal,
        is_sought: &[bool],
    ) -> Result<Self::Cert, Memory>
        ensures sized { IfOk result (is_sized self.now) }
        ensures found { IfOk result (is_found self.now) };

    /// Whether the rules say yes to a certificate at a state, or there is no such state.
    fn holds_at(&self, cert: &Self::Cert, s: u32) -> bool
        requires { is_sized self.now cert.now };

    /// Whether the rules say yes to a certificate.
    fn holds(&self, cert: &Self::Cert) -> bool
        requires { is_sized self.now cert.now }
        ensures { (result ≡ true) ↔ is_held self.now cert.now };

    /// The exact answer, as a lower and an upper value that are the same, if its search comes to no term past width.
    fn exact(&self, alloc: Global) -> Result<Option<Self::Cert>, Memory>
        ensures sized { IfOk result (λ found. IfSome found (is_sized self.now)) }
        ensures found { IfOk result (λ found. IfSome found (is_found self.now)) }
        ensures near { IfOk result (λ found. IfSome found (λ cert. (digits : ℕ) → is_near self.now digits cert)) }
        ensures held { IfOk result (λ found. IfSome found (λ cert. (is_held self.now cert → ⊥) → is_wide self.now)) }
        ensures none { IfOk result (λ found. IfNone found (is_wide self.now)) };

    /// How near the bounds of a certificate are.
    fn gap(&self, cert: &Self::Cert) -> Gap
        ensures { is_held self.now cert.now → (digits : ℕ) → ShowsNear result digits → is_near self.now digits cert.now };

    /// The bounds that say nothing. The rules say yes to them.
    fn trivial(&self, alloc: Global) -> Result<Self::Cert, Memory>
        ensures { IfOk result (is_held self.now) };
}

/// A certificate, where the rules say yes to it.
fn held<S: Search>(search: &S, cert: S::Cert) -> Option<S::Cert>
    requires { S.is_sized search.now cert }
    ensures held { IfSome result (S.is_held search.now) }
    ensures same { IfSome result (λ kept. kept ≡ cert) }
    ensures none { IfNone result (S.is_held search.now cert → ⊥) }
{
    if search.holds(&cert) {
        Some(cert)
    } else {
        None
    }
}

/// Whether the rules say yes to a certificate at each of a few states.
fn holds_at_few<S: Search>(search: &S, cert: &S::Cert) -> bool
    requires { S.is_sized search.now cert.now }
{
    let states = search.model().states();
    for i in 0..FEW_STATES {
        if !search.holds_at(cert, few_state(states, i)) {
            return false;
        }
    }
    true
}

/// Whether the rules say yes to the simplest fractions between the bounds that the search proposed, at a few states.
fn passes_at_few<S: Search>(alloc: Global, search: &S, near: &S::Proposal) -> Result<bool, Memory> {
    let needed = few_flags(alloc, search.model())?;
    let few = search.simplest(alloc, near, &needed)?;
    Ok(holds_at_few(search, &few))
}

/// The simplest fractions between the bounds that the search proposed, as exact values, where the rules say yes to them: first at a few states.
fn held_exact<S: Search>(
    alloc: Global,
    search: &S,
    near: &S::Proposal,
) -> Result<Option<S::Cert>, Memory>
    ensures held { IfOk result (λ found. IfSome found (S.is_held search.now)) }
    ensures found { IfOk result (λ found. IfSome found (S.is_found search.now)) }
{
    if !passes_at_few(alloc, search, near)? {
        return Ok(None);
    }
    let all = vec![in alloc; true; search.model().states() as usize]?;
    let exact = search.simplest(alloc, near, &all)?;
    Ok(held(search, exact))
}

/// The bounds that the search proposed, where the rules say yes to them.
fn held_proposed<S: Search>(
    alloc: Global,
    search: &S,
    near: &S::Proposal,
) -> Result<Option<S::Cert>, Memory>
    ensures held { IfOk result (λ found. IfSome found (S.is_held search.now)) }
    ensures found { IfOk result (λ found. IfSome found (S.is_found search.now)) }
    ensures none { (digits : ℕ) → S.is_made search.now digits near.now →
        IfOk result (λ found. IfNone found (IsVain (S.is_proposed search.now) (S.is_held search.now) digits)) }
{
    let cert = search.proposed(alloc, near)?;
    Ok(held(search, cert))
}

/// What the search proposes with so many digits, where the rules say yes to it: first the simplest fractions between its bounds, as exact values.
fn held_near<S: Search>(alloc: Global, search: &S, digits: u32) -> Result<Option<S::Cert>, Memory>
    ensures held { IfOk result (λ found. IfSome found (S.is_held search.now)) }
    ensures found { IfOk result (λ found. IfSome found (S.is_found search.now)) }
    ensures none { IfOk result (λ found. IfNone found (IsVain (S.is_proposed search.now) (S.is_held search.now) digits)) }
{
    let near = search.propose(alloc, digits)?;
    if let Some(exact) = held_exact(alloc, search, &near)? {
        return Ok(Some(exact));
    }
    held_proposed(alloc, search, &near)
}

/// How near the bounds of a certificate are, if there is one.
fn gap_of<S: Search>(search: &S, cert: &Option<S::Cert>) -> Gap {
    match cert {
        Some(cert) => search.gap(cert),
        None => Gap::WIDEST,
    }
}

/// Bounds in as few digits as come as near as `digits` say, where the rules say yes to them. `fine` is the gap of those with the most.
fn held_short<S: Search>(
    alloc: Global,
    search: &S,
    fine: Gap,
    digits: u32,
) -> Result<Option<S::Cert>, Memory>
    ensures held { IfOk result (λ found. IfSome found (S.is_held search.now)) }
    ensures found { IfOk result (λ found. IfSome found (S.is_found search.now)) }
{
    let enough = fine.enough(digits);
    if !fine.is_near(digits) || enough >= MOST_DIGITS {
        return Ok(None);
    }
    let near = search.propose(alloc, enough)?;
    let short = held_proposed(alloc, search, &near)?;
    if gap_of(search, &short).is_near(digits) {
        return Ok(short);
    }
    Ok(None)
}

/// What the search finds with the most digits, where the rules say yes to it: exact values, where the simplest fractions between its bounds are such;
/// else its bounds, in fewer digits where these come as near as `digits` say.
fn held_with_most<S: Search>(
    alloc: Global,
    search: &S,
    digits: u32,
) -> Result<Option<S::Cert>, Memory>
    ensures held { IfOk result (λ found. IfSome found (S.is_held search.now)) }
    ensures found { IfOk result (λ found. IfSome found (S.is_found search.now)) }
    ensures none { IfOk result (λ found. IfNone found (IsVain (S.is_proposed search.now) (S.is_held search.now) 30)) }
{
    let most = search.propose(alloc, MOST_DIGITS)?;
    if let Some(exact) = held_exact(alloc, search, &most)? {
        return Ok(Some(exact));
    }
    let fine = search.proposed(alloc, &most)?;
    drop(most);
    if let Some(short) = held_short(alloc, search, search.gap(&fine), digits)? {
        return Ok(Some(short));
    }
    Ok(held(search, fine))
}

/// Bounds with fewer digits than the most, where the rules say yes to them and they are nearer than those that were found.
fn held_between<S: Search>(
    alloc: Global,
    search: &S,
    others: Gap,
    digits: u32,
) -> Result<Option<S::Cert>, Memory>
    ensures held { IfOk result (λ found. IfSome found (S.is_held search.now)) }
    ensures found { IfOk result (λ found. IfSome found (S.is_found search.now)) }
{
    let between = digits.saturating_add(SPARE_DIGITS);
    if between >= MOST_DIGITS {
        return Ok(None);
    }
    let cert = held_near(alloc, search, between)?;
    if gap_of(search, &cert).is_nearer(others) {
        return Ok(cert);
    }
    Ok(None)
}

/// What the search finds with those digits with which it begins, where the rules say yes to it and it is as near as `digits` say.
fn held_first<S: Search>(alloc: Global, search: &S, digits: u32) -> Result<Option<S::Cert>, Memory>
    ensures held { IfOk result (λ found. IfSome found (S.is_held search.now)) }
    ensures found { IfOk result (λ found. IfSome found (S.is_found search.now)) }
{
    let Some(few) = search.first_digits(digits) else {
        return Ok(None);
    };
    let first = held_near(alloc, search, few)?;
    if gap_of(search, &first).is_near(digits) {
        return Ok(first);
    }
    Ok(None)
}

/// What the search finds, where the rules say yes to it: with the most digits, or with fewer where these aren't as near as `digits` say and fewer are
/// nearer.
fn held_found<S: Search>(alloc: Global, search: &S, digits: u32) -> Result<Option<S::Cert>, Memory>
    ensures held { IfOk result (λ found. IfSome found (S.is_held search.now)) }
    ensures found { IfOk result (λ found. IfSome found (S.is_found search.now)) }
    ensures none { IfOk result (λ found. IfNone found (IsVain (S.is_proposed search.now) (S.is_held search.now) 30)) }
{
    if let Some(first) = held_first(alloc, search, digits)? {
        return Ok(Some(first));
    }
    let found = held_with_most(alloc, search, digits)?;
    let gap = gap_of(search, &found);
    if gap.is_near(digits) {
        return Ok(found);
    }
    match held_between(alloc, search, gap, digits)? {
        Some(nearer) => Ok(Some(nearer)),
        None => Ok(found),
    }
}

/// What the search proposes with few digits, the most of them for which the rules say yes to it.
fn held_with_fewer<S: Search>(alloc: Global, search: &S) -> Result<Option<S::Cert>, Memory>
    ensures held { IfOk result (λ found. IfSome found (S.is_held search.now)) }
    ensures found { IfOk result (λ found. IfSome found (S.is_found search.now)) }
    ensures none { IfOk result (λ found. IfNone found (FewerAreVain (S.is_proposed search.now) (S.is_held search.now))) }
{
    for k in 0..FEWER_DIGITS {
        if let Some(cert) = held_near(alloc, search, 12 - 3 * k)? {
            return Ok(Some(cert));
        }
    }
    Ok(None)
}

/// The exact answer, where the rules say yes to it.
fn held_answer<S: Search>(alloc: Global, search: &S) -> Result<Option<S::Cert>, Memory>
    ensures held { IfOk result (λ found. IfSome found (S.is_held search.now)) }
    ensures found { IfOk result (λ found. IfSome found (S.is_found search.now)) }
    ensures near { IfOk result (λ found. IfSome found (λ cert. (digits : ℕ) → S.is_near search.now digits cert)) }
    ensures none { IfOk result (λ found. IfNone found (S.is_wide search.now)) }
{
    match search.exact(alloc)? {
        Some(cert) => Ok(held(search, cert)),
        None => Ok(None),
    }
}

/// The exact answer, if it isn't too wide; else what was found, or what is found with fewer digits; else the bounds that say nothing.
fn answer_or<S: Search>(
    alloc: Global,
    search: &S,
    found: Option<S::Cert>,
) -> Result<S::Cert, Memory>
    requires held { IfSome found (S.is_held search.now) }
    requires found { IfSome found (S.is_found search.now) }
    requires none { IfNone found (IsVain (S.is_proposed search.now) (S.is_held search.now) 30) }
    ensures held { IfOk result (S.is_held search.now) }
    ensures found { IfOk result (λ cert. S.is_found search.now cert ⊎ AllAreVain (S.is_proposed search.now) (S.is_held search.now)) }
    ensures near { IfOk result (λ cert. ((digits : ℕ) → S.is_near search.now digits cert) ⊎ S.is_wide search.now) }
{
    if let Some(answer) = held_answer(alloc, search)? {
        return Ok(answer);
    }
    if let Some(cert) = found {
        return Ok(cert);
    }
    match held_with_fewer(alloc, search)? {
        Some(cert) => Ok(cert),
        None => search.trivial(alloc),
    }
}

/// Bounds that meet the rules: what the search finds, where that is as near as so many digits say; else the exact answer, if it isn't too wide; else
/// what the search found, or finds with fewer digits; else the bounds that say nothing.
pub(crate) fn bounds_by<S: Search>(
    alloc: Global,
    search: &S,
    digits: u32,
) -> Result<S::Cert, Memory>
    ensures held { IfOk result (S.is_held search.now) }
    // What the search didn't come to is answered only where the rules hold of nothing that it proposed.
    ensures found { IfOk result (λ cert. S.is_found search.now cert ⊎ AllAreVain (S.is_proposed search.now) (S.is_held search.now)) }
    ensures near { IfOk result (λ cert. S.is_near search.now digits cert ⊎ S.is_wide search.now) }
{
    let Some(cert) = held_found(alloc, search, digits)? else {
        return answer_or(alloc, search, None);
    };
    if search.gap(&cert).is_near(digits) {
        return Ok(cert);
    }
    answer_or(alloc, search, Some(cert))
}
