ghost use Rattle.std.specs.Prelude.{◌≡◌, ◌++◌, ◌+◌, ◌<◌, OnOk, OnErr, length, drop};
ghost use Rattle.mdp_cert.specs.{Cert.{plain_body}, Plain.{plain}, Laws.{ReadsBack}};
ghost use Rattle.mdp_cert.specs.Spelling.{state_lines, closed_lines, head_text, body_text, version_text, text_in, text_of, old_text_of};
ghost use Rattle.mdp_cert.specs.Answer.{same_next, more_same, more_in};
ghost use Rattle.mdp_text.specs.{Spelling.{line}, Answer.{Keeps}};

use crate::body::Body;
use crate::cert::Cert;
use crate::entries::{Entry, Lists};
use crate::laws::text_law;
use crate::listed::push_listed;
use crate::mean_lines::push_means;
use crate::policy_lines::push_policy;
use crate::push::{push_claim, push_run, push_spread};
use crate::version::Version;
use mdp_num::Memory;
use mdp_text::Part::Bytes;
use mdp_text::{or_cut_back, push_end, push_init, push_number, push_parts};

/// Appends the line of the version.
fn push_version(out: &mut Vec<u8>, version: Version) -> Result<(), Memory>
    ensures text { OnOk result (out.new.items ≡ out.old.items ++ line (version_text version)) }
    ensures front { Keeps out.old.items out.new.items }
{
    let version = match version {
        Version::One => b"mdp-certificate 1\n",
        Version::Two => b"mdp-certificate 2\n",
    };
    push_parts(out, &[Bytes(version)])
}

/// Appends the lines of claim, states and init.
fn push_head(out: &mut Vec<u8>, cert: &Cert) -> Result<(), Memory>
    ensures text { OnOk result (out.new.items ≡ out.old.items ++ head_text (plain cert.now)) }
    ensures front { Keeps out.old.items out.new.items }
{
    push_claim(out, &cert.claim)?;
    push_number(out, u64::from(cert.states))?;
    push_init(out, &cert.init)
}

/// Whether there is a next state, and it says the same.
fn is_joined<L: Lists>(entries: &L, states: u32, state: u32) -> bool
    requires states { length (L.entries entries.now) ≡ states }
    requires state { state < states }
    ensures { result ≡ same_next L.Item.columns (drop state (L.entries entries.now)) }
{
    state + 1 < states && entries.entry(state).is_same(&entries.entry(state + 1))
}

/// The last state of the longest run that begins with this one: each state is compared with the next one.
fn longest_end<L: Lists>(entries: &L, states: u32, first: u32) -> u32
    requires states { length (L.entries entries.now) ≡ states }
    requires first { first < states }
    ensures { result ≡ first + more_same L.Item.columns (drop first (L.entries entries.now)) }
{
    let mut last = first;
    while is_joined(entries, states, last) {
        last += 1;
    }
    last
}

/// The last state of the line that begins with this one.
fn line_end<L: Lists>(version: Version, entries: &L, states: u32, first: u32) -> u32
    requires states { length (L.entries entries.now) ≡ states }
    requires first { first < states }
    ensures { result ≡ first + more_in version L.Item.columns (drop first (L.entries entries.now)) }
{
    match version {
        Version::One => first,
        Version::Two => longest_end(entries, states, first),
    }
}

/// Appends the lines of the states.
fn push_entries<L: Lists>(
    out: &mut Vec<u8>,
    version: Version,
    states: u32,
    entries: &L,
) -> Result<(), Memory>
    requires { length (L.entries entries.now) ≡ states }
    ensures text { OnOk result (out.new.items ≡ out.old.items ++ state_lines version L.Item.columns (L.entries entries.now)) }
    ensures front { Keeps out.old.items out.new.items }
{
    let mut first = 0;
    while first < states {
        let last = line_end(version, entries, states, first);
        push_run(out, first, last, &entries.entry(first))?;
        first = last + 1;
    }
    Ok(())
}

/// Appends the lines of the states and the line `end`.
pub fn push_to_end<L: Lists>(
    out: &mut Vec<u8>,
    version: Version,
    states: u32,
    entries: &L,
) -> Result<(), Memory>
    requires { length (L.entries entries.now) ≡ states }
    ensures text { OnOk result (out.new.items ≡ out.old.items ++ closed_lines version L.Item.columns (L.entries entries.now)) }
    ensures front { Keeps out.old.items out.new.items }
{
    push_entries(out, version, states, entries)?;
    push_end(out)
}

/// Appends the lines behind the head, by the claim, with the line `end`.
fn push_body(out: &mut Vec<u8>, version: Version, cert: &Cert) -> Result<(), Memory>
    ensures text { OnOk result (out.new.items ≡ out.old.items ++ body_text version (plain_body cert.now.body)) }
    ensures front { Keeps out.old.items out.new.items }
{
    match &cert.body {
        Body::Upper(bounds) => push_to_end(out, version, cert.states, bounds),
        Body::Reach(policy) => push_policy(
            out,
            version,
            cert.states,
            &policy.values,
            &policy.choices,
            &policy.ranks,
        ),
        Body::Reward(policy) => push_policy(
            out,
            version,
            cert.states,
            &policy.values,
            &policy.choices,
            &policy.ranks,
        ),
        Body::Mean(mean) => {
            push_spread(out, &mean.spread)?;
            push_means(out, version, cert.states, mean)
        }
        Body::Flow(flow) => push_listed(out, flow.kept.len() + flow.flows.len(), flow),
        Body::Floor(floor) => push_listed(out, floor.kept.len(), floor),
    }
}

/// Appends all lines; after `Memory` the text begins as before.
#[tactic(auto, unfolding(crate::specs::Spelling::text_in))]
fn push_lines(out: &mut Vec<u8>, version: Version, cert: &Cert) -> Result<(), Memory>
    ensures text { OnOk result (out.new.items ≡ out.old.items ++ text_in version (plain cert.now)) }
    ensures front { Keeps out.old.items out.new.items }
{
    push_version(out, version)?;
    push_head(out, cert)?;
    push_body(out, version, cert)
}

/// Appends the text of this version; after `Memory` the text is as before.
fn write_in(version: Version, cert: &Cert, out: &mut Vec<u8>) -> Result<(), Memory>
    ensures text { OnOk result (out.new.items ≡ out.old.items ++ text_in version (plain cert.now)) }
    ensures unchanged { OnErr result (out.new.items ≡ out.old.items) }
{
    let start = out.len();
    let answer = push_lines(out, version, cert);
    or_cut_back(out, start, answer)
}

/// Appends the certificate's text in version 2, with a line for each longest run of states with the same words. After `Memory` the text is as
/// before.
pub fn write_cert(cert: &Cert, out: &mut Vec<u8>) -> Result<(), Memory>
    ensures text { OnOk result (out.new.items ≡ out.old.items ++ text_of (plain cert.now)) }
    ensures reads_back { OnOk result (ReadsBack out.old.items out.new.items (plain cert.now)) }
    ensures unchanged { OnErr result (out.new.items ≡ out.old.items) }
{
    cert.known();
    text_law();
    write_in(Version::Two, cert, out)
}

/// Appends the certificate's text in version 1, with a line for each state. After `Memory` the text is as before.
pub fn write_old(cert: &Cert, out: &mut Vec<u8>) -> Result<(), Memory>
    ensures text { OnOk result (out.new.items ≡ out.old.items ++ old_text_of (plain cert.now)) }
    ensures reads_back { OnOk result (ReadsBack out.old.items out.new.items (plain cert.now)) }
    ensures unchanged { OnErr result (out.new.items ≡ out.old.items) }
{
    cert.known();
    text_law();
    write_in(Version::One, cert, out)
}
