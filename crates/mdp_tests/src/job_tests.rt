use mdp_cert::CertKind;
use mdp_drn::DrnKind;
use mdp_farkas::{Fault, Rule};
use mdp_job::{Refusal, Status, WordsError, push_refusal};
use mdp_num::Frac;
use std::alloc::Global;

/// Whether a refusal has this status, and is spelled as this line behind one that stands there.
fn is_spelled(alloc: Global, refusal: &Refusal, line: &str, code: u8) -> bool {
    let Ok(mut out) = b"> ".to_vec(alloc) else {
        return false;
    };
    push_refusal(refusal, &mut out).is_ok()
        && out.as_slice() == line.as_bytes()
        && refusal.status().code() == code
}

/// A model that is refused.
fn model_is_spelled(alloc: Global) -> bool {
    let refusal = Refusal::Model {
        line: u64::MAX,
        kind: DrnKind::RowSum,
    };
    is_spelled(
        alloc,
        &refusal,
        "> model line 18446744073709551615 row-sum\n",
        3,
    )
}

/// A rule that fails nowhere in particular.
fn rule_is_spelled(alloc: Global) -> bool {
    let denied = Fault {
        rule: Rule::SpreadIsGreatest,
        state: None,
        choice: None,
    };
    is_spelled(
        alloc,
        &Refusal::Denied(denied),
        "> denied rule 20 state - choice -\n",
        1,
    )
}

/// A text of a policy that is refused.
fn policy_is_spelled(alloc: Global) -> bool {
    let refusal = Refusal::PolicyText {
        line: 6,
        kind: CertKind::End,
    };
    is_spelled(alloc, &refusal, "> policy line 6 end\n", 9)
}

/// Words, a value below the threshold, and memory.
fn others_are_spelled(alloc: Global) -> bool {
    is_spelled(
        alloc,
        &Refusal::Words(WordsError::Rows),
        "> words rows\n",
        2,
    ) && is_spelled(alloc, &Refusal::Below(Frac::whole(2)), "> below 2\n", 11)
        && is_spelled(alloc, &Refusal::Memory, "> memory\n", 8)
}

#[test]
fn spells_refusals(rt: HostRuntime) {
    let alloc = rt.alloc();
    assert!(rt; model_is_spelled(alloc) && rule_is_spelled(alloc));
    assert!(rt; policy_is_spelled(alloc) && others_are_spelled(alloc));
    assert!(rt; Status::WriteFault.code() == 7);
}
