ghost use Rattle.std.specs.Prelude.{◌≡◌, ◌<◌, All, map};
ghost use Rattle.mdp_farkas.specs.Verdict.{objection_to};

use mdp_farkas::{Objection, OneCheck};

/// The check at each of these states, in order: the first objection ends the walk.
#[tactic(auto, using(mdp_farkas::proofs::Objections::walked))]
pub(crate) fn each_kept<C: OneCheck>(kept: &[u32], check: C) -> Result<(), Objection>
    requires { All (λ s. s < C.count check) kept.now }
    ensures { result ≡ objection_to (map (C.check check) kept.now) }
{
    for s in kept {
        check.check_at(*s)?;
    }
    Ok(())
}
