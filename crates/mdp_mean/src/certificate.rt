ghost use Rattle.std.specs.Prelude.{◌≡◌, ◌<◌, length, IfOk};
ghost use Rattle.mdp_spec.specs.{Bounds.{MeanMax, MeanMin}, Mdp.{states_of}};
ghost use Rattle.mdp_rows.specs.declared.dir.Dir.TheVariants.{Max, Min};
ghost use Rattle.mdp_farkas.specs.Mean.{MeetsMean, IsMean};
ghost use Rattle.mdp_policy_iteration.specs.Queries.{Solves};
ghost use Rattle.mdp_mean.specs.Query.{plain, checked, Held};

use mdp_farkas::{MeanCert, Verdict, holds_mean};
use mdp_rows::{Dir, Model};
use mdp_wide::{Kind, Part, SolveError, TooWide};

/// A certificate that meets the rules, where no term of its check is past width.
pub(crate) fn held(model: &Model, m: u32, dir: Dir, cert: MeanCert) -> Result<MeanCert, SolveError>
    requires name { m < length model.now.names }
    requires gains { length cert.gains.items ≡ states_of model.now }
    requires rules { MeetsMean dir model.now m cert.gains.items cert.bound.items cert.bias.items cert.spread cert.choices.items }
    ensures held { Solves plain (Held (plain cert) (checked dir model.now m (plain cert))) result }
    ensures each { IfOk result (λ c. length c.gains.items ≡ states_of model.now) }
    ensures rules { IfOk result (λ c. IsMean dir model.now m c.gains.items c.bound.items c.bias.items c.spread c.choices.items) }
    ensures max { dir ≡ Max → IfOk result (λ c. MeanMax model.now m c.gains.items c.spread c.choices.items) }
    ensures min { dir ≡ Min → IfOk result (λ c. MeanMin model.now m c.gains.items c.spread c.choices.items) }
{
    match holds_mean(model, m, dir, &cert) {
        Verdict::Yes => Ok(cert),
        Verdict::No(_) => unreachable!(),
        Verdict::Wide { state, choice } => Err(SolveError::TooWide(TooWide {
            part: Part::Join,
            round: 0,
            policy: cert.choices,
            kind: Kind::Check,
            state,
            choice,
        })),
    }
}
