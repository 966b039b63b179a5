ghost use Rattle.std.specs.Prelude.{◌≡◌, ◌*◌, nat_lt};
ghost use Rattle.mdp_spec.specs.Mdp.{states_of};
ghost use Rattle.mdp_job.specs.Refusal.{plain_refusal};
ghost use Rattle.mdp_command_horizon.specs.{Due.{most_choices}, Code.{refused}};

use mdp_horizon::{HorizonError, HorizonPlace};
use mdp_job::Refusal;
use mdp_rows::{MAX_CHOICES, Model};

/// Whether the table of so many steps, with one choice for each state and each step, has more choices than a model may have.
pub(crate) fn is_too_long(model: &Model, steps: u32) -> bool
    ensures { result ≡ nat_lt most_choices (steps * states_of model.now) }
{
    u64::from(steps) * u64::from(model.states()) > u64::from(MAX_CHOICES)
}

/// Why there is no answer, as a refusal.
pub(crate) fn refusal_of(error: HorizonError) -> Refusal
    ensures { plain_refusal result ≡ refused error }
{
    match error {
        HorizonError::TooWide(
            HorizonPlace {
                depth,
                state,
                choice,
            },
        ) => Refusal::HorizonWide {
            depth,
            state,
            choice,
        },
        HorizonError::Memory => Refusal::Memory,
    }
}
