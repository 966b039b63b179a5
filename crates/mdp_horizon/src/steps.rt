ghost use Rattle.std.specs.Prelude.{◌≡◌, ◌*◌, ◌≤◌, ◌^◌, length, IfOk};
ghost use Rattle.mdp_spec.specs.Mdp.{states_of};
ghost use Rattle.mdp_horizon.specs.{Written.{written_values}, Queries.{for_exact}, Answer.{Answers, plain}};

use crate::backup::Query;
use crate::bounded::Bounded;
use crate::error::HorizonError;
use std::alloc::Global;

/// The values with so many steps left, and a choice of each state for each step. Two rows of values are kept, and the table of choices.
pub(crate) fn values_within(
    alloc: Global,
    query: Query,
    steps: u32,
) -> Result<Bounded, HorizonError>
    requires { steps * states_of query.model.now ≤ 2 ^ 22 }
    ensures written { Answers plain result (for_exact query.entry written_values steps) }
    ensures one_each { IfOk result (λ found. length found.values.items ≡ states_of query.entry.model.now) }
{
    let mut values = query.endings(alloc)?;
    let mut table = Vec::new(alloc);
    for done in 0..steps {
        let next = query.backups(alloc, &values, done + 1)?;
        values = next.values;
        table.push(next.choices)?;
    }
    table.reverse();
    Ok(Bounded {
        values,
        steps: table,
    })
}
