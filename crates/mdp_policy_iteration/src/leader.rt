ghost use Rattle.std.specs.Prelude.{◌≡◌, Some, None, IfOk, IfErr};
ghost use Rattle.mdp_policy_iteration.specs.{Candidates.{judged}, Code.{shown}};

use mdp_num::{Frac, Wide};
use mdp_rows::Dir;

/// The best value at a node so far, and the choice that has it where it isn't the node's own.
#[derive(Clone, Copy)]
pub struct Leader {
    pub value: Frac,
    pub choice: Option<u32>,
}

/// The leader after choice `c`, which is worth `sum`, has been compared with it: it takes the place of the best one where it is strictly better.
/// `Wide` where a term of the comparison is past width.
pub fn judged(dir: Dir, c: u32, best: Leader, sum: Frac) -> Result<Leader, Wide>
    ensures value { IfOk result (λ next. judged dir c (shown best) sum ≡ Some (shown next)) }
    ensures wide { IfErr result (λ _. judged dir c (shown best) sum ≡ None) }
{
    let order = sum.compare(&best.value)?;
    if dir.is_better(order) {
        return Ok(Leader {
            value: sum,
            choice: Some(c),
        });
    }
    Ok(best)
}
