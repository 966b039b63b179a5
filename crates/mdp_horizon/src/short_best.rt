ghost use Rattle.std.specs.Prelude.{◌≡◌, ◌<◌, ◌≤◌, ◌^◌, length, map, pos, ◌<ℤ◌, ◌*ℤ◌, Some, unsigned_abs, IfSome, false};
ghost use Rattle.mdp_horizon.specs.Columns.{covered, covered_with, followed, judged};
ghost use Rattle.mdp_horizon.specs.{Scaled.{rounded_sum}, Short.{known}, Whole.{farther, opposite}, Past.{summed, IsReached, IsBehind}};
ghost use Rattle.mdp_horizon.specs.BoundsCode.{plain_short, plain_leader, IsReady, AreReady};

use crate::best::is_better;
use crate::choice::ShortChoice;
use crate::leader::ShortLeader;
use crate::short_sums::{product, short_total};
use crate::whole::{opposite, short_rounded};
use mdp_rows::Dir;

/// Whether n/d lies strictly beyond `far`. Where it doesn't, it needn't be divided.
#[inline(always)]
fn is_past(dir: Dir, far: i64, n: i128, d: i64) -> bool
    ensures { result ≡ false → IsReached dir far n d }
{
    is_better(dir, n, product(far, d))
}

/// Whether n/d, rounded the other way, lies strictly beyond `far`. Where it doesn't, it needn't be divided.
#[inline(always)]
fn is_ahead(dir: Dir, far: i64, n: i128, d: i64) -> bool
    requires { unsigned_abs n ≤ 2 ^ 126 }
    ensures { result ≡ false → IsBehind dir far n d }
{
    let limit = product(far, d);
    let step = i128::from(d);
    match dir {
        Dir::Max => limit <= n - step,
        Dir::Min => n + step <= limit,
    }
}

/// The greater number for `Max`, the smaller one for `Min`.
#[inline(always)]
fn farther(side: Dir, x: i64, y: i64) -> i64
    ensures { result ≡ farther side x y }
{
    let is_farther = match side {
        Dir::Max => x < y,
        Dir::Min => y < x,
    };
    if is_farther { y } else { x }
}

impl ShortChoice<'_> {
    /// The sum before it is divided.
    #[inline(always)]
    fn summed(&self, values: &[i64]) -> i128
        requires { IsReady (length values.now) (plain_short self.now) }
        ensures value { Some result ≡ summed (known values.now) (plain_short self.now) }
        ensures narrow { unsigned_abs result ≤ 2 ^ 126 }
        ensures positive { pos 0 <ℤ self.now.common }
    {
        short_total(self.start, self.terms, values)
    }

    /// The sum, rounded; none where it has more than 64 bits.
    #[inline(always)]
    fn short_sum(&self, side: Dir, values: &[i64]) -> Option<i64>
        requires { IsReady (length values.now) (plain_short self.now) }
        ensures { IfSome result (λ sum. rounded_sum side (known values.now) (plain_short self.now) ≡ Some sum) }
    {
        let sum = self.summed(values);
        short_rounded(side, sum, self.common)
    }

    /// The sum, where it lies farther than `far`.
    #[inline(always)]
    fn covered_with(&self, dir: Dir, values: &[i64], far: i64) -> Option<i64>
        requires { IsReady (length values.now) (plain_short self.now) }
        ensures { IfSome result (λ next. covered_with dir (known values.now) far (plain_short self.now) ≡ Some next) }
    {
        let sum = self.summed(values);
        let past = is_past(dir, far, sum, self.common);
        if !past {
            return Some(far);
        }
        let quotient = short_rounded(dir, sum, self.common)?;
        Some(farther(dir, far, quotient))
    }

    /// The leader after the sum of choice `c`, rounded the other way.
    #[inline(always)]
    fn judged(&self, dir: Dir, values: &[i64], c: u32, leader: ShortLeader) -> Option<ShortLeader>
        requires { IsReady (length values.now) (plain_short self.now) }
        ensures { let sum = rounded_sum (opposite dir) (known values.now) (plain_short self.now) in
            IfSome result (λ next. judged dir c (plain_leader leader) sum ≡ plain_leader next) }
    {
        let sum = self.summed(values);
        let ahead = is_ahead(dir, leader.value, sum, self.common);
        if !ahead {
            return Some(leader);
        }
        let value = short_rounded(opposite(dir), sum, self.common)?;
        let better = is_better(dir, i128::from(value), i128::from(leader.value));
        if better {
            return Some(ShortLeader { value, choice: c });
        }
        Some(leader)
    }
}

/// The farthest of the choices' sums, rounded; none where one has more than 64 bits.
pub(crate) fn short_covered(dir: Dir, values: &[i64], choices: &[ShortChoice<'_>]) -> Option<i64>
    requires some { 0 < length choices.now }
    requires ready { AreReady (length values.now) (map plain_short choices.now) }
    ensures { IfSome result (λ far. covered dir (known values.now) (map plain_short choices.now) ≡ Some far) }
{
    let mut far = choices[0].short_sum(dir, values)?;
    for c in 1..choices.len() {
        far = choices[c].covered_with(dir, values, far)?;
    }
    Some(far)
}

/// The first choice with the best sum, rounded the other way; none where a sum has more than 64 bits.
pub(crate) fn short_followed(
    dir: Dir,
    values: &[i64],
    choices: &[ShortChoice<'_>],
    count: u32,
) -> Option<ShortLeader>
    requires some { 0 < length choices.now }
    requires count { count ≡ length choices.now }
    requires ready { AreReady (length values.now) (map plain_short choices.now) }
    ensures { IfSome result (λ leader. followed dir (known values.now) (map plain_short choices.now) ≡ plain_leader leader) }
{
    let mut leader = ShortLeader {
        value: choices[0].short_sum(opposite(dir), values)?,
        choice: 0,
    };
    for c in 1..count {
        leader = choices[c as usize].judged(dir, values, c, leader)?;
    }
    Some(leader)
}
