ghost use Rattle.std.specs.Prelude.{◌≡◌, ◌+◌, ◌*◌, ◌-◌, ◌/◌, ◌<◌, ◌≤◌, ◌^◌, length, pos, ◌<ℤ◌};
ghost use Rattle.mdp_spec.specs.Mdp.{states_of, choices_at, choice_at};
ghost use Rattle.mdp_horizon.specs.Finer.{greater, common_of, reach_of, widened, widened_by, widest, span, room, finer, factor_of, unit_of};
ghost use Rattle.mdp_horizon.specs.Code.{plain_objective};

use crate::columns::Query;
use crate::objective::Objective;
use crate::scaling::common_in;
use crate::whole::power_of_ten;

/// How wide rows are: the greatest of their common denominators, and a whole number above what each choice earns at once.
#[derive(Clone, Copy)]
pub(crate) struct Widest {
    pub common: u128,
    pub reach: u128,
}

/// The greater number.
fn greater(x: u128, y: u128) -> u128
    ensures value { result ≡ greater x y }
    ensures above { x ≤ result }
{
    if x < y { y } else { x }
}

/// How much finer than `one` units to 1 it can be, so that no product of a row passes 127 bits.
fn room(widest: Widest, span: u128, one: u128) -> u128
    requires common { 0 < widest.common }
    requires reach { 0 < widest.reach }
    requires span { 0 < span }
    requires one { 0 < one }
    ensures { result ≡ room widest span one }
{
    i128::MAX.unsigned_abs() / widest.common / widest.reach / span / one
}

/// Ten times `factor`, where that is below `steps` and there is room.
fn finer(steps: u32, room: u128, factor: u32) -> u32
    requires { factor ≤ 10 ^ 6 }
    ensures value { result ≡ finer steps room factor }
    ensures most { result ≤ factor * 10 }
    ensures least { factor ≤ result }
{
    if factor < steps && u128::from(factor * 10) <= room {
        factor * 10
    } else {
        factor
    }
}

/// The least power of ten that isn't below `steps`, as far as there is room, and at most 10^7.
fn factor_of(steps: u32, room: u128) -> u32
    ensures value { result ≡ factor_of steps room }
    ensures few { result ≤ 10 ^ 7 }
    ensures some { 0 < result }
{
    let mut factor = 1;
    for _ in 0..7u32 {
        factor = finer(steps, room, factor);
    }
    factor
}

impl Query<'_> {
    /// How wide rows are, with that of choice `c` of state `s`.
    fn widened(self, widest: Widest, s: u32, c: u32) -> Widest
        requires state { s < states_of self.model.now }
        requires choice { c < length (choices_at self.model.now s) }
        ensures value { result ≡ widened (plain_objective self.entry.objective) widest (choice_at self.entry.model.now s c) }
        ensures common { widest.common ≤ result.common }
        ensures reach { widest.reach ≤ result.reach }
    {
        let gain = self.earns(s, c);
        let common = common_in(gain.den(), self.model.row(s, c)).unwrap_or(1);
        let reach = gain.num().unsigned_abs() / gain.den().unsigned_abs() + 1;
        Widest {
            common: greater(widest.common, common.unsigned_abs()),
            reach: greater(widest.reach, reach),
        }
    }

    /// How wide rows are, with those of state `s`.
    fn widened_by(self, widest: Widest, s: u32) -> Widest
        requires state { s < states_of self.model.now }
        ensures value { result ≡ widened_by (plain_objective self.entry.objective) widest (choices_at self.entry.model.now s) }
        ensures common { widest.common ≤ result.common }
        ensures reach { widest.reach ≤ result.reach }
    {
        let mut widest = widest;
        for c in 0..self.model.choices(s) {
            widest = self.widened(widest, s, c);
        }
        widest
    }

    /// How wide the model's rows are.
    fn widest(self) -> Widest
        ensures value { result ≡ widest self.entry.model.now (plain_objective self.entry.objective) }
        ensures common { 0 < result.common }
        ensures reach { 0 < result.reach }
    {
        let mut widest = Widest {
            common: 1,
            reach: 1,
        };
        for s in 0..self.model.states() {
            widest = self.widened_by(widest, s);
        }
        widest
    }

    /// How many times one step's greatest value can be reached within so many steps.
    fn span(self, steps: u32) -> u128
        ensures value { result ≡ span (plain_objective self.entry.objective) steps }
        ensures some { 0 < result }
    {
        match self.objective {
            Objective::Until(_, _) => 1,
            Objective::Total(_) => u128::from(steps) + 1,
        }
    }

    /// How many units make 1 for a curve of so many steps: 10^digits, times the least power of ten that isn't below `steps`, or less where a row
    /// has no room for that. So the two values of each number of steps come at most 10^-digits apart, where no row is wide.
    pub(crate) fn unit_of(self, digits: u32, steps: u32) -> i128
        requires digits { digits ≤ 30 }
        ensures value { result ≡ pos (unit_of self.entry.model.now (plain_objective self.entry.objective) digits steps) }
        ensures positive { pos 0 <ℤ result }
    {
        let widest = self.widest();
        let one = power_of_ten(digits);
        let room = room(widest, self.span(steps), one.unsigned_abs());
        one * i128::from(factor_of(steps, room))
    }
}
