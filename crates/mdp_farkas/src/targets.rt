ghost use Rattle.std.specs.{Prelude.{◌≡◌, ℕ, ◌<◌, Bool, length, All}, List.{list_all, list_any}};
ghost use Rattle.mdp_spec.specs.Mdp.{states_of, choices_at, row_at};

use mdp_rows::Model;

/// A test of states.
pub trait StateTest: Copy {
    // How many states there are.
    ghost states: { Self → ℕ };

    // Whether a state passes.
    ghost test: { Self → ℕ → Bool };

    /// Whether state `t` passes.
    fn passes(self, t: u32) -> bool
        requires { t < states self }
        ensures { result ≡ test self t };
}

/// Whether some of these states passes.
pub fn some_passes<T: StateTest>(targets: &[u32], test: T) -> bool
    requires { All (λ t. t < T.states test) targets.now }
    ensures { result ≡ list_any (T.test test) targets.now }
{
    for t in targets {
        if test.passes(*t) {
            return true;
        }
    }
    false
}

/// Whether all of these states pass.
pub fn all_pass<T: StateTest>(targets: &[u32], test: T) -> bool
    requires { All (λ t. t < T.states test) targets.now }
    ensures { result ≡ list_all (T.test test) targets.now }
{
    for t in targets {
        if !test.passes(*t) {
            return false;
        }
    }
    true
}

/// Whether some target of the row of choice `c` at state `s` passes.
pub fn some_target<T: StateTest>(model: &Model, s: u32, c: u32, test: T) -> bool
    requires state { s < states_of model.now }
    requires choice { c < length (choices_at model.now s) }
    requires states { T.states test ≡ states_of model.now }
    ensures { result ≡ list_any (λ y. T.test test y.target) (row_at model.now s c) }
{
    some_passes(model.row(s, c).targets, test)
}

/// Whether all targets of the row of choice `c` at state `s` pass.
pub fn each_target<T: StateTest>(model: &Model, s: u32, c: u32, test: T) -> bool
    requires state { s < states_of model.now }
    requires choice { c < length (choices_at model.now s) }
    requires states { T.states test ≡ states_of model.now }
    ensures { result ≡ list_all (λ y. T.test test y.target) (row_at model.now s c) }
{
    all_pass(model.row(s, c).targets, test)
}
