ghost use Rattle.std.specs.{Prelude.{◌≡◌, ◌≢◌, option_and_then, pos}, Result.{result_ok}};
ghost use Rattle.mdp_math.specs.{Rational.{of_int}, Written.{written_add, written_mul}};
ghost use Rattle.mdp_num.specs.Written.{written_div};

use mdp_num::{Frac, Wide};

/// A sum and so many times a value. Where the value is 0 nothing is computed: the product is 0, and the sum, which is in width, stays.
pub(crate) fn plus_times(sum: &Frac, times: &Frac, value: &Frac) -> Result<Frac, Wide>
    ensures { result_ok result ≡ option_and_then (written_add sum.now) (written_mul times.now value.now) }
{
    if value.sign() == 0 {
        // (by a clause of `sign`)
        let _in_width = sum.sign();
        return Ok(*sum);
    }
    let more = times.mul(value)?;
    sum.add(&more)
}

/// A quotient. Where the dividend is 0 nothing is computed: it stays.
pub(crate) fn quotient(dividend: &Frac, divisor: &Frac) -> Result<Frac, Wide>
    requires { divisor.now ≢ of_int (pos 0) }
    ensures { result_ok result ≡ written_div dividend.now divisor.now }
{
    if dividend.sign() == 0 {
        return Ok(*dividend);
    }
    dividend.div(divisor)
}
