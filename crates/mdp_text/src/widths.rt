ghost use Rattle.std.specs.Prelude.{◌<◌, ◌^◌, All};
ghost use Rattle.mdp_num.specs.Value.{IsNarrow};

use mdp_num::Frac;

/// Each fraction is in width, as its type keeps it: for a writer whose text must be one that is read.
pub fn all_narrow(values: &[Frac])
    ensures { All IsNarrow values.now }
{
    for value in values {
        value.num();
    }
}

/// Each number is below 2^32, as its type keeps it.
pub fn all_short(numbers: &[u32])
    ensures { All (λ n. n < 2 ^ 32) numbers.now }
{
    for number in numbers {
        let _number = *number;
    }
}
