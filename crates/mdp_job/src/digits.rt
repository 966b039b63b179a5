ghost use Rattle.std.specs.Prelude.{◌≡◌, ◌≤◌, ◌<◌, ◌^◌, IfSome};
ghost use Rattle.mdp_job.specs.Words.{whole_word};

use mdp_num::{are_digits, capped_after};

/// 2^127. No number of at most 20 digits comes near it.
const CAP: u128 = 1 << 127;

/// The number that a word writes in digits, at least one and at most so many.
pub(crate) fn whole_word(word: &[u8], most: usize) -> Option<u128>
    requires { most ≤ 20 }
    ensures value { result ≡ whole_word most word.now }
    ensures few { IfSome result (λ n. n < 10 ^ most) }
{
    if !are_digits(word) || word.len() > most {
        return None;
    }
    Some(capped_after(0, word, CAP))
}
