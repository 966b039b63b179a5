ghost use Rattle.std.specs.Prelude.{◌≡◌, ◌∷◌, [], length};
ghost use Rattle.mdp_text.specs.Words.{words};

use mdp_text::{cut_word, only_word};

/// The words of a text of three.
pub fn three_words(text: &[u8]) -> (&[u8], &[u8], &[u8])
    requires { length (words text.now) ≡ 3 }
    ensures { words text.now ≡ result.0.now ∷ result.1.now ∷ result.2.now ∷ [] }
{
    let (first, others) = cut_word(text);
    let (second, third) = cut_word(others);
    (first, second, only_word(third))
}

/// The words of a text of four.
pub fn four_words(text: &[u8]) -> (&[u8], &[u8], &[u8], &[u8])
    requires { length (words text.now) ≡ 4 }
    ensures { words text.now ≡ result.0.now ∷ result.1.now ∷ result.2.now ∷ result.3.now ∷ [] }
{
    let (first, others) = cut_word(text);
    let (second, third, fourth) = three_words(others);
    (first, second, third, fourth)
}
