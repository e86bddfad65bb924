// The nearest code word.
ghost use Rattle.std.specs.Prelude.{◌≡◌, ◌↔◌, ℕ, List, Option, length, IsTrue};
ghost use Rattle.code_model.specs.Word.{AreBits};
ghost use Rattle.code_model.specs.Code.{Code, IsBchCode, IsCodeWord, Decodes, is_code_word, nearest, word_bits};

/// A word is a code word exactly where it has as many bits as the code's words and no remainder by
/// the generator.
pub fn code_word_test()
    ensures { (code : Code) (w : List ℕ)
        → IsBchCode code → IsTrue (is_code_word code w) ↔ IsCodeWord code w }
{}

/// The search by rising distance answers as a decoder does, and a decoder has no other answer.
pub fn nearest_laws()
    ensures decodes { (code : Code) (w : List ℕ)
        → IsBchCode code → AreBits w → length w ≡ word_bits code
        → Decodes code w (nearest code w) }
    ensures only { (code : Code) (w : List ℕ) (answer : Option (List ℕ × ℕ))
        → IsBchCode code → AreBits w → length w ≡ word_bits code
        → Decodes code w answer → answer ≡ nearest code w }
{}
