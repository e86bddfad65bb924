// Numbers that are strengths of a code.
ghost use Rattle.std.specs.Prelude.{◌≡◌};
ghost use Rattle.code_words.specs.Inputs.{strength_of};

/// How many wrong bits a code corrects, where the number is from 1 to 16. None: it is not.
pub fn strength(number: u64) -> Option<u32>
    ensures { result ≡ strength_of number }
{
    if 1 <= number && number <= 16 {
        Some(number as u32)
    } else {
        None
    }
}
