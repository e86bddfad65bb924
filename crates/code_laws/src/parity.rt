// Parity and mask.
ghost use Rattle.std.specs.Prelude.{◌≡◌, ◌-◌, ◌*◌, ◌++◌, ℕ, List, length, take, drop, replicate};
ghost use Rattle.code_model.specs.Bits.{bits_of};
ghost use Rattle.code_model.specs.Word.{AreBits};
ghost use Rattle.code_model.specs.Code.{Code, IsBchCode, IsCodeWord, mask_of, masked, parity_bits, parity_len, parity_of};

/// The parity of a step completes it to a code word, no other parity bits do, and its padding is 0.
pub fn parity_laws()
    ensures completes { (code : Code) (body : List ℕ)
        → IsBchCode code → length body ≡ code.step_bytes
        → IsCodeWord code (bits_of body
        ++ take (parity_bits code) (bits_of (parity_of code body))) }
    ensures only { (code : Code) (body parity : List ℕ)
        → IsBchCode code → AreBits parity → length parity ≡ parity_bits code
        → IsCodeWord code (bits_of body ++ parity)
        → parity ≡ take (parity_bits code) (bits_of (parity_of code body)) }
    ensures padding { (code : Code) (body : List ℕ)
        → IsBchCode code
        → drop (parity_bits code) (bits_of (parity_of code body))
        ≡ replicate (8 * parity_len code - parity_bits code) 0 }
    ensures long { (code : Code) (body : List ℕ) → length (parity_of code body) ≡ parity_len code }
{}

/// The mask undoes itself, and turns the parity of an erased step into 0xFF.
pub fn mask_laws()
    ensures undone { (code : Code) (parity : List ℕ)
        → length parity ≡ parity_len code → masked code (masked code parity) ≡ parity }
    ensures erased { (code : Code)
        → masked code (parity_of code (replicate code.step_bytes 0xff))
        ≡ replicate (parity_len code) 0xff }
{}
